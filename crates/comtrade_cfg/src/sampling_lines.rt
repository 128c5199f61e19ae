// How the samples were taken: the line frequency line, the number of sampling rates line and the sampling
// rate line.
ghost use Rattle.std.specs.Prelude.{◌≡◌, ◌≤◌, ◌⊎◌, map, IfOk};
ghost use Rattle.cfg_fields.specs.Cursor.{read_by};
ghost use Rattle.cfg_fields.specs.Fields.{Gives};
ghost use Rattle.comtrade_cfg.specs.CfgText.{frequency_line, rates_line, sampling_line};

use cfg_fields::{
    CfgFault, FieldLine, Unsupported, frequency_field, number_field, rate_field, samples_field,
};

/// What the sampling rate line says.
#[derive(Clone, Copy)]
pub(crate) struct Sampling {
    pub rate: u64,
    pub endsamp: u64,
}

/// The line frequency line: lf.
pub(crate) fn frequency_line(line: &FieldLine) -> Result<u32, CfgFault>
    ensures value { Gives result (read_by frequency_line line.now) }
    ensures within { IfOk result (λ n. n ≤ 60) }
{
    let number = line.number;
    match line.fields.as_slice() {
        [lf] => frequency_field(number, 1, lf),
        _ => Err(CfgFault::Line { number }),
    }
}

/// The number of sampling rates line: nrates, which is 1.
pub(crate) fn rates_line(line: &FieldLine) -> Result<u64, CfgFault>
    ensures { Gives result (read_by rates_line line.now) }
{
    let number = line.number;
    match line.fields.as_slice() {
        [nrates] => {
            let rates = number_field(number, 1, nrates)?;
            if rates != 1 {
                return Err(CfgFault::Unsupported {
                    what: Unsupported::Rates,
                    line: number,
                });
            }
            Ok(rates)
        }
        _ => Err(CfgFault::Line { number }),
    }
}

/// The sampling rate line: samp and endsamp.
pub(crate) fn sampling_line(lf: u32, line: &FieldLine) -> Result<Sampling, CfgFault>
    requires { lf ≤ 60 }
    ensures { Gives result (read_by (sampling_line lf) line.now) }
{
    let number = line.number;
    match line.fields.as_slice() {
        [samp, endsamp] => {
            let rate = rate_field(lf, number, 1, samp)?;
            let endsamp = samples_field(number, 2, endsamp)?;
            Ok(Sampling { rate, endsamp })
        }
        _ => Err(CfgFault::Line { number }),
    }
}
