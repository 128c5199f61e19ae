// The station line and the numbers of channels line.
ghost use Rattle.std.specs.Prelude.{◌≡◌, ◌≤◌, ◌⊎◌, map, IfOk};
ghost use Rattle.cfg_fields.specs.Cursor.{read_by};
ghost use Rattle.cfg_fields.specs.Fields.{Gives};
ghost use Rattle.comtrade_cfg.specs.CfgText.{AreFew, counts_line, station_fields, station_line};

use cfg_fields::{
    CfgFault, FieldLine, Quantity, Unsupported, channel_count, number_field, position_field,
    text_field,
};
use pq_base::Text;
use std::alloc::Global;

/// What the station line says.
#[derive(Drop)]
pub(crate) struct Station {
    pub station: Text,
    pub device: Text,
    pub revision: u16,
}

/// How many channels there are of each kind.
#[derive(Clone, Copy)]
pub(crate) struct ChannelCounts {
    pub analogue: u32,
    pub status: u32,
}

/// The station line. With two fields alone it is of an earlier revision.
pub(crate) fn station_line(alloc: Global, line: &FieldLine) -> Result<Station, CfgFault>
    ensures { Gives result (read_by station_line line.now) }
{
    match line.fields.as_slice() {
        [station, device, revision] => {
            station_fields(alloc, line.number, station, device, revision)
        }
        [_, _] => Err(CfgFault::Unsupported {
            what: Unsupported::Revision,
            line: line.number,
        }),
        _ => Err(CfgFault::Line {
            number: line.number,
        }),
    }
}

/// The numbers of channels line: TT, nA and nD. The total is judged last.
pub(crate) fn counts_line(line: &FieldLine) -> Result<ChannelCounts, CfgFault>
    ensures value { Gives result (read_by counts_line line.now) }
    ensures within { IfOk result AreFew }
{
    let number = line.number;
    match line.fields.as_slice() {
        [total, analogue, status] => {
            let analogue = channel_count(b'A', Quantity::Analogue, number, 2, analogue)?;
            let status = channel_count(b'D', Quantity::Status, number, 3, status)?;
            position_field(analogue + status, number, 1, total)?;
            Ok(ChannelCounts { analogue, status })
        }
        _ => Err(CfgFault::Line { number }),
    }
}

// Station, device and revision
#[tactic(auto, unfolding(crate::specs::CfgText::station_fields))]
fn station_fields(
    alloc: Global,
    line: u32,
    station: &[u8],
    device: &[u8],
    revision: &[u8],
) -> Result<Station, CfgFault>
    ensures { Gives result (station_fields line station.now device.now revision.now) }
{
    let station = text_field(alloc, line, 1, station)?;
    let device = text_field(alloc, line, 2, device)?;
    let revision = number_field(line, 3, revision)?;
    if revision != 1999 && revision != 2013 {
        return Err(CfgFault::Unsupported {
            what: Unsupported::Revision,
            line,
        });
    }
    Ok(Station {
        station,
        device,
        revision: revision as u16,
    })
}
