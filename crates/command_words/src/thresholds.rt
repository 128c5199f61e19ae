// The settings: the declared voltage, and the thresholds and the hysteresis in thousandths of it.
ghost use Rattle.std.specs.Prelude.{◌≡◌, ◌≤◌, IfOk};
ghost use Rattle.command_words.specs.Simple.{rows_found};
ghost use Rattle.command_words.specs.Values.{Gives, IsBetween, settings_of, text_view, thousandths_or, usual_settings};
ghost use Rattle.event_detect.specs.Threshold.{IsInRange};
ghost use Rattle.event_detect.specs.declared.limits.TheConstants.{MOST_UDIN};

use crate::command::WordsFault;
use crate::number::number_between;
use crate::values::{required, value_of};
use clap::ArgMatches;
use event_detect::{MOST_THOUSANDTHS, MOST_UDIN, Settings};

/// The usual thresholds and their hysteresis, in thousandths of the declared voltage (profile).
pub(crate) const USUAL_DIP: u32 = 900;

pub(crate) const USUAL_SWELL: u32 = 1100;

pub(crate) const USUAL_INTERRUPTION: u32 = 50;

pub(crate) const USUAL_HYSTERESIS: u32 = 20;

/// The settings of a declared voltage where no other option is given.
pub fn usual_settings(udin_mv: u64) -> Settings
    requires { IsBetween 1 MOST_UDIN udin_mv }
    ensures value { result ≡ usual_settings udin_mv }
    ensures within { IsInRange result }
{
    Settings {
        udin_mv,
        dip: USUAL_DIP,
        swell: USUAL_SWELL,
        interruption: USUAL_INTERRUPTION,
        hysteresis: USUAL_HYSTERESIS,
    }
}

/// The settings that the options say.
#[tactic(auto, unfolding(crate::specs::Values::settings_of))]
pub(crate) fn settings_of(matches: &ArgMatches<'_>) -> Result<Settings, WordsFault>
    ensures value { Gives result (settings_of (rows_found matches.now)) }
    ensures within { IfOk result IsInRange }
{
    let udin = required(matches, "udin")?;
    let udin_mv = number_between(udin.as_bytes(), 10, 1, MOST_UDIN)?;
    let dip = thousandths_or(value_of(matches, "dip"), USUAL_DIP)?;
    let swell = thousandths_or(value_of(matches, "swell"), USUAL_SWELL)?;
    let interruption = thousandths_or(value_of(matches, "interruption"), USUAL_INTERRUPTION)?;
    let hysteresis = thousandths_or(value_of(matches, "hysteresis"), USUAL_HYSTERESIS)?;
    Ok(Settings {
        udin_mv,
        dip,
        swell,
        interruption,
        hysteresis,
    })
}

// One to four digits, at most 2000; the usual value where there is no text.
fn thousandths_or(text: Option<&str>, usual: u32) -> Result<u32, WordsFault>
    requires { usual ≤ MOST_THOUSANDTHS }
    ensures value { Gives result (thousandths_or usual (text_view text.entry)) }
    ensures within { IfOk result (λ n. n ≤ MOST_THOUSANDTHS) }
{
    let Some(text) = text else {
        return Ok(usual);
    };
    let thousandths = number_between(text.as_bytes(), 4, 0, u64::from(MOST_THOUSANDTHS))?;
    Ok(thousandths as u32)
}
