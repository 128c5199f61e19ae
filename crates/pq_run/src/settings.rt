// The limits of settings.
ghost use Rattle.std.specs.Prelude.{◌≡◌, IfErr, IfOk};
ghost use Rattle.event_detect.specs.Threshold.{IsInOrder, IsInRange};
ghost use Rattle.pq_run.specs.SettingsLimits.{settings_limits};
ghost use Rattle.status_text.specs.Refusals.{IsRefusing};

use event_detect::{BadLimits, Limits, Settings};
use status_text::Status;

/// The thresholds of settings in microvolts, or their refusal.
#[tactic(auto, unfolding(crate::specs::SettingsLimits::settings_limits))]
pub fn limits_of(settings: &Settings) -> Result<Limits, Status>
    requires { IsInRange settings.now }
    ensures value { result ≡ settings_limits settings.now }
    ensures order { IfOk result IsInOrder }
    ensures refuses { IfErr result IsRefusing }
{
    match Limits::of(settings) {
        Ok(limits) => Ok(limits),
        Err(BadLimits) => Err(Status::BadLimits),
    }
}
