// Settings, thresholds in microvolts and how a value stands to them.
ghost use Rattle.std.specs.Prelude.{◌≡◌, ◌+◌, ◌*◌, ◌≤◌, ◌↔◌, IsTrue, IsOk, IfOk};
ghost use Rattle.event_detect.specs.Threshold.{IsInRange, IsSound, IsInOrder, limits_of, class_of};

/// The greatest declared voltage, in millivolts (profile).
pub const MOST_UDIN: u64 = 1_000_000_000;

/// The most thousandths of the declared voltage that a threshold or the hysteresis may have (profile).
pub const MOST_THOUSANDTHS: u32 = 2000;

/// The declared voltage in millivolts, and thresholds and hysteresis in thousandths of it
/// (IEC 61000-4-30:2015, 5.4, 5.5).
#[derive(Clone, Copy, Debug, PartialEq, Eq)]
pub struct Settings {
    pub udin_mv: u64,
    pub dip: u32,
    pub swell: u32,
    pub interruption: u32,
    pub hysteresis: u32,
}

/// The thresholds in microvolts: where an event of each kind begins and where it ends.
#[derive(Clone, Copy, Debug, PartialEq, Eq)]
pub struct Limits {
    pub dip: u64,
    pub dip_end: u64,
    pub swell: u64,
    pub swell_end: u64,
    pub interruption: u64,
    pub interruption_end: u64,
}

/// Settings whose thresholds are in the wrong order, or that have no hysteresis.
#[derive(Clone, Copy, Debug, PartialEq, Eq)]
pub struct BadLimits;

/// How a value stands to the thresholds: past one that begins an event, or back past the one that
/// ends it.
#[derive(Clone, Copy, Debug, PartialEq, Eq)]
pub struct Class {
    pub below_dip: bool,
    pub clear_dip: bool,
    pub above_swell: bool,
    pub clear_swell: bool,
    pub below_interruption: bool,
    pub clear_interruption: bool,
}

impl Limits {
    /// The thresholds of some settings (IEC 61000-4-30:2015, 5.4, 5.5).
    ///
    /// # Errors
    ///
    /// [`BadLimits`] where there is no hysteresis, where an interruption would not end below the dip
    /// threshold, or where a dip would not end below the end of a swell.
    pub fn of(settings: &Settings) -> Result<Limits, BadLimits>
        requires { IsInRange settings.now }
        ensures succeeds { IsOk result ↔ IsSound settings.now }
        ensures value { IfOk result (λ limits. limits ≡ limits_of settings.now) }
        ensures within { IfOk result IsInOrder }
    {
        if !are_sound(settings) {
            return Err(BadLimits);
        }
        let udin_mv = settings.udin_mv;
        Ok(Limits {
            dip: microvolts(udin_mv, settings.dip),
            dip_end: microvolts(udin_mv, settings.dip + settings.hysteresis),
            swell: microvolts(udin_mv, settings.swell),
            swell_end: microvolts(udin_mv, settings.swell - settings.hysteresis),
            interruption: microvolts(udin_mv, settings.interruption),
            interruption_end: microvolts(udin_mv, settings.interruption + settings.hysteresis),
        })
    }
}

/// How a value in microvolts stands to the thresholds (IEC 61000-4-30:2015, 5.4, 5.5).
pub fn classify(limits: &Limits, value: u64) -> Class
    ensures { result ≡ class_of limits.now value }
{
    Class {
        below_dip: value < limits.dip,
        clear_dip: value >= limits.dip_end,
        above_swell: value > limits.swell,
        clear_swell: value <= limits.swell_end,
        below_interruption: value < limits.interruption,
        clear_interruption: value >= limits.interruption_end,
    }
}

// Thousandths of the declared voltage, in microvolts.
fn microvolts(udin_mv: u64, thousandths: u32) -> u64
    requires udin { udin_mv ≤ MOST_UDIN }
    requires part { thousandths ≤ 2 * MOST_THOUSANDTHS }
    ensures { result ≡ udin_mv * thousandths }
{
    udin_mv * u64::from(thousandths)
}

fn are_sound(settings: &Settings) -> bool
    requires { IsInRange settings.now }
    ensures { IsTrue result ↔ IsSound settings.now }
{
    let hysteresis = settings.hysteresis;
    hysteresis >= 1
        && settings.interruption + hysteresis < settings.dip
        && settings.dip + 2 * hysteresis < settings.swell
}
