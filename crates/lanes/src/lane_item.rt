// What a lane posts.
ghost use Rattle.std.specs.Prelude.{◌≡◌, ◌^◌, ◌<◌};
ghost use Rattle.lanes.specs.Lane.{lane_key};

use event_detect::Window;
use freq10s::Reading;

/// An item of a lane: a basic value of a channel, a half-cycle window of a channel, or a frequency reading,
/// without a flag.
#[derive(Clone, Copy)]
pub enum LaneItem {
    /// The magnitude of the supply voltage over a basic interval (IEC 61000-4-30:2015, 5.2): from the place
    /// `start` up to the place `end`, with its root `value` in microvolts.
    Value { start: u64, end: u64, value: u64 },
    /// A half-cycle window of a channel (5.4).
    Window(Window),
    /// A frequency reading of the reference channel (5.1).
    Reading(Reading),
}

impl LaneItem {
    /// The item's key: the end of a value or a reading, and one more than the start of a window. The keys of
    /// a recording's items are at most its number of samples, and so fit.
    pub fn key(&self) -> u64
        ensures value { lane_key self.now < 2 ^ 64 → result ≡ lane_key self.now }
    {
        match *self {
            LaneItem::Value { end, .. } => end,
            LaneItem::Window(window) => window.start.saturating_add(1),
            LaneItem::Reading(reading) => reading.end,
        }
    }
}
