// How many channels stand where to the thresholds.
ghost use Rattle.std.specs.Prelude.{◌≡◌};
ghost use Rattle.polyphase.specs.Latest.{AreAtMost, IsAmong, no_counts, with_class};

use event_detect::Class;
use pq_words::MOST_SELECTED;

// Of how many channels there is a latest value, and of how many of them it is past each threshold, or
// back.
#[derive(Clone, Copy)]
pub(crate) struct Counts {
    pub(crate) there: u32,
    pub(crate) below_dip: u32,
    pub(crate) clear_dip: u32,
    pub(crate) above_swell: u32,
    pub(crate) clear_swell: u32,
    pub(crate) below_interruption: u32,
    pub(crate) clear_interruption: u32,
}

impl Counts {
    // Those of no value.
    pub(crate) fn new() -> Counts
        ensures { result ≡ no_counts }
    {
        Counts {
            there: 0,
            below_dip: 0,
            clear_dip: 0,
            above_swell: 0,
            clear_swell: 0,
            below_interruption: 0,
            clear_interruption: 0,
        }
    }

    // Those with one value more, of this class.
    pub(crate) fn with(self, class: Class) -> Counts
        requires { AreAtMost MOST_SELECTED self }
        ensures { result ≡ with_class self class }
    {
        Counts {
            there: self.there + 1,
            below_dip: self.below_dip + u32::from(class.below_dip),
            clear_dip: self.clear_dip + u32::from(class.clear_dip),
            above_swell: self.above_swell + u32::from(class.above_swell),
            clear_swell: self.clear_swell + u32::from(class.clear_swell),
            below_interruption: self.below_interruption + u32::from(class.below_interruption),
            clear_interruption: self.clear_interruption + u32::from(class.clear_interruption),
        }
    }

    // Those with one value less, of this class.
    pub(crate) fn without(self, class: Class) -> Counts
        requires { IsAmong class self }
        ensures { with_class result class ≡ self }
    {
        Counts {
            there: self.there - 1,
            below_dip: self.below_dip - u32::from(class.below_dip),
            clear_dip: self.clear_dip - u32::from(class.clear_dip),
            above_swell: self.above_swell - u32::from(class.above_swell),
            clear_swell: self.clear_swell - u32::from(class.clear_swell),
            below_interruption: self.below_interruption - u32::from(class.below_interruption),
            clear_interruption: self.clear_interruption - u32::from(class.clear_interruption),
        }
    }
}
