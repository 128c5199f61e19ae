// The disturbances that numbers give.
ghost use Rattle.std.specs.Prelude.{◌≡◌, ◌<◌};
ghost use Rattle.pq_generate.specs.GeneratedRecording.{changed, disturbance_by, lies_on, manner_of, next_number};
ghost use Rattle.pq_words.specs.Magnitude.{IsWithin};

// How many there are in a recording, and how many cycles lie from one index to the next.
pub(crate) const DISTURBANCES: u32 = 10;

pub(crate) const CYCLES_OF_INDEX: u32 = 3000;

// What is made of a count: nothing, a half of it, or six fifths.
#[derive(Clone, Copy, Debug, PartialEq, Eq)]
pub(crate) enum Manner {
    Zeroed,
    Halved,
    Raised,
}

// Some cycles of a channel, which counts from 1.
#[derive(Clone, Copy, Debug, PartialEq, Eq)]
pub(crate) struct Disturbance {
    first_cycle: u32,
    cycles: u32,
    channel: u32,
    manner: Manner,
}

// The number after another.
pub(crate) fn next_number(x: u64) -> u64
    ensures { result ≡ next_number x }
{
    x.wrapping_mul(6_364_136_223_846_793_005)
        .wrapping_add(1_442_695_040_888_963_407)
}

impl Disturbance {
    // The disturbance of an index by its number.
    pub(crate) fn new(index: u32, x: u64) -> Disturbance
        requires { index < DISTURBANCES }
        ensures { result ≡ disturbance_by index x }
    {
        Disturbance {
            first_cycle: CYCLES_OF_INDEX * index + 100 + ((x >> 33) % 2000) as u32,
            cycles: 1 + ((x >> 20) % 50) as u32,
            channel: 1 + ((x >> 10) % 3) as u32,
            manner: Manner::new((x >> 5) % 3),
        }
    }

    // Whether it lies on a channel in a cycle.
    pub(crate) fn lies_on(&self, channel: u32, cycle: u32) -> bool
        ensures { result ≡ lies_on self.now channel cycle }
    {
        self.channel == channel
            && self.first_cycle <= cycle
            && cycle - self.first_cycle < self.cycles
    }

    // What it makes of a count of the sine where it lies.
    pub(crate) fn changed(&self, count: i16) -> i16
        requires { IsWithin 10000 count }
        ensures { result ≡ changed self.now.manner count }
    {
        match self.manner {
            Manner::Zeroed => 0,
            Manner::Halved => count / 2,
            Manner::Raised => (6 * i32::from(count) / 5) as i16,
        }
    }
}

impl Manner {
    fn new(number: u64) -> Manner
        ensures { result ≡ manner_of number }
    {
        match number {
            0 => Manner::Zeroed,
            1 => Manner::Halved,
            _ => Manner::Raised,
        }
    }
}
