// The clock of a recording.
ghost use Rattle.std.specs.Prelude.{◌≡◌, ◌≤◌};
ghost use Rattle.pq_time.specs.Time.{IsClock, time_of, place_of};

use pq_words::MOST_SAMPLES;

// Nanoseconds in a second, times microhertz in a hertz.
const NANOSECONDS_MICROHERTZ: u128 = 1_000_000_000_000_000;

/// When the samples of a recording are taken.
#[derive(Clone, Copy, Debug, PartialEq, Eq)]
pub struct Clock {
    /// The moment of the first sample: nanoseconds since 1970, UTC.
    pub t0: i64,
    /// The sampling rate, in microhertz.
    pub rate: u64,
}

impl Clock {
    /// The moment of the sample at place `i`, rounded down to a nanosecond: nanoseconds since 1970, UTC.
    pub fn time_of(&self, i: u64) -> i64
        requires clock { IsClock self.now }
        requires place { i ≤ MOST_SAMPLES }
        ensures { result ≡ time_of self.now i }
    {
        let passed = u128::from(i) * NANOSECONDS_MICROHERTZ / u128::from(self.rate);
        self.t0 + passed as i64
    }

    /// The place of a moment: the least of the places from 0 whose sample is taken at the moment `t`
    /// or after it, but at most `n`.
    pub fn place_of(&self, t: i64, n: u64) -> u64
        requires clock { IsClock self.now }
        requires places { n ≤ MOST_SAMPLES }
        ensures value { result ≡ place_of self.now t n }
        ensures within { result ≤ n }
    {
        if t <= self.t0 {
            return 0;
        }
        let passed = u128::from(t.abs_diff(self.t0));
        let place = (passed * u128::from(self.rate)).div_ceil(NANOSECONDS_MICROHERTZ);
        place.min(u128::from(n)) as u64
    }
}
