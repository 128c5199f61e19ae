// How far apart boundaries are.
ghost use Rattle.std.specs.Prelude.{◌≡◌, ◌⊎◌, ◌*◌, ◌^◌, ◌≤◌};
ghost use Rattle.zero_cross.specs.Boundary.{rule_of, IsRule};

use pq_words::{LEAST_SAMPLES_IN_CYCLE, MOST_RATE};

/// Half a cycle in samples, and how near and how far the next boundary may be (profile).
#[derive(Clone, Copy)]
pub struct Rule {
    /// Half a cycle, in samples.
    pub h: u64,
    /// The least number of samples to the next boundary: a fifth less.
    pub lo: u64,
    /// The greatest number of samples to the next boundary: a quarter more.
    pub hi: u64,
}

impl Rule {
    /// The rule at a rate in microhertz, within the limits, and a line frequency of 50 or 60 hertz.
    #[tactic(auto, unfolding(crate::specs::Boundary::rule_of))]
    pub fn of(rate: u64, lf: u32) -> Rule
        requires line { (lf ≡ 50) ⊎ (lf ≡ 60) }
        requires least { LEAST_SAMPLES_IN_CYCLE * lf * 10 ^ 6 ≤ rate }
        requires most { rate ≤ MOST_RATE }
        ensures value { result ≡ rule_of rate lf }
        ensures rule { IsRule result }
    {
        let cycle = u64::from(lf) * 1_000_000;
        let h = (rate + cycle) / (2 * cycle);
        Rule {
            h,
            lo: h - h / 5,
            hi: h + h / 4,
        }
    }
}
