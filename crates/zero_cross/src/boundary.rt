// A boundary, place by place.
ghost use Rattle.std.specs.Prelude.{◌≡◌, ◌<◌, ◌≤◌, ◌+◌, length, IfSome, IsNone, ◌↔◌, []};
ghost use Rattle.zero_cross.specs.Boundary.{crosses_at, first_boundary, next_boundary, IsRule};
ghost use Rattle.pq_words.specs.First.{first_between};

use crate::rule::Rule;

/// A place at which a half-cycle begins, and whether it counts as a rising one, as each second does.
#[derive(Clone, Copy, Debug, PartialEq, Eq)]
pub struct Boundary {
    pub place: u64,
    pub rising: bool,
}

/// Boundary 0, a place in the signal: the first rising crossing in the search range, and place 0 where
/// there is none. None exactly where there are no samples (profile).
#[tactic(auto, unfolding(crate::specs::Boundary::first_boundary))]
pub fn first(samples: &[i64], rule: &Rule) -> Option<u64>
    requires rule { IsRule rule.now }
    ensures value { result ≡ first_boundary samples.now rule.now }
    ensures none { IsNone result ↔ (samples.now ≡ []) }
    ensures within { IfSome result (λ k. k < length samples.now) }
{
    if samples.is_empty() {
        return None;
    }
    let end = (2 * rule.hi + 1).min(samples.len() as u64);
    match crossing(samples, true, 1, end) {
        Some(place) => Some(place),
        None => Some(0),
    }
}

/// The boundary after the one at `place`, as a rising or a falling one; `Rule::lo` to `Rule::hi`
/// samples on. None exactly where the list of boundaries ends (profile).
#[tactic(auto, unfolding(crate::specs::Boundary::next_boundary))]
pub fn next(samples: &[i64], rule: &Rule, place: u64, rising: bool) -> Option<u64>
    requires rule { IsRule rule.now }
    requires place { place < length samples.now }
    ensures value { result ≡ next_boundary samples.now rule.now place rising }
    ensures within { IfSome result (λ k. k < length samples.now) }
    ensures ahead { IfSome result (λ k. place < k) }
    ensures least { IfSome result (λ k. place + rule.now.lo ≤ k) }
    ensures most { IfSome result (λ k. k ≤ place + rule.now.hi) }
{
    let end = (place + rule.hi + 1).min(samples.len() as u64);
    match crossing(samples, rising, place + rule.lo, end) {
        Some(found) => Some(found),
        None => {
            if place + rule.hi < samples.len() as u64 {
                Some(place + rule.h)
            } else {
                None
            }
        }
    }
}

// The first crossing from a place up to another.
fn crossing(samples: &[i64], rising: bool, low: u64, high: u64) -> Option<u64>
    requires low { 1 ≤ low }
    requires high { high ≤ length samples.now }
    ensures value { result ≡ first_between (crosses_at samples.now rising) low high }
    ensures within { IfSome result (λ k. k < high) }
    ensures after { IfSome result (λ k. low ≤ k) }
{
    for place in low..high {
        if crosses(samples, rising, place) {
            return Some(place);
        }
    }
    None
}

// Whether the signal crosses zero at a place.
fn crosses(samples: &[i64], rising: bool, place: u64) -> bool
    requires low { 1 ≤ place }
    requires high { place < length samples.now }
    ensures { result ≡ crosses_at samples.now rising place }
{
    let before = samples[place as usize - 1];
    let at = samples[place as usize];
    if rising {
        before < 0 && at >= 0
    } else {
        before > 0 && at <= 0
    }
}
