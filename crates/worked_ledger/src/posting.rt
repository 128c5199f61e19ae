// Posting to a ledger, and advancing it.
ghost use Rattle.std.specs.Prelude.{◌≡◌, ◌<◌};
ghost use Rattle.interval_ledger.specs.Ledger.{IsReached, KeepsCounts};
ghost use Rattle.lanes.specs.Lane.{lane_count};
ghost use Rattle.worked_ledger.specs.Measured.{IsOf};

use crate::measured::Measured;
use interval_ledger::{Ledger, Steps};
use std::alloc::AllocError;
use std::marker::Brand;
use std::sync::ledger::{Blank, Ledger as Tally};

/// Posts the next items of a lane, at most so many.
pub fn post_some(ledger: &mut Ledger, measured: &Measured<'_>, lane: u32, most: u64)
    requires of { IsOf ledger.old measured.now }
    requires lane { lane < lane_count measured.now }
    ensures { IsOf ledger.new measured.now }
{
    for _ in 0..most {
        let Some(item) = measured.item(lane, ledger.count(lane)) else {
            return;
        };
        ledger.post(lane, item);
    }
}

/// Advances the ledger as far as all lanes are settled.
///
/// # Errors
///
/// [`AllocError`] where there is no memory.
pub fn advance(ledger: &mut Ledger, measured: &Measured<'_>) -> Result<(), AllocError>
    requires { IsOf ledger.old measured.now }
    ensures { IsOf ledger.new measured.now }
{
    let place = least_reach(ledger, measured);
    advance_to::<Brand>(ledger, place, Blank::new(1))
}

// How far all lanes are settled.
fn least_reach(ledger: &Ledger, measured: &Measured<'_>) -> u64
    requires { IsOf ledger.now measured.now }
    ensures { IsReached ledger.now result }
{
    let mut least = u64::MAX;
    for lane in 0..measured.lanes() {
        least = least.min(measured.reach(lane, ledger.count(lane)));
    }
    least
}

// An advance whose steps are counted for this call alone.
fn advance_to<L: Tally>(ledger: &mut Ledger, place: u64, blank: Blank) -> Result<(), AllocError>
    requires name { blank.name ≡ L.name }
    requires parts { (blank.parts ≡ L.parts) × (0 < L.parts) }
    requires reached { IsReached ledger.old place }
    ensures { KeepsCounts ledger.old ledger.new }
{
    let mut steps: Steps<L> = Steps::of(blank);
    ledger.advance(place, &mut steps)
}
