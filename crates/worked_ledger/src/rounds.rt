// Posting all lanes in rounds.
ghost use Rattle.worked_ledger.specs.Measured.{IsOf};

use crate::measured::Measured;
use crate::posting::{advance, post_some};
use interval_ledger::Ledger;
use std::alloc::AllocError;

/// In which order lanes post: so many rounds, in each of which every lane posts at most so many items, from
/// the first lane on or from the last one back.
#[derive(Clone, Copy)]
pub struct Order {
    pub rounds: u64,
    pub most: u64,
    pub downwards: bool,
}

/// Posts the lanes in an order, and advances the ledger after each.
///
/// # Errors
///
/// [`AllocError`] where there is no memory.
pub fn post_all(
    ledger: &mut Ledger,
    measured: &Measured<'_>,
    order: Order,
) -> Result<(), AllocError>
    requires { IsOf ledger.old measured.now }
    ensures { IsOf ledger.new measured.now }
{
    for _ in 0..order.rounds {
        post_round(ledger, measured, order)?;
    }
    Ok(())
}

// One round.
fn post_round(ledger: &mut Ledger, measured: &Measured<'_>, order: Order) -> Result<(), AllocError>
    requires { IsOf ledger.old measured.now }
    ensures { IsOf ledger.new measured.now }
{
    let count = measured.lanes();
    for index in 0..count {
        let lane = if order.downwards {
            count - 1 - index
        } else {
            index
        };
        post_some(ledger, measured, lane, order.most);
        advance(ledger, measured)?;
    }
    Ok(())
}
