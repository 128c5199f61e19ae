// Worked recordings through the ledger.
ghost use Rattle.std.specs.Prelude.{◌≡◌, ◌<◌};
ghost use Rattle.event_detect.specs.Threshold.{IsInOrder};

use crate::recordings::{
    HALVED_HALF_CYCLES, INTERVAL_OVER_TICK, MERGED_BY_START, SECOND_CHANNEL_IN_HYSTERESIS,
    THREE_CHANNEL_INTERRUPTION, TWO_INTERVALS, recording,
};
use crate::{Measured, Order, advance, post_all, post_some};
use event_detect::{Limits, Settings};
use interval_ledger::Ledger;
use pq_base::Recording;
use pq_items::Item;
use pq_sequence::sequence;
use std::alloc::Global;
use std::cmp::Ordering;
use std::process::Abort;
use std::test::Fail;

// More than any lane here has.
const ALL: u64 = 200;

// Lane by lane upwards, lane by lane downwards, and one item a lane in turn.
const ORDERS: [Order; 3] = [
    Order {
        rounds: 1,
        most: ALL,
        downwards: false,
    },
    Order {
        rounds: 1,
        most: ALL,
        downwards: true,
    },
    Order {
        rounds: ALL,
        most: 1,
        downwards: false,
    },
];

// 230 V with the usual thresholds.
fn usual(rt: &impl Abort) -> Limits
    ensures { IsInOrder result }
{
    let settings = Settings {
        udin_mv: 230_000,
        dip: 900,
        swell: 1100,
        interruption: 50,
        hysteresis: 20,
    };
    match Limits::of(&settings) {
        Ok(limits) => limits,
        Err(_) => panic!(rt; "the usual settings are sound"),
    }
}

// How many items the ledger of a recording has released after an order, if they are the first of these.
fn released(ledger: &Ledger, items: &[Item]) -> Option<usize> {
    let count = ledger.released();
    for (index, item) in items.iter().take(count).enumerate() {
        if ledger.item(index)?.compare(item) != Ordering::Equal {
            return None;
        }
    }
    Some(count)
}

// The same after all is posted in an order.
fn released_in(
    alloc: Global,
    recording: &Recording,
    limits: &Limits,
    order: Order,
    items: &[Item],
) -> Option<usize>
    requires { IsInOrder limits.now }
{
    let measured = Measured::of(alloc, recording).ok()?;
    let mut ledger = Ledger::open(alloc, recording, limits).ok()?;
    post_all(&mut ledger, &measured, order).ok()?;
    released(&ledger, items)
}

// The same after all values and readings of one channel, and so many of its windows one by one.
fn released_by_windows(
    alloc: Global,
    recording: &Recording,
    limits: &Limits,
    windows: u64,
    items: &[Item],
) -> Option<usize>
    requires { IsInOrder limits.now }
{
    let measured = Measured::of(alloc, recording).ok()?;
    let mut ledger = Ledger::open(alloc, recording, limits).ok()?;
    if measured.lanes() != 3 {
        return None;
    }
    post_some(&mut ledger, &measured, 0, ALL);
    post_some(&mut ledger, &measured, 2, ALL);
    for _ in 0..windows {
        post_some(&mut ledger, &measured, 1, 1);
        advance(&mut ledger, &measured).ok()?;
    }
    released(&ledger, items)
}

#[test]
fn orders_of_posting(rt: HostRuntime) -> Result<(), Fail> {
    let alloc = rt.alloc();
    let limits = usual(&rt);
    for (worked, count) in [
        (TWO_INTERVALS, 2),
        (INTERVAL_OVER_TICK, 5),
        (HALVED_HALF_CYCLES, 3),
        (SECOND_CHANNEL_IN_HYSTERESIS, 5),
        (MERGED_BY_START, 5),
        (THREE_CHANNEL_INTERRUPTION, 8),
    ] {
        let recording = recording(alloc, worked).ok_or("no recording")?;
        let items = sequence(alloc, &recording, &limits)
            .ok()
            .ok_or("no memory")?;
        assert_eq!(rt; items.len(), count);
        for order in ORDERS {
            let released = released_in(alloc, &recording, &limits, order, &items);
            assert_eq!(rt; released, Some(count));
        }
    }
    Ok(())
}

// Of one channel, whose next window begins at 264 after 20 windows, at 336 after 26 and at 504 after 40.
#[test]
fn ledger_of_halved_half_cycles(rt: HostRuntime) -> Result<(), Fail> {
    let alloc = rt.alloc();
    let limits = usual(&rt);
    let recording = recording(alloc, HALVED_HALF_CYCLES).ok_or("no recording")?;
    let items = sequence(alloc, &recording, &limits)
        .ok()
        .ok_or("no memory")?;
    for (windows, count) in [
        (0, 0),
        (19, 0),
        (20, 1),
        (25, 1),
        (26, 2),
        (39, 2),
        (40, 3),
        (42, 3),
    ] {
        let released = released_by_windows(alloc, &recording, &limits, windows, &items);
        assert_eq!(rt; released, Some(count));
    }
    Ok(())
}
