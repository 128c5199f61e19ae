// A chain on one thread answers as the core does.
ghost use Rattle.event_detect.specs.Threshold.{IsInOrder};
ghost use Rattle.query_session.specs.Chain.{AreReady};
ghost use Rattle.query_session.specs.Session.{IsIdle, IsSessionOf};

use crate::recordings::recording;
use crate::{ChainDriver, CoreDriver, Reply};
use chain_core::{Measurement, measure};
use event_detect::{Limits, Settings};
use interval_ledger::Ledger;
use pq_base::Recording;
use pq_items::Item;
use pq_replay::{Line, read_schedule};
use pq_sequence::sequence;
use progress_words::Closed;
use query_session::{Chain, ChainOf, LaneSeat, Session};
use std::alloc::Global;
use std::process::Abort;
use std::test::Fail;

// The lanes of a recording of one channel.
const LANES: u32 = 3;

const WITHHELD_THEN_GIVEN: &str =
    "step 0 64\nstep 2 64\nstep 1 19\nquery 0\nstep 1 1\nquery 0\nquery 0\n\
    step 1 64\nquery 0\nquery 0\n";

const SPLIT_AND_BUSY: &str = "step 0 64\nstep 1 64\nstep 2 64\nquery 0\nsplit 0\ntake 1\nquery 1\n\
    post 1 1\nquery 1\nquery 0\nraise 1\nquery 1\nquery 1\n";

const LOOK_GRAB_HALT: &str =
    "look 0\nstep 0 64\nstep 1 64\nstep 2 64\ngrab 0\ntake 1\nread 0\nhalt 0\n\
    step 0 1\nquery 0\n";

// Schedules over two_intervals or, where the flag is set, over halved_half_cycles, and the answer to each
// line.
const SCHEDULES: [(bool, &str, &[Reply]); 3] = [
    (
        false,
        WITHHELD_THEN_GIVEN,
        &[
            Reply::Stepped(2, 552, true),
            Reply::Stepped(0, 552, true),
            Reply::Stepped(19, 252, false),
            Reply::Withheld(1, 252),
            Reply::Stepped(1, 264, false),
            Reply::Item(0),
            Reply::Withheld(1, 264),
            Reply::Stepped(22, 552, true),
            Reply::Item(1),
            Reply::End,
        ],
    ),
    (
        true,
        SPLIT_AND_BUSY,
        &[
            Reply::Stepped(2, 552, true),
            Reply::Stepped(42, 552, true),
            Reply::Stepped(0, 552, true),
            Reply::Item(0),
            Reply::Split(1),
            Reply::Held,
            Reply::Busy(2),
            Reply::Posted(0),
            Reply::Item(1),
            Reply::Item(1),
            Reply::Raised(552, true),
            Reply::Item(2),
            Reply::End,
        ],
    ),
    (
        false,
        LOOK_GRAB_HALT,
        &[
            Reply::Seen(0, 0),
            Reply::Stepped(2, 552, true),
            Reply::Stepped(42, 552, true),
            Reply::Stepped(0, 552, true),
            Reply::Held,
            Reply::Busy(4),
            Reply::Withheld(0, 0),
            Reply::Stopped,
            Reply::Halted,
            Reply::Halted,
        ],
    ),
];

// Lines of which most are not allowed, and the answer to each.
const NOT_ALLOWED: [(Line, Reply); 22] = [
    (Line::Post { lane: 0, most: 1 }, Reply::NotAllowed),
    (Line::Raise { lane: 0 }, Reply::NotAllowed),
    (Line::Take { lane: 3 }, Reply::NotAllowed),
    (Line::Grab { session: 0 }, Reply::NotAllowed),
    (Line::Read { session: 0 }, Reply::NotAllowed),
    (Line::Query { session: 1 }, Reply::NotAllowed),
    (Line::Split { session: 1 }, Reply::NotAllowed),
    (Line::Take { lane: 0 }, Reply::Held),
    (Line::Take { lane: 0 }, Reply::NotAllowed),
    (Line::Step { lane: 0, most: 1 }, Reply::NotAllowed),
    (Line::Post { lane: 0, most: 0 }, Reply::NotAllowed),
    (Line::Post { lane: 0, most: 65 }, Reply::NotAllowed),
    (Line::Look { session: 0 }, Reply::Seen(0, 0)),
    (Line::Look { session: 0 }, Reply::NotAllowed),
    (Line::Query { session: 0 }, Reply::NotAllowed),
    (Line::Split { session: 0 }, Reply::NotAllowed),
    (Line::Halt { session: 0 }, Reply::NotAllowed),
    (Line::Grab { session: 0 }, Reply::Busy(1)),
    (Line::Post { lane: 0, most: 64 }, Reply::Posted(2)),
    (Line::Post { lane: 0, most: 1 }, Reply::NotAllowed),
    (Line::Step { lane: 0, most: 1 }, Reply::NotAllowed),
    (Line::Raise { lane: 0 }, Reply::Raised(552, true)),
];

// 230 V with the usual thresholds.
fn usual(rt: &impl Abort) -> Limits
    ensures { IsInOrder result }
{
    let settings = Settings {
        udin_mv: 230_000,
        dip: 900,
        swell: 1100,
        interruption: 50,
        hysteresis: 20,
    };
    match Limits::of(&settings) {
        Ok(limits) => limits,
        Err(_) => panic!(rt; "the usual settings are sound"),
    }
}

// What a chain answers to lines, and what is left of it.
fn chain_replies(
    alloc: Global,
    recording: &Recording,
    limits: &Limits,
    items: &[Item],
    lines: &[Line],
) -> Option<(Vec<Reply>, Closed<Ledger>)>
    requires { IsInOrder limits.now }
{
    let (chain, seats, session) = ChainOf::open(alloc, recording, limits).ok()?;
    let replies = driven(alloc, &chain, seats, session, items, lines)?;
    Some((replies, chain.close()))
}

fn driven(
    alloc: Global,
    chain: &Chain,
    seats: Vec<LaneSeat<'_>>,
    session: Session,
    items: &[Item],
    lines: &[Line],
) -> Option<Vec<Reply>>
    requires seats { AreReady chain.now seats.items }
    requires mine { IsSessionOf chain.now session }
    requires idle { IsIdle session }
{
    let mut driver = ChainDriver::of(alloc, chain, seats, session).ok()?;
    let mut replies = Vec::new(alloc);
    for line in lines {
        let reply = driver.run(chain, items, *line).ok()?;
        replies.push(reply).ok()?;
    }
    Some(replies)
}

// What the core answers to lines.
fn core_replies(
    alloc: Global,
    measurement: &Measurement,
    items: &[Item],
    lines: &[Line],
) -> Option<Vec<Reply>> {
    let mut driver = CoreDriver::new(alloc, measurement, items, LANES).ok()?;
    let mut replies = Vec::new(alloc);
    for line in lines {
        let reply = driver.run(alloc, *line).ok()?;
        replies.push(reply).ok()?;
    }
    Some(replies)
}

// How many items a ledger has released, if they are the first of these.
fn released(ledger: &Ledger, items: &[Item]) -> Option<u64> {
    let count = ledger.released();
    for index in 0..count {
        let item = ledger.item(index)?;
        if Reply::item(items, &item) != Reply::Item(index as u64) {
            return None;
        }
    }
    Some(count as u64)
}

#[test]
fn chain_as_core(rt: HostRuntime) -> Result<(), Fail> {
    let alloc = rt.alloc();
    let limits = usual(&rt);
    for (halved, schedule, wanted) in SCHEDULES {
        let recording = recording(alloc, halved)?;
        let measurement = measure(alloc, &recording, &limits)
            .ok()
            .ok_or("not measured")?;
        let items = sequence(alloc, &recording, &limits)
            .ok()
            .ok_or("no memory")?;
        let lines = read_schedule(alloc, schedule.as_bytes(), LANES)
            .ok()
            .ok_or("not read")?;
        let (replies, _) = chain_replies(alloc, &recording, &limits, &items, &lines).ok_or(
            "no chain",
        )?;
        let of_core = core_replies(alloc, &measurement, &items, &lines).ok_or("no core")?;
        assert!(rt; replies.as_slice() == wanted, "{schedule}");
        assert!(rt; of_core.as_slice() == wanted, "{schedule}");
    }
    Ok(())
}

#[test]
fn lines_not_allowed(rt: HostRuntime) -> Result<(), Fail> {
    let alloc = rt.alloc();
    let limits = usual(&rt);
    let recording = recording(alloc, false)?;
    let measurement = measure(alloc, &recording, &limits)
        .ok()
        .ok_or("not measured")?;
    let lines = NOT_ALLOWED.map(|pair| pair.0);
    let (replies, _) = chain_replies(alloc, &recording, &limits, &[], &lines).ok_or("no chain")?;
    let of_core = core_replies(alloc, &measurement, &[], &lines).ok_or("no core")?;
    for (index, (_, wanted)) in NOT_ALLOWED.iter().enumerate() {
        assert!(rt; replies.get(index) == Some(wanted), "line {index}");
        assert!(rt; of_core.get(index) == Some(wanted), "line {index}");
    }
    Ok(())
}

// A schedule over two_intervals of which so many lines are run, and what is left of the chain: how many items
// its ledger has released, or the turn word.
const CLOSED: [(&str, usize, Result<u64, u64>); 4] = [
    (WITHHELD_THEN_GIVEN, 10, Ok(2)),
    (LOOK_GRAB_HALT, 4, Ok(0)),
    (LOOK_GRAB_HALT, 5, Err(4)),
    (LOOK_GRAB_HALT, 7, Ok(0)),
];

#[test]
fn closed_chains(rt: HostRuntime) -> Result<(), Fail> {
    let alloc = rt.alloc();
    let limits = usual(&rt);
    let recording = recording(alloc, false)?;
    let items = sequence(alloc, &recording, &limits)
        .ok()
        .ok_or("no memory")?;
    for (schedule, count, wanted) in CLOSED {
        let mut lines = read_schedule(alloc, schedule.as_bytes(), LANES)
            .ok()
            .ok_or("not read")?;
        lines.truncate(count);
        let (_, closed) = chain_replies(alloc, &recording, &limits, &items, &lines).ok_or(
            "no chain",
        )?;
        let left = match closed {
            Closed::Value(ledger) => Ok(released(&ledger, &items).ok_or("another result")?),
            Closed::Held(word) => Err(word),
        };
        assert!(rt; left == wanted, "{schedule} {count}");
    }
    Ok(())
}
