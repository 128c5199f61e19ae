ghost use Rattle.std.specs.Prelude.{◌<◌};

use crate::*;
use std::alloc::Global;
use std::process::Abort;
use std::test::Fail;

// What a detector is fed at once: whether it begins and ends an event, its channel and its window.
type Condition = (bool, bool, u32, Window);

// A window of 24 samples.
fn condition(begins: bool, ends: bool, start: u64, channel: u32, value: u64) -> Condition
    requires { start < 1000 }
{
    let end = start + 24;
    (begins, ends, channel, Window { start, end, value })
}

fn event(kind: Kind, start: u64, end: u64, channel: u32, value: u64, is_open: bool) -> Event {
    Event {
        kind,
        start,
        end,
        channel,
        value,
        is_open,
    }
}

// What a detector gives over the conditions, finished at place 100.
fn given(
    rt: &impl Abort,
    alloc: Global,
    kind: Kind,
    conditions: &[Condition],
) -> Result<Vec<Event>, Fail> {
    let mut detector = Detector::new(kind);
    let mut events = Vec::new(alloc);
    for (begins, ends, channel, window) in conditions {
        assert!(rt; !(*begins && *ends));
        if let Some(event) = detector.step(*begins, *ends, *channel, *window) {
            events.push(event)?;
        }
    }
    if let Some(event) = detector.finish(100) {
        events.push(event)?;
    }
    assert_eq!(rt; detector.running(), None);
    Ok(events)
}

#[test]
fn events_of_worked_lists(rt: HostRuntime) -> Result<(), Fail> {
    let never_ends = [
        condition(false, false, 0, 0, 230),
        condition(true, false, 12, 0, 200),
        condition(false, false, 24, 0, 210),
        condition(false, false, 36, 1, 190),
    ];
    let ends_next = [
        condition(true, false, 0, 0, 10),
        condition(false, true, 12, 2, 5),
        condition(false, false, 24, 0, 1),
    ];
    let two_in_a_row = [
        condition(true, false, 0, 0, 200),
        condition(false, true, 12, 0, 230),
        condition(true, false, 24, 0, 190),
        condition(false, true, 36, 0, 230),
    ];
    let last_window = [
        condition(false, false, 0, 0, 230),
        condition(true, false, 12, 3, 260),
    ];
    let never_begins = [
        condition(false, true, 0, 0, 230),
        condition(false, true, 12, 0, 230),
    ];
    let rows: [(Kind, &[Condition], &[Event]); 6] = [
        (Kind::Dip, &[], &[]),
        (
            Kind::Dip,
            &never_ends,
            &[event(Kind::Dip, 12, 100, 1, 190, true)],
        ),
        (
            Kind::Interruption,
            &ends_next,
            &[event(Kind::Interruption, 0, 36, 2, 5, false)],
        ),
        (
            Kind::Dip,
            &two_in_a_row,
            &[
                event(Kind::Dip, 0, 36, 0, 200, false),
                event(Kind::Dip, 24, 60, 0, 190, false),
            ],
        ),
        (
            Kind::Swell,
            &last_window,
            &[event(Kind::Swell, 12, 100, 3, 260, true)],
        ),
        (Kind::Dip, &never_begins, &[]),
    ];
    for (kind, conditions, events) in rows {
        let found = given(&rt, rt.alloc(), kind, conditions)?;
        assert!(rt; found.as_slice() == events);
    }
    Ok(())
}

#[test]
fn threshold_edges(rt: HostRuntime) -> Result<(), Fail> {
    let usual = Settings {
        udin_mv: 230_000,
        dip: 900,
        swell: 1100,
        interruption: 50,
        hysteresis: 20,
    };
    let limits = Limits::of(&usual).ok().ok_or("refused")?;
    assert_eq!(rt; limits.interruption_end, 16_100_000);
    assert!(rt; !classify(&limits, 207_000_000).below_dip);
    assert!(rt; classify(&limits, 206_980_000).below_dip);
    assert!(rt; classify(&limits, 211_600_000).clear_dip);
    let none = Settings {
        hysteresis: 0,
        ..usual
    };
    assert!(rt; Limits::of(&none).is_err());
    Ok(())
}
