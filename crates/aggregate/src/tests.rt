use crate::short::ShortSums;
use crate::*;
use pq_time::Clock;
use std::alloc::Global;
use std::test::Fail;
use ten_twelve::Span;

// Values of a cycle of a sine, and of one of which a half-cycle is halved.
const WHOLE: u64 = 229_805_362;

const HALVED: u64 = 211_869_380;

// An interval of one channel: start, end, flag and value.
type Row = (u64, u64, bool, u64);

// What so many basic intervals of 240 samples complete, one after another from place 24 on. Segments begin at
// the fronts; the first two are flagged, and the second is halved.
fn shorts(alloc: Global, fronts: &[u64], count: u8) -> Result<Vec<Row>, Fail> {
    let mut sums = ShortSums::new(1);
    let mut rows = Vec::new(alloc);
    for k in 0..u64::from(count) {
        let start = 24 + 240 * k;
        let span = Span {
            start,
            end: start + 240,
        };
        let value = if k == 1 { HALVED } else { WHOLE };
        let front = fronts.contains(&k);
        if let Some(group) = sums.step(span, front, &[value], k < 2) {
            rows.push((group.start, group.end, group.flagged, group.values[0]))?;
        }
    }
    Ok(rows)
}

#[test]
fn fifteen_basic_intervals(rt: HostRuntime) -> Result<(), Fail> {
    let first: Row = (24, 3624, true, 228_653_405);
    let none: [Row; 0] = [];
    let again: [Row; 2] = [first, (3624, 7224, false, WHOLE)];
    let over_a_front: [Row; 2] = [first, (2424, 6024, false, WHOLE)];
    let over_two: [Row; 3] = [
        first,
        (1224, 4824, false, WHOLE),
        (1944, 5544, false, WHOLE),
    ];
    let alloc = rt.alloc();
    assert!(rt; shorts(alloc, &[0], 14)?.as_slice() == none.as_slice());
    assert!(rt; shorts(alloc, &[0], 17)?.as_slice() == [first].as_slice());
    assert!(rt; shorts(alloc, &[0], 30)?.as_slice() == again.as_slice());
    assert!(rt; shorts(alloc, &[0, 10], 26)?.as_slice() == over_a_front.as_slice());
    assert!(rt; shorts(alloc, &[0, 5, 8], 23)?.as_slice() == over_two.as_slice());
    Ok(())
}

// 800 samples a second from a tick on; the second ten minutes end with the recording.
#[test]
fn twice_ten_minutes(rt: HostRuntime) -> Result<(), Fail> {
    let clock = Clock {
        t0: 0,
        rate: 800_000_000,
    };
    let mut aggregator = Aggregator::new(clock, 960_000, 1);
    let span = Span {
        start: 0,
        end: 480_000,
    };
    let first = aggregator.step(span, true, &[WHOLE], false);
    let span = Span {
        start: 480_000,
        end: 960_000,
    };
    let second = aggregator.step(span, true, &[HALVED], true);
    let first = first.ten.ok_or("no interval")?;
    let second = second.ten.ok_or("no interval")?;
    assert!(rt; first.tick == Some(0) && first.start == 0 && first.end == 480_000);
    assert!(rt; first.count == 1 && !first.flagged && first.values[0] == WHOLE);
    assert!(rt; second.tick == Some(600) && second.start == 480_000 && second.end == 960_000);
    assert!(rt; second.count == 1 && second.flagged && second.values[0] == HALVED);
    Ok(())
}
