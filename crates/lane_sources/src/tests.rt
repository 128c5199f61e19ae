// Worked lanes, by hand: a sine of 24 samples a cycle at 1200 Hz and 50 Hz.
ghost use Rattle.std.specs.Prelude.{◌≡◌, ◌≤◌, length, All, IfOk};
ghost use Rattle.pq_words.specs.Magnitude.{IsWithin};

use crate::LaneSources;
use event_detect::Window;
use freq10s::Reading;
use lanes::LaneItem;
use pq_base::Recording;
use pq_words::{MOST_MICROVOLTS, MOST_NANOSECONDS};
use std::alloc::{AllocError, Global};
use std::test::Fail;

// Counts of a sine, of 0.0325 V each.
const CYCLE: [i16; 24] = [
    0, 2588, 5000, 7071, 8660, 9659, 10000, 9659, 8660, 7071, 5000, 2588, 0, -2588, -5000, -7071,
    -8660, -9659, -10000, -9659, -8660, -7071, -5000, -2588,
];

// Its root over whole cycles, in microvolts.
const ROOT: u64 = 229_805_362;

fn samples(alloc: Global, n: usize) -> Result<Vec<i64>, AllocError>
    ensures count { IfOk result (λ samples. length samples.items ≡ n) }
    ensures quiet { IfOk result (λ samples. All (IsWithin MOST_MICROVOLTS) samples.items) }
{
    let mut samples = Vec::with_capacity(alloc, n)?;
    for place in 0..n {
        samples.push(i64::from(CYCLE[place % 24]) * 32_500)?;
    }
    Ok(samples)
}

// So many milliseconds after noon of 1 March 2024.
fn moment(milliseconds: i16) -> i64
    ensures { IsWithin MOST_NANOSECONDS result }
{
    1_709_294_400_000_000_000 + i64::from(milliseconds) * 1_000_000
}

// A recording of channel 1, from so many milliseconds after noon.
fn sine(alloc: Global, milliseconds: i16, n: usize) -> Result<Recording, AllocError>
    requires { n ≤ 20_000 }
{
    let samples = vec![in alloc; samples(alloc, n)?]?;
    let numbers = vec![in alloc; 1u32]?;
    Ok(Recording::new(moment(milliseconds), 1_200_000_000, 50, numbers, 0, samples))
}

// A source may go to another thread.
fn sent<T: Send>(source: T) -> T {
    source
}

fn is_value(item: Option<LaneItem>, from: u64, to: u64) -> bool {
    matches!(item, Some(LaneItem::Value { start, end, value }) if start == from && end == to && value == ROOT)
}

fn is_window(item: Option<LaneItem>, from: u64, to: u64) -> bool {
    matches!(
        item,
        Some(LaneItem::Window(Window { start, end, value })) if start == from && end == to && value == ROOT
    )
}

#[test]
fn lanes_of_two_intervals(rt: HostRuntime) -> Result<(), Fail> {
    let alloc = rt.alloc();
    let recording = sine(alloc, 1000, 552)?;
    let sources = LaneSources::new(alloc, &recording)?;
    let mut values = sent(sources.open(alloc, 0)?);
    assert!(rt; is_value(values.next(), 24, 264));
    assert!(rt; is_value(values.next(), 264, 504));
    assert!(rt; values.next().is_none());
    let mut windows = sources.open(alloc, 1)?;
    for half in 0..42 {
        assert!(rt; is_window(windows.next(), 24 + 12 * half, 48 + 12 * half));
    }
    assert!(rt; windows.next().is_none());
    let mut readings = sources.open(alloc, 2)?;
    assert!(rt; readings.next().is_none());
    Ok(())
}

#[test]
fn values_over_a_tick(rt: HostRuntime) -> Result<(), Fail> {
    let alloc = rt.alloc();
    // Noon is at place 594, and the first cycle boundary after it at 600.
    let recording = sine(alloc, -495, 1200)?;
    let mut values = LaneSources::new(alloc, &recording)?.open(alloc, 0)?;
    let spans: [(u64, u64); 5] = [(24, 264), (264, 504), (504, 744), (600, 840), (840, 1080)];
    for (start, end) in spans {
        assert!(rt; is_value(values.next(), start, end));
    }
    assert!(rt; values.next().is_none());
    Ok(())
}

#[test]
fn reading_of_ten_seconds(rt: HostRuntime) -> Result<(), Fail> {
    let alloc = rt.alloc();
    let recording = sine(alloc, 9995, 12_006)?;
    let mut readings = LaneSources::new(alloc, &recording)?.open(alloc, 2)?;
    let Some(
        LaneItem::Reading(
            Reading {
                tick,
                start,
                end,
                cycles,
                microhertz,
                ..
            },
        ),
    ) = readings.next()
    else {
        return Err(Fail::from("no reading"));
    };
    assert_eq!(rt; tick, 1_709_294_410);
    assert!(rt; start == 6 && end == 12_006 && cycles == 499);
    assert_eq!(rt; microhertz, 50_000_000);
    assert!(rt; readings.next().is_none());
    Ok(())
}
