// Reports of a square of 230 V on one channel, which has three lanes, in threads.
ghost use Rattle.std.specs.Prelude.{◌≡◌, length, All, IfOk};
ghost use Rattle.event_detect.specs.Threshold.{IsInOrder};
ghost use Rattle.pq_base.specs.Recorded.{IsRecording};
ghost use Rattle.pq_words.specs.Magnitude.{IsWithin};

use crate::{lane_items, lane_report};
use event_detect::{Limits, Settings};
use lane_workers::OpenGate;
use pq_base::{MemSink, OutOfMemory, Recording};
use pq_words::MOST_MICROVOLTS;
use status_text::Status;
use std::alloc::{AllocError, Global};
use std::process::Abort;
use std::test::Fail;

// How many samples there are: of cycles from place 24 on, twenty are whole.
const SAMPLES: usize = 552;

const HEADER: &str = "kind,channel,start,end,from,to,tick,value,count,mark\n";

const ROWS: &str = "basic,1,24,264,2024-03-01T12:00:01.020000000Z,2024-03-01T12:00:01.220000000Z,\
    ,230000000,10,clear\n\
    basic,1,264,504,2024-03-01T12:00:01.220000000Z,2024-03-01T12:00:01.420000000Z,\
    ,230000000,10,clear\n";

// A square of 230 V, with cycles of 24 samples.
fn sample(place: usize) -> i64
    ensures { IsWithin MOST_MICROVOLTS result }
{
    if place % 24 < 12 {
        230_000_000
    } else {
        -230_000_000
    }
}

fn samples(alloc: Global, n: usize) -> Result<Vec<i64>, AllocError>
    ensures count { IfOk result (λ samples. length samples.items ≡ n) }
    ensures quiet { IfOk result (λ samples. All (IsWithin MOST_MICROVOLTS) samples.items) }
{
    let mut samples = Vec::with_capacity(alloc, n)?;
    for place in 0..n {
        samples.push(sample(place))?;
    }
    Ok(samples)
}

// These samples, at 1200 Hz and 50 Hz, from a second after noon of 1 March 2024 on.
fn square(alloc: Global) -> Result<Recording, AllocError>
    ensures { IfOk result IsRecording }
{
    let samples = vec![in alloc; samples(alloc, SAMPLES)?]?;
    let numbers = vec![in alloc; 1u32]?;
    Ok(Recording::new(
        1_709_294_401_000_000_000,
        1_200_000_000,
        50,
        numbers,
        0,
        samples,
    ))
}

// 230 V with the usual thresholds.
fn usual(rt: &impl Abort) -> Limits
    ensures { IsInOrder result }
{
    let settings = Settings {
        udin_mv: 230_000,
        dip: 900,
        swell: 1100,
        interruption: 50,
        hysteresis: 20,
    };
    match Limits::of(&settings) {
        Ok(limits) => limits,
        Err(_) => panic!(rt; "the usual settings are sound"),
    }
}

// A sink whose writes fail by a list.
fn sink(alloc: Global, fails: Vec<u64>) -> Result<MemSink, Fail> {
    match MemSink::new(alloc, 4096, fails, 4096) {
        Ok(sink) => Ok(sink),
        Err(OutOfMemory) => Err(Fail::from(AllocError)),
    }
}

#[test]
fn a_row_for_each_item(rt: HostRuntime) -> Result<(), Fail> {
    let alloc = rt.alloc();
    let recording = square(alloc)?;
    let mut out = sink(alloc, Vec::new(alloc))?;
    let status = lane_report(&rt, alloc, &recording, &usual(&rt), &mut out, &OpenGate);
    assert_eq!(rt; status, Status::Done);
    let (header, rows) = out.taken().split_at(HEADER.len().min(out.taken().len()));
    assert!(rt; header == HEADER.as_bytes(), "the header");
    assert!(rt; rows == ROWS.as_bytes(), "the rows");
    Ok(())
}

#[test]
fn a_failed_write_ends_the_report(rt: HostRuntime) -> Result<(), Fail> {
    let alloc = rt.alloc();
    let recording = square(alloc)?;
    let mut out = sink(alloc, vec![in alloc; 1u64]?)?;
    let status = lane_report(&rt, alloc, &recording, &usual(&rt), &mut out, &OpenGate);
    assert_eq!(rt; status, Status::WriteFault { faults: 1 });
    assert!(rt; out.taken() == HEADER.as_bytes(), "the header alone");
    Ok(())
}

#[test]
fn items_are_collected(rt: HostRuntime) -> Result<(), Fail> {
    let alloc = rt.alloc();
    let recording = square(alloc)?;
    let Ok(items) = lane_items(&rt, alloc, &recording, &usual(&rt), &OpenGate) else {
        return Err(Fail::from(AllocError));
    };
    assert_eq!(rt; items.len(), 2);
    assert_eq!(rt; items[0].end(), 264);
    assert_eq!(rt; items[1].end(), 504);
    Ok(())
}
