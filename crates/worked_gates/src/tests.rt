// Runs under gates.
use crate::counting_sink::{CountingSink, Taken};
use crate::gates::{Meeting, Printed};
use crate::notes::{Due, Notes};
use lane_workers::Gate;
use pq_base::{MemShelf, OutOfMemory};
use pq_run::{Status, analyse};
use std::alloc::Global;
use std::sync::Wait;
use std::sync::atomic::{AtomicU64, Ordering};
use std::test::Fail;
use std::thread::Threads;
use worked_signals::{Signal, WORKED, Written, cfg, dat, strings};

// The samples of the sine, and the words that analyse it.
const SAMPLES: u32 = 24_024;

const WORDS: [&str; 5] = ["analyse", "--udin", "230000", "a.cfg", "a.dat"];

// kind,channel,start,end,from,to,tick,value,count,mark and a line end
const HEADER_BYTES: u64 = 53;

// The status of an analysis of the sine under a gate.
fn analyse_sine<R: Threads + Wait + Sync, G: Gate + Sync>(
    rt: &R,
    alloc: Global,
    taken: &Taken,
    gate: &G,
) -> Result<Status, OutOfMemory> {
    let cfg = cfg(
        alloc,
        Written {
            samples: SAMPLES,
            ..WORKED
        },
    )?;
    let dat = dat(alloc, &[Signal::Sine], SAMPLES)?;
    let mut files = Vec::new(alloc);
    files.push((String::from_str(alloc, "a.cfg")?, cfg))?;
    files.push((String::from_str(alloc, "a.dat")?, dat))?;
    let mut shelf = MemShelf::new(files, Vec::new(alloc), 65_536);
    let words = strings(alloc, &WORDS)?;
    let mut sink = CountingSink { taken };
    Ok(analyse(rt, alloc, &words, &mut shelf, &mut sink, gate))
}

// Neither lane could come through its first call alone. Each lane called with the words due, and no others.
#[test]
fn two_lanes_at_once(rt: HostRuntime) -> Result<(), Fail> {
    let taken = Taken::nothing();
    let gate = Meeting {
        notes: Notes::none(rt.alloc(), 3, Due::OfSine)?,
        gave_up: AtomicU64::new(0),
    };
    let status = analyse_sine(&rt, rt.alloc(), &taken, &gate)?;
    assert!(rt; matches!(status, Status::Done), "the analysis of the sine");
    assert_eq!(rt; gate.gave_up.load(Ordering::SeqCst), 0);
    assert_eq!(rt; gate.notes.wrong.load(Ordering::SeqCst), 0);
    for (lane, calls) in [(0, 2), (1, 32), (2, 1)] {
        assert_eq!(rt; gate.notes.calls_of(lane), calls);
        assert_eq!(rt; gate.notes.last_of(lane), 24_024);
    }
    Ok(())
}

#[test]
fn two_lanes_at_once_of_a_generated_recording(rt: HostRuntime) -> Result<(), Fail> {
    let taken = Taken::nothing();
    let gate = Meeting {
        notes: Notes::none(rt.alloc(), 7, Due::Any)?,
        gave_up: AtomicU64::new(0),
    };
    let words = strings(rt.alloc(), &["generate", "1"])?;
    let mut shelf = MemShelf::new(Vec::new(rt.alloc()), Vec::new(rt.alloc()), 1);
    let mut sink = CountingSink { taken: &taken };
    let status = analyse(&rt, rt.alloc(), &words, &mut shelf, &mut sink, &gate);
    assert!(rt; matches!(status, Status::Done), "the summary");
    assert_eq!(rt; gate.gave_up.load(Ordering::SeqCst), 0);
    assert_eq!(rt; gate.notes.wrong.load(Ordering::SeqCst), 0);
    for lane in 0..7 {
        assert!(rt; gate.notes.calls_of(lane) > 0, "lane {lane} has called");
        assert_eq!(rt; gate.notes.last_of(lane), 722_400);
    }
    Ok(())
}

// Of the sine 64 intervals of ten cycles and four of 150 end by 15,623, lane 0's word until its last raise.
#[test]
fn released_before_lanes_end(rt: HostRuntime) -> Result<(), Fail> {
    let taken = Taken::nothing();
    let gate = Printed {
        notes: Notes::none(rt.alloc(), 3, Due::OfSine)?,
        gave_up: AtomicU64::new(0),
        taken: &taken,
        header: HEADER_BYTES,
        last_word: 24_024,
        rows_then: AtomicU64::new(0),
    };
    let status = analyse_sine(&rt, rt.alloc(), &taken, &gate)?;
    assert!(rt; matches!(status, Status::Done), "the analysis of the sine");
    assert_eq!(rt; gate.gave_up.load(Ordering::SeqCst), 0);
    assert_eq!(rt; gate.notes.wrong.load(Ordering::SeqCst), 0);
    assert_eq!(rt; gate.notes.calls_of(0), 2);
    assert_eq!(rt; gate.notes.calls_of(1), 32);
    assert_eq!(rt; gate.notes.calls_of(2), 1);
    let rows_then = gate.rows_then.load(Ordering::SeqCst);
    assert!(rt;
        2 <= rows_then && rows_then <= 69,
        "{rows_then} rows before the last word of lane 0"
    );

    // The header, 99 intervals of ten cycles, 6 of 150, and the reading of the ten seconds between the two
    // ticks.
    assert_eq!(rt; taken.rows.load(Ordering::SeqCst), 107);
    Ok(())
}
