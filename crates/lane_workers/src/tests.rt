// Runs in threads, over a worked recording of one channel, which has three lanes.
ghost use Rattle.std.specs.Prelude.{◌≡◌, ◌≤◌, length, All, IfOk, IfSome, true};
ghost use Rattle.event_detect.specs.Threshold.{IsInOrder};
ghost use Rattle.pq_base.specs.Causes.{next_count};
ghost use Rattle.pq_base.specs.Recorded.{IsRecording};
ghost use Rattle.pq_words.specs.Magnitude.{IsWithin};

use crate::collector::Collector;
use crate::gate::OpenGate;
use crate::printer::{PrintFault, Printer};
use crate::ran::Ran;
use crate::run::run_lanes;
use event_detect::{Limits, Settings};
use pq_base::Recording;
use pq_items::Item;
use pq_sequence::sequence;
use pq_words::MOST_MICROVOLTS;
use query_session::{ChainOf, Next};
use std::alloc::{AllocError, Global};
use std::cmp::Ordering;
use std::process::Abort;
use std::test::Fail;

// How many samples there are, and how many items the printer that fails prints before it does.
const SAMPLES: usize = 14_424;

const PRINTED: usize = 5;

// A printer that has room for so many items, and fails at the next.
#[derive(Drop)]
struct FailsAfter {
    room: usize,
    items: Vec<Item>,
    faults: u64,
}

impl Printer for FailsAfter {
    type Made = ();

    ghost made = { λ _. tt };

    ghost printed = { λ p h. p.items.items ≡ h };

    ghost broke = { λ p h. p.items.items ≡ h };

    ghost count = { λ p. p.faults };

    ghost counts_each = { true };

    fn print(&mut self, items: &[Item]) -> Result<(), PrintFault> {
        let kept = self.room.min(items.len());
        if self.items.extend_from_slice(&items[..kept]).is_err() {
            return Err(PrintFault::OutOfMemory);
        }
        self.room -= kept;
        if kept < items.len() {
            self.faults = one_more(self.faults);
            return Err(PrintFault::Failed);
        }
        Ok(())
    }

    fn faults(&self) -> u64 {
        self.faults
    }
}

fn one_more(faults: u64) -> u64
    ensures { result ≡ next_count faults }
{
    faults.saturating_add(1)
}

// A square of 230 V, halved at places 264 to 311.
fn sample(place: usize) -> i64
    ensures { IsWithin MOST_MICROVOLTS result }
{
    let size = if 264 <= place && place < 312 {
        115_000_000
    } else {
        230_000_000
    };
    if place % 24 < 12 { size } else { -size }
}

fn samples(alloc: Global, n: usize) -> Result<Vec<i64>, AllocError>
    ensures count { IfOk result (λ samples. length samples.items ≡ n) }
    ensures quiet { IfOk result (λ samples. All (IsWithin MOST_MICROVOLTS) samples.items) }
{
    let mut samples = Vec::with_capacity(alloc, n)?;
    for place in 0..n {
        samples.push(sample(place))?;
    }
    Ok(samples)
}

// These samples, at 1200 Hz and 50 Hz, from noon of 1 March 2024 on.
fn dipped(alloc: Global) -> Result<Recording, AllocError>
    ensures { IfOk result IsRecording }
{
    let samples = vec![in alloc; samples(alloc, SAMPLES)?]?;
    let numbers = vec![in alloc; 1u32]?;
    Ok(Recording::new(
        1_709_294_400_000_000_000,
        1_200_000_000,
        50,
        numbers,
        0,
        samples,
    ))
}

// 230 V with the usual thresholds.
fn usual(rt: &impl Abort) -> Limits
    ensures { IsInOrder result }
{
    let settings = Settings {
        udin_mv: 230_000,
        dip: 900,
        swell: 1100,
        interruption: 50,
        hysteresis: 20,
    };
    match Limits::of(&settings) {
        Ok(limits) => limits,
        Err(_) => panic!(rt; "the usual settings are sound"),
    }
}

// Whether the items are the first of these.
fn begin(items: &[Item], all: &[Item]) -> bool {
    items.len() <= all.len()
        && items
            .iter()
            .zip(all.iter())
            .all(|(a, b)| a.compare(b) == Ordering::Equal)
}

#[test]
fn collected_is_the_sequential_result(rt: HostRuntime) -> Result<(), Fail> {
    let alloc = rt.alloc();
    let limits = usual(&rt);
    let recording = dipped(alloc)?;
    let Ok((chain, seats, mut session)) = ChainOf::open(alloc, &recording, &limits) else {
        return Err(Fail::from(AllocError));
    };
    let mut printer = Collector {
        items: Vec::new(alloc),
    };
    let ran = run_lanes(
        &rt,
        alloc,
        &chain,
        seats,
        &mut session,
        &OpenGate,
        &mut printer,
    );
    assert!(rt; matches!(ran, Ran::All), "all is printed");
    let Ok(result) = sequence(alloc, &recording, &limits) else {
        return Err(Fail::from(AllocError));
    };
    assert_eq!(rt; printer.items.len(), result.len());
    assert!(rt;
        begin(printer.items.as_slice(), result.as_slice()),
        "the sequential result"
    );
    assert!(rt;
        matches!(session.next(&chain), Next::End),
        "the session is at the end"
    );
    Ok(())
}

#[test]
fn a_failed_print_halts_the_chain(rt: HostRuntime) -> Result<(), Fail> {
    let alloc = rt.alloc();
    let limits = usual(&rt);
    let recording = dipped(alloc)?;
    let Ok((chain, seats, mut session)) = ChainOf::open(alloc, &recording, &limits) else {
        return Err(Fail::from(AllocError));
    };
    let mut printer = FailsAfter {
        room: PRINTED,
        items: Vec::new(alloc),
        faults: 0,
    };
    let ran = run_lanes(
        &rt,
        alloc,
        &chain,
        seats,
        &mut session,
        &OpenGate,
        &mut printer,
    );
    assert!(rt; matches!(ran, Ran::Failed), "the print failed");
    assert_eq!(rt; printer.faults(), 1);
    let Ok(result) = sequence(alloc, &recording, &limits) else {
        return Err(Fail::from(AllocError));
    };
    assert_eq!(rt; printer.items.len(), PRINTED);
    assert!(rt;
        begin(printer.items.as_slice(), result.as_slice()),
        "a front of the result"
    );
    assert!(rt;
        matches!(session.next(&chain), Next::Halted),
        "the chain is halted"
    );
    Ok(())
}
