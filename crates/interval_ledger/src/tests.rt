// A ledger of a worked recording: 24 samples a cycle at 1200 Hz and 50 Hz.
ghost use Rattle.std.specs.Prelude.{◌≡◌, ◌≤◌, ◌<◌, length, All, IfOk};
ghost use Rattle.event_detect.specs.Threshold.{IsInOrder};
ghost use Rattle.interval_ledger.specs.Ledger.{count_of, view_of};
ghost use Rattle.lanes.specs.Lane.{windows_at};
ghost use Rattle.pq_base.specs.Recorded.{IsRecording};
ghost use Rattle.pq_words.specs.Magnitude.{IsWithin};

use crate::ledger::Ledger;
use crate::steps::Steps;
use event_detect::{Limits, Settings};
use half_cycle::Windows;
use lanes::LaneItem;
use pq_base::Recording;
use pq_sequence::recorded_rule;
use pq_words::MOST_MICROVOLTS;
use progress_words::Shared;
use std::alloc::{AllocError, Global};
use std::marker::Brand;
use std::process::Abort;
use std::sync::ledger::{Blank, Ledger as Tally};
use std::test::Fail;

// A square of 230 V, from noon of 1 March 2024 on.
fn square(alloc: Global, n: usize) -> Result<Recording, AllocError>
    requires { n ≤ 20_000 }
    ensures { IfOk result IsRecording }
{
    let samples = vec![in alloc; samples(alloc, n)?]?;
    let numbers = vec![in alloc; 1u32]?;
    Ok(Recording::new(
        1_709_294_400_000_000_000,
        1_200_000_000,
        50,
        numbers,
        0,
        samples,
    ))
}

fn samples(alloc: Global, n: usize) -> Result<Vec<i64>, AllocError>
    ensures count { IfOk result (λ samples. length samples.items ≡ n) }
    ensures quiet { IfOk result (λ samples. All (IsWithin MOST_MICROVOLTS) samples.items) }
{
    let mut samples = Vec::with_capacity(alloc, n)?;
    for place in 0..n {
        samples.push(if place % 24 < 12 {
            230_000_000
        } else {
            -230_000_000
        })?;
    }
    Ok(samples)
}

// 230 V with the usual thresholds.
fn usual(rt: &impl Abort) -> Limits
    ensures { IsInOrder result }
{
    let settings = Settings {
        udin_mv: 230_000,
        dip: 900,
        swell: 1100,
        interruption: 50,
        hysteresis: 20,
    };
    match Limits::of(&settings) {
        Ok(limits) => limits,
        Err(_) => panic!(rt; "the usual settings are sound"),
    }
}

// Posts the windows of the first channel: the items of lane 1.
fn post_windows(ledger: &mut Ledger, recording: &Recording)
    requires about { (view_of ledger.old).recording ≡ recording.now }
    requires none { count_of ledger.old 1 ≡ 0 }
    ensures about { (view_of ledger.new).recording ≡ recording.now }
    ensures all { count_of ledger.new 1 ≡ length (windows_at recording.now 0) }
{
    for window in Windows::new(recording.samples(0), recorded_rule(recording)) {
        ledger.post(1, LaneItem::Window(window));
    }
}

// An advance to place 0, which is within every reach.
fn advance_to_zero<L: Tally>(ledger: &mut Ledger, blank: Blank) -> Result<(), AllocError>
    requires name { blank.name ≡ L.name }
    requires parts { (blank.parts ≡ L.parts) × (0 < L.parts) }
    ensures { (view_of ledger.new).recording ≡ (view_of ledger.old).recording }
{
    let mut steps: Steps<L> = Steps::of(blank);
    ledger.advance(0, &mut steps)
}

#[test]
fn windows_are_posted(rt: HostRuntime) -> Result<(), Fail> {
    let alloc = rt.alloc();
    let limits = usual(&rt);
    let recording = square(alloc, 504)?;
    let mut ledger = Ledger::open(alloc, &recording, &limits)?;
    assert_eq!(rt; ledger.lanes(), 3);
    // Boundaries lie at places 24, 36 and so on to 492, and a window takes three of them.
    post_windows(&mut ledger, &recording);
    assert_eq!(rt; ledger.count(0), 0);
    assert_eq!(rt; ledger.count(1), 38);
    advance_to_zero::<Brand>(&mut ledger, Blank::new(1))?;
    assert_eq!(rt; ledger.mark(), 0);
    assert_eq!(rt; ledger.released(), 0);
    assert!(rt; ledger.item(0).is_none());
    Ok(())
}
