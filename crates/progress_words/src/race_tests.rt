// Two threads, one that raises and one that reads, a million times each.
ghost use Rattle.std.specs.Prelude.{◌≡◌, ◌≤◌, ◌<◌, ◌+◌, ℕ, None};
ghost use Rattle.progress_words.specs.Words.{lane_view, read_view, lane_of, IsLaneOf, IsReaderOf, lanes_of};

use crate::answer::{Closed, Take};
use crate::out_of_memory::OutOfMemory;
use crate::pass::{LanePass, ReadPass, Words};
use crate::tests::Two;
use std::thread;

const TIMES: u64 = 1_000_000;

#[test]
fn a_million_raises_and_reads(rt: HostRuntime) -> Result<(), OutOfMemory> {
    let two = Two {
        first: 0,
        second: 9,
    };
    let (words, mut lanes, reader) = Words::open(rt.alloc(), two)?;
    lanes.pop().expect(&rt, "two lanes");
    let mut lane = lanes.pop().expect(&rt, "two lanes");
    let (last, (mut reader, in_order)) = thread::join(
        &rt,
        || raise_all(&words, &mut lane),
        || read_all(&words, reader),
    );
    assert!(rt; in_order, "no word fell, and the value reached as far");
    assert_eq!(rt; words.load(&mut reader, 0), last);
    let Closed::Value(two) = words.close() else {
        panic!(rt; "both gave the turn back")
    };
    assert_eq!(rt; two.first, last);
    Ok(())
}

// Raises the word of lane 0 again and again to its reach, which rises by 1 where the turn is free.
// Gives the last word.
fn raise_all(words: &Words<Two>, pass: &mut LanePass<Two>) -> u64
    requires mine { IsLaneOf words.now pass.old }
    requires idle { (lane_view pass.old).held_value ≡ None }
    requires lane { (lane_of pass.old).lane ≡ 0 }
    requires word { (lane_of pass.old).word ≡ 0 }
    requires reach { (lane_of pass.old).reach_given ≡ 0 }
    ensures { result ≤ TIMES }
{
    let mut reach = 0;
    for time in 0..TIMES {
        reach = extend(words, pass, reach);
        words.raise(pass, reach);
    }
    reach
}

// Tries the turn once. Where it is free, the value reaches one further in lane 0. Gives the reach.
fn extend(words: &Words<Two>, pass: &mut LanePass<Two>, reach: u64) -> u64
    requires mine { IsLaneOf words.now pass.old }
    requires idle { (lane_view pass.old).held_value ≡ None }
    requires lane { (lane_of pass.old).lane ≡ 0 }
    requires reach { (lane_of pass.old).reach_given ≡ reach }
    requires room { reach < TIMES }
    ensures mine { IsLaneOf words.now pass.new }
    ensures idle { (lane_view pass.new).held_value ≡ None }
    ensures lane { (lane_of pass.new).lane ≡ 0 }
    ensures word { (lane_of pass.new).word ≡ (lane_of pass.old).word }
    ensures reach { (lane_of pass.new).reach_given ≡ result }
    ensures least { reach ≤ result }
    ensures most { result ≤ reach + 1 }
{
    let Take::Held(two) = words.take_lane(pass) else {
        return reach;
    };
    let two = Two {
        first: two.first + 1,
        second: two.second,
    };
    let reach = two.first;
    words.give_lane(pass, two);
    reach
}

// Loads the word of lane 0 again and again, and tries the turn each time. Gives whether no word was
// less than the one before it, and no value reached less far.
fn read_all(words: &Words<Two>, mut pass: ReadPass<Two>) -> (ReadPass<Two>, bool)
    requires mine { IsReaderOf words.now pass }
    requires idle { (read_view pass).held_value ≡ None }
    requires lanes { lanes_of words.now ≡ 2 }
    ensures { IsReaderOf words.now result.0 }
{
    let mut last = 0;
    let mut in_order = true;
    for _ in 0..TIMES {
        let word = words.load(&mut pass, 0);
        in_order = in_order && last <= word && is_reached(words, &mut pass, word);
        last = word;
    }
    (pass, in_order)
}

// Tries the turn once. Whether a value that it finds reaches at least so far in lane 0.
fn is_reached(words: &Words<Two>, pass: &mut ReadPass<Two>, word: u64) -> bool
    requires mine { IsReaderOf words.now pass.old }
    requires idle { (read_view pass.old).held_value ≡ None }
    ensures mine { IsReaderOf words.now pass.new }
    ensures idle { (read_view pass.new).held_value ≡ None }
{
    let Take::Held(two) = words.take_reader(pass) else {
        return true;
    };
    let first = two.first;
    words.give_reader(pass, two);
    word <= first
}
