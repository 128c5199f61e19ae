// Worked lists of steps over a recording, by hand: 24 samples a cycle at 1200 Hz and 50 Hz.
ghost use Rattle.std.specs.Prelude.{◌≡◌, ◌≤◌, length, All, IfOk};
ghost use Rattle.event_detect.specs.Threshold.{IsInOrder};
ghost use Rattle.pq_words.specs.Magnitude.{IsWithin};

use chain_core::{Answer, PlayFault, Step, play};
use event_detect::{Limits, Settings};
use pq_base::Recording;
use pq_items::Item;
use pq_words::MOST_MICROVOLTS;
use std::alloc::{AllocError, Global};
use std::cmp::Ordering;
use std::process::Abort;
use std::test::Fail;

const CYCLE: [i16; 24] = [
    0, 2588, 5000, 7071, 8660, 9659, 10000, 9659, 8660, 7071, 5000, 2588, 0, -2588, -5000, -7071,
    -8660, -9659, -10000, -9659, -8660, -7071, -5000, -2588,
];

// A sine of 10,000 counts at 0.0325 V.
fn sample(place: usize) -> i64
    ensures { IsWithin MOST_MICROVOLTS result }
{
    i64::from(CYCLE[place % 24]) * 32_500
}

// n samples of it, in microvolts.
fn samples(alloc: Global, n: usize) -> Result<Vec<i64>, AllocError>
    ensures count { IfOk result (λ samples. length samples.items ≡ n) }
    ensures quiet { IfOk result (λ samples. All (IsWithin MOST_MICROVOLTS) samples.items) }
{
    let mut samples = Vec::with_capacity(alloc, n)?;
    for place in 0..n {
        samples.push(sample(place))?;
    }
    Ok(samples)
}

// Two basic intervals of channel 1, from a second after noon of 1 March 2024.
fn two_intervals(alloc: Global) -> Result<Recording, AllocError> {
    let samples = vec![in alloc; samples(alloc, 552)?]?;
    let numbers = vec![in alloc; 1u32]?;
    Ok(Recording::new(
        1_709_294_401_000_000_000,
        1_200_000_000,
        50,
        numbers,
        0,
        samples,
    ))
}

// 230 V with the usual thresholds.
fn usual(rt: &impl Abort) -> Limits
    ensures { IsInOrder result }
{
    let settings = Settings {
        udin_mv: 230_000,
        dip: 900,
        swell: 1100,
        interruption: 50,
        hysteresis: 20,
    };
    match Limits::of(&settings) {
        Ok(limits) => limits,
        Err(_) => panic!(rt; "the usual settings are sound"),
    }
}

const FIRST: Item = Item::Basic {
    channel: 1,
    start: 24,
    end: 264,
    cycles: 10,
    value: 229_805_362,
    flagged: false,
};

// Steps of session 0 and of lanes.
macro_rules! take {
    ($lane:literal) => {
        Step::Take { lane: $lane }
    };
}

macro_rules! post {
    ($lane:literal, $most:literal) => {
        Step::Post { lane: $lane, most: $most }
    };
}

macro_rules! raise {
    ($lane:literal) => {
        Step::Raise { lane: $lane }
    };
}

macro_rules! load {
    ($lane:literal) => {
        Step::Load { session: 0, lane: $lane }
    };
}

const LOOK: Step = Step::LoadStop { session: 0 };

const GRAB: Step = Step::Grab { session: 0 };

const READ: Step = Step::Read { session: 0 };

// Their answers.
macro_rules! posted {
    ($count:literal) => {
        Answer::Posted { count: $count }
    };
}

macro_rules! raised {
    ($word:literal, $done:literal) => {
        Answer::Raised { word: $word, done: $done }
    };
}

macro_rules! loaded {
    ($word:literal) => {
        Answer::Loaded { word: $word }
    };
}

macro_rules! withheld {
    ($lane:literal, $word:literal) => {
        Answer::Withheld { lane: $lane, word: $word }
    };
}

const HELD: Answer = Answer::Held;

const RUNNING: Answer = Answer::Running;

// withheld_then_given
const WITHHELD_THEN_GIVEN: [Step; 24] = [
    take!(0),
    post!(0, 64),
    raise!(0),
    take!(2),
    post!(2, 64),
    raise!(2),
    take!(1),
    post!(1, 19),
    raise!(1),
    LOOK,
    load!(0),
    load!(1),
    load!(2),
    GRAB,
    READ,
    take!(1),
    post!(1, 1),
    raise!(1),
    LOOK,
    load!(2),
    load!(1),
    load!(0),
    GRAB,
    READ,
];

const WITHHELD_AND_GIVEN: [Answer; 24] = [
    HELD,
    posted!(2),
    raised!(552, true),
    HELD,
    posted!(0),
    raised!(552, true),
    HELD,
    posted!(19),
    raised!(252, false),
    RUNNING,
    loaded!(552),
    loaded!(252),
    loaded!(552),
    HELD,
    withheld!(1, 252),
    HELD,
    posted!(1),
    raised!(264, false),
    RUNNING,
    loaded!(552),
    loaded!(264),
    loaded!(552),
    HELD,
    Answer::Item(FIRST),
];

// core_steps_beyond_schedules
const CORE_STEPS_BEYOND_SCHEDULES: [Step; 10] = [
    LOOK,
    load!(0),
    take!(0),
    post!(0, 64),
    raise!(0),
    load!(1),
    load!(0),
    load!(2),
    GRAB,
    READ,
];

const WITHHELD_BY_OLD_WORDS: [Answer; 10] = [
    RUNNING,
    loaded!(0),
    HELD,
    posted!(2),
    raised!(552, true),
    loaded!(0),
    loaded!(552),
    loaded!(0),
    HELD,
    withheld!(1, 0),
];

// The same without the load of lane 2.
const WITHOUT_A_LOAD: [Step; 9] = [
    LOOK,
    load!(0),
    take!(0),
    post!(0, 64),
    raise!(0),
    load!(1),
    load!(0),
    GRAB,
    READ,
];

fn is_same(answer: Answer, wanted: Answer) -> bool {
    match (answer, wanted) {
        (Answer::Held, Answer::Held) => true,
        (Answer::Running, Answer::Running) => true,
        (Answer::Posted { count }, Answer::Posted { count: other }) => count == other,
        (
            Answer::Raised { word, done },
            Answer::Raised {
                word: other,
                done: ends,
            },
        ) => { word == other && done == ends }
        (Answer::Loaded { word }, Answer::Loaded { word: other }) => word == other,
        (Answer::Item(item), Answer::Item(other)) => item.compare(&other) == Ordering::Equal,
        (
            Answer::Withheld { lane, word },
            Answer::Withheld {
                lane: first,
                word: least,
            },
        ) => { lane == first && word == least }
        _ => false,
    }
}

#[test]
fn worked_steps(rt: HostRuntime) -> Result<(), Fail> {
    let alloc = rt.alloc();
    let limits = usual(&rt);
    let recording = two_intervals(alloc)?;
    // The steps, the answers, and the first step that isn't allowed.
    let rows: [(&[Step], &[Answer], Option<u64>); 3] = [
        (&WITHHELD_THEN_GIVEN, &WITHHELD_AND_GIVEN, None),
        (&CORE_STEPS_BEYOND_SCHEDULES, &WITHHELD_BY_OLD_WORDS, None),
        (&WITHOUT_A_LOAD, &[], Some(7)),
    ];
    for (steps, wanted, refused) in rows {
        match play(alloc, &recording, &limits, steps) {
            Ok(answers) => {
                assert!(rt; refused.is_none());
                assert_eq!(rt; answers.len(), wanted.len());
                for (answer, want) in answers.iter().zip(wanted.iter()) {
                    assert!(rt; is_same(*answer, *want));
                }
            }
            Err(PlayFault::NotAllowed { index }) => assert!(rt; refused == Some(index)),
            Err(PlayFault::OutOfMemory) => return Err(Fail::from(AllocError)),
        }
    }
    Ok(())
}
