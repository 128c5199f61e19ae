// Schedules that are read, first lines at fault, and answer lines, with ample memory.
ghost use Rattle.std.specs.Prelude.{◌≡◌, length, All, IfOk};
ghost use Rattle.event_detect.specs.Threshold.{IsInOrder};
ghost use Rattle.pq_words.specs.Magnitude.{IsWithin};

use crate::{ScheduleFault, read_schedule, replay};
use event_detect::{Limits, Settings};
use pq_base::{Recording, Text};
use pq_words::MOST_MICROVOLTS;
use std::alloc::{AllocError, Global};
use std::process::Abort;
use std::test::Fail;

// Of three lanes: a text, and how many lines it has.
const SCHEDULES: [(&str, usize); 4] = [
    ("", 0),
    (
        "step 0 64\nstep 1 64\nstep 2 64\nquery 0\nquery 0\nquery 0\n",
        6,
    ),
    ("take 2\r\npost 2 1\r\nraise 2", 3),
    ("split 0\nhalt 1\ntake 0\n", 3),
];

// Of three lanes: a text, and its first line at fault.
const FAULTS: [(&str, u64); 6] = [
    ("\n", 1),
    ("take 3\n", 1),
    ("take 0\npost 1 1\n", 2),
    ("step 0 64\npost 0 1\n", 2),
    ("look 0\ngrab 0\ngrab 0\n", 3),
    ("step 0 65\n", 1),
];

// Schedules over two_intervals or, where the flag is set, over halved_half_cycles, and their answer lines.
const REPLAYS: [(bool, &str, &str); 5] = [
    // withheld_then_given
    (
        false,
        "step 0 64\nstep 2 64\nstep 1 19\nquery 0\nstep 1 1\nquery 0\nquery 0\nstep 1 64\nquery 0\n\
        query 0\n",
        "step 0 count=2 word=552 done\n\
        step 2 count=0 word=552 done\n\
        step 1 count=19 word=252 more\n\
        query 0 withheld lane=1 word=252\n\
        step 1 count=1 word=264 more\n\
        query 0 item basic,1,24,264,2024-03-01T12:00:01.020000000Z,2024-03-01T12:00:01.220000000Z,\
        ,229805362,10,clear\n\
        query 0 withheld lane=1 word=264\n\
        step 1 count=22 word=552 done\n\
        query 0 item basic,1,264,504,2024-03-01T12:00:01.220000000Z,2024-03-01T12:00:01.420000000Z,\
        ,229805362,10,clear\n\
        query 0 end\n",
    ),
    // split_and_busy
    (
        true,
        "step 0 64\nstep 1 64\nstep 2 64\nquery 0\nsplit 0\ntake 1\nquery 1\npost 1 1\nquery 1\nquery 0\n\
        raise 1\nquery 1\nquery 1\n",
        "step 0 count=2 word=552 done\n\
        step 1 count=42 word=552 done\n\
        step 2 count=0 word=552 done\n\
        query 0 item basic,1,24,264,2024-03-01T12:00:01.020000000Z,2024-03-01T12:00:01.220000000Z,\
        ,229805362,10,flagged\n\
        split 0 into 1\n\
        take 1 held\n\
        query 1 busy word=2\n\
        post 1 count=0\n\
        query 1 item dip,1,252,336,2024-03-01T12:00:01.210000000Z,2024-03-01T12:00:01.280000000Z,\
        ,114896273,0,closed\n\
        query 0 item dip,1,252,336,2024-03-01T12:00:01.210000000Z,2024-03-01T12:00:01.280000000Z,\
        ,114896273,0,closed\n\
        raise 1 word=552 done\n\
        query 1 item basic,1,264,504,2024-03-01T12:00:01.220000000Z,2024-03-01T12:00:01.420000000Z,\
        ,211869380,10,flagged\n\
        query 1 end\n",
    ),
    // look_grab_halt
    (
        false,
        "look 0\nstep 0 64\nstep 1 64\nstep 2 64\ngrab 0\ntake 1\nread 0\nhalt 0\nstep 0 1\nquery 0\n",
        "look 0 lane=0 word=0\n\
        step 0 count=2 word=552 done\n\
        step 1 count=42 word=552 done\n\
        step 2 count=0 word=552 done\n\
        grab 0 held\n\
        take 1 busy word=4\n\
        read 0 withheld lane=0 word=0\n\
        halt 0\n\
        step 0 halted\n\
        query 0 halted\n",
    ),
    // Busy steps and grabs, a halt, after which a post and a raise go on, and lines that end with CR LF.
    (
        false,
        "take 00\r\npost 0 0001\r\nraise 0\r\nsplit 0\r\nlook 0\r\ntake 0\r\nstep 2 1\r\nhalt 1\r\ngrab 0\r\n\
        post 0 64\r\nraise 0\r\nlook 0\r\ntake 2",
        "take 0 held\n\
        post 0 count=1\n\
        raise 0 word=503 more\n\
        split 0 into 1\n\
        look 0 lane=1 word=0\n\
        take 0 held\n\
        step 2 busy word=1\n\
        halt 1\n\
        grab 0 busy word=1\n\
        post 0 count=1\n\
        raise 0 word=552 done\n\
        look 0 halted\n\
        take 2 halted\n",
    ),
    (false, "", ""),
];

const CYCLE: [i16; 24] = [
    0, 2588, 5000, 7071, 8660, 9659, 10000, 9659, 8660, 7071, 5000, 2588, 0, -2588, -5000, -7071,
    -8660, -9659, -10000, -9659, -8660, -7071, -5000, -2588,
];

// A sine of 10,000 counts at 0.0325 V; where the flag is set, counts are halved toward zero at places 264 to
// 311.
fn sample(halved: bool, place: usize) -> i64
    ensures { IsWithin MOST_MICROVOLTS result }
{
    let count = i64::from(CYCLE[place % 24]);
    if halved && 264 <= place && place < 312 {
        count / 2 * 32_500
    } else {
        count * 32_500
    }
}

// n samples of it, in microvolts.
fn samples(alloc: Global, halved: bool, n: usize) -> Result<Vec<i64>, AllocError>
    ensures count { IfOk result (λ samples. length samples.items ≡ n) }
    ensures quiet { IfOk result (λ samples. All (IsWithin MOST_MICROVOLTS) samples.items) }
{
    let mut samples = Vec::with_capacity(alloc, n)?;
    for place in 0..n {
        samples.push(sample(halved, place))?;
    }
    Ok(samples)
}

// The recording two_intervals or halved_half_cycles, from a second after noon of 1 March 2024.
fn recording(alloc: Global, halved: bool) -> Result<Recording, AllocError> {
    let samples = vec![in alloc; samples(alloc, halved, 552)?]?;
    let numbers = vec![in alloc; 1u32]?;
    Ok(Recording::new(
        1_709_294_401_000_000_000,
        1_200_000_000,
        50,
        numbers,
        0,
        samples,
    ))
}

// 230 V with the usual thresholds.
fn usual(rt: &impl Abort) -> Limits
    ensures { IsInOrder result }
{
    let settings = Settings {
        udin_mv: 230_000,
        dip: 900,
        swell: 1100,
        interruption: 50,
        hysteresis: 20,
    };
    match Limits::of(&settings) {
        Ok(limits) => limits,
        Err(_) => panic!(rt; "the usual settings are sound"),
    }
}

// The answer lines of a schedule over a recording.
fn replayed(
    alloc: Global,
    recording: &Recording,
    limits: &Limits,
    schedule: &[u8],
) -> Result<Text, Fail>
    requires { IsInOrder limits.now }
{
    let lines = read_schedule(alloc, schedule, 3).ok().ok_or("not read")?;
    let text = replay(alloc, recording, limits, &lines)
        .ok()
        .ok_or("no memory")?;
    Ok(text)
}

#[test]
fn schedules_are_read(rt: HostRuntime) -> Result<(), Fail> {
    let alloc = rt.alloc();
    for (text, lines) in SCHEDULES {
        let read = read_schedule(alloc, text.as_bytes(), 3)
            .ok()
            .ok_or("not read")?;
        assert_eq!(rt; read.len(), lines, "{text}");
    }
    Ok(())
}

#[test]
fn first_lines_at_fault(rt: HostRuntime) -> Result<(), Fail> {
    let alloc = rt.alloc();
    for (text, line) in FAULTS {
        let fault = read_schedule(alloc, text.as_bytes(), 3).err();
        assert_eq!(rt; fault, Some(ScheduleFault::Line { line }), "{text}");
    }
    Ok(())
}

#[test]
fn schedules_are_replayed(rt: HostRuntime) -> Result<(), Fail> {
    let alloc = rt.alloc();
    let limits = usual(&rt);
    for (halved, schedule, wanted) in REPLAYS {
        let recording = recording(alloc, halved)?;
        let text = replayed(alloc, &recording, &limits, schedule.as_bytes())?;
        assert!(rt; text.bytes() == wanted.as_bytes(), "{schedule}");
    }
    Ok(())
}

// For j from 0 to 4999 a step of one item by lane j mod 3, and a query.
fn long_schedule(alloc: Global) -> Result<Vec<u8>, AllocError> {
    let mut schedule = Vec::new(alloc);
    for j in 0..5000u32 {
        let step = match j % 3 {
            0 => "step 0 1\nquery 0\n",
            1 => "step 1 1\nquery 0\n",
            _ => "step 2 1\nquery 0\n",
        };
        schedule.extend_from_slice(step.as_bytes())?;
    }
    Ok(schedule)
}

// The lines of a text that begin so: how many there are, and the indices of the first and the last.
fn lines_that_begin(text: &[u8], front: &[u8]) -> (usize, usize, usize) {
    let mut count = 0_usize;
    let mut first = 0;
    let mut last = 0;
    for (index, line) in text.split(|byte| *byte == b'\n').enumerate() {
        if line.starts_with(front) {
            if count == 0 {
                first = index;
            }
            count = count.saturating_add(1);
            last = index;
        }
    }
    (count, first, last)
}

#[test]
fn ten_thousand_lines(rt: HostRuntime) -> Result<(), Fail> {
    let alloc = rt.alloc();
    let limits = usual(&rt);
    let recording = recording(alloc, false)?;
    let text = replayed(alloc, &recording, &limits, &long_schedule(alloc)?)?;
    let lines = text.bytes();
    assert!(rt;
        lines.starts_with(b"step 0 count=1 word=503 more\nquery 0 withheld lane=1 word=0\n")
    );
    // The query of j is the line of index 2 * j + 1.
    let withheld = lines_that_begin(lines, b"query 0 withheld lane=");
    let first = lines_that_begin(lines, b"query 0 item basic,1,24,264,");
    let second = lines_that_begin(lines, b"query 0 item basic,1,264,504,");
    let ended = lines_that_begin(lines, b"query 0 end");
    assert_eq!(rt; withheld.0, 122);
    assert_eq!(rt; first, (1, 117, 117));
    assert_eq!(rt; second, (1, 237, 237));
    assert_eq!(rt; ended, (4876, 249, 9999));
    Ok(())
}
