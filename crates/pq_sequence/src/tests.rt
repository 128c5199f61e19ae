// Worked recordings, by hand: 24 samples a cycle at 1200 Hz and 50 Hz.
ghost use Rattle.std.specs.Prelude.{◌≡◌, ◌≤◌, length, All, IfOk};
ghost use Rattle.event_detect.specs.Threshold.{IsInOrder};
ghost use Rattle.pq_words.specs.Magnitude.{IsWithin};

use crate::sequence;
use event_detect::{Limits, Settings};
use pq_base::Recording;
use pq_items::Item;
use pq_words::{MOST_MICROVOLTS, MOST_NANOSECONDS};
use std::alloc::{AllocError, Global};
use std::cmp::Ordering;
use std::process::Abort;
use std::test::Fail;

const CYCLE: [i16; 24] = [
    0, 2588, 5000, 7071, 8660, 9659, 10000, 9659, 8660, 7071, 5000, 2588, 0, -2588, -5000, -7071,
    -8660, -9659, -10000, -9659, -8660, -7071, -5000, -2588,
];

#[derive(Clone, Copy)]
enum Signal {
    Silence,
    // A sine of 10,000 counts at 0.0325 V.
    Sine,
    // The sine, with counts halved toward zero at places 264 to 311.
    Halved,
    // A square of 11,500 counts at 0.02 V, with other counts at places 264 to 287, and others from 288 on.
    Stepped { then: i16, after: i16 },
}

fn square(place: usize, count: i16) -> i64
    ensures { IsWithin 32_768 result }
{
    if place % 24 < 12 {
        i64::from(count)
    } else {
        -i64::from(count)
    }
}

fn sample(signal: Signal, place: usize) -> i64
    ensures { IsWithin MOST_MICROVOLTS result }
{
    match signal {
        Signal::Silence => 0,
        Signal::Sine => i64::from(CYCLE[place % 24]) * 32_500,
        Signal::Halved => {
            let count = i64::from(CYCLE[place % 24]);
            if 264 <= place && place < 312 {
                count / 2 * 32_500
            } else {
                count * 32_500
            }
        }
        Signal::Stepped { then, after } => {
            let count = if place < 264 {
                11_500
            } else if place < 288 {
                then
            } else {
                after
            };
            square(place, count) * 20_000
        }
    }
}

// n samples of a signal, in microvolts.
fn samples(alloc: Global, signal: Signal, n: usize) -> Result<Vec<i64>, AllocError>
    ensures count { IfOk result (λ samples. length samples.items ≡ n) }
    ensures quiet { IfOk result (λ samples. All (IsWithin MOST_MICROVOLTS) samples.items) }
{
    let mut samples = Vec::with_capacity(alloc, n)?;
    for place in 0..n {
        samples.push(sample(signal, place))?;
    }
    Ok(samples)
}

// So many milliseconds after noon of 1 March 2024.
fn moment(milliseconds: i16) -> i64
    ensures { IsWithin MOST_NANOSECONDS result }
{
    1_709_294_400_000_000_000 + i64::from(milliseconds) * 1_000_000
}

// A recording of channel 1 at 1200 Hz and 50 Hz, from so many milliseconds after noon.
fn recording(
    alloc: Global,
    signal: Signal,
    milliseconds: i16,
    n: usize,
) -> Result<Recording, AllocError>
    requires { n ≤ 20_000 }
{
    let samples = vec![in alloc; samples(alloc, signal, n)?]?;
    let numbers = vec![in alloc; 1u32]?;
    Ok(Recording::new(moment(milliseconds), 1_200_000_000, 50, numbers, 0, samples))
}

// 230 V with the usual thresholds.
fn usual(rt: &impl Abort) -> Limits
    ensures { IsInOrder result }
{
    let settings = Settings {
        udin_mv: 230_000,
        dip: 900,
        swell: 1100,
        interruption: 50,
        hysteresis: 20,
    };
    match Limits::of(&settings) {
        Ok(limits) => limits,
        Err(_) => panic!(rt; "the usual settings are sound"),
    }
}

fn basic(start: u64, end: u64, value: u64, flagged: bool) -> Item {
    Item::Basic {
        channel: 1,
        start,
        end,
        cycles: 10,
        value,
        flagged,
    }
}

fn dip(start: u64, end: u64, value: u64, is_open: bool) -> Item {
    Item::Dip {
        channel: 1,
        start,
        end,
        value,
        is_open,
    }
}

const SWELL: Item = Item::Swell {
    channel: 1,
    start: 264,
    end: 312,
    value: 253_020_000,
    is_open: false,
};

const INTERRUPTION: Item = Item::Interruption {
    channel: 1,
    start: 0,
    end: 1200,
    value: 0,
    is_open: true,
};

#[test]
fn worked_recordings(rt: HostRuntime) -> Result<(), Fail> {
    let alloc = rt.alloc();
    let limits = usual(&rt);
    let edge = Signal::Stepped {
        then: 10_350,
        after: 11_500,
    };
    let dipped = Signal::Stepped {
        then: 10_349,
        after: 10_580,
    };
    let swollen = Signal::Stepped {
        then: 12_651,
        after: 12_420,
    };
    // The signal, the first moment in milliseconds after noon, the number of samples and the items.
    let rows: [(Signal, i16, usize, &[Item]); 12] = [
        (Signal::Sine, 1000, 0, &[]),
        (
            Signal::Sine,
            1000,
            504,
            &[basic(24, 264, 229_805_362, false)],
        ),
        (
            Signal::Sine,
            1000,
            552,
            &[
                basic(24, 264, 229_805_362, false),
                basic(264, 504, 229_805_362, false),
            ],
        ),
        (
            Signal::Halved,
            1000,
            552,
            &[
                basic(24, 264, 229_805_362, true),
                dip(252, 336, 114_896_273, false),
                basic(264, 504, 211_869_380, true),
            ],
        ),
        (
            edge,
            1000,
            552,
            &[
                basic(24, 264, 230_000_000, false),
                basic(264, 504, 227_804_521, false),
            ],
        ),
        (
            dipped,
            1000,
            552,
            &[
                basic(24, 264, 230_000_000, false),
                dip(264, 312, 206_980_000, false),
                basic(264, 504, 211_142_549, true),
            ],
        ),
        (
            swollen,
            1000,
            552,
            &[
                basic(24, 264, 230_000_000, false),
                SWELL,
                basic(264, 504, 248_865_859, true),
            ],
        ),
        (
            Signal::Silence,
            1000,
            1200,
            &[
                basic(0, 240, 0, true),
                basic(240, 480, 0, true),
                basic(480, 720, 0, true),
                basic(720, 960, 0, true),
                dip(0, 1200, 0, true),
                INTERRUPTION,
            ],
        ),
        // Noon at place 594, whose front is at 600; before the first boundary; before the last one;
        // at the end.
        (
            Signal::Sine,
            -495,
            1200,
            &[
                basic(24, 264, 229_805_362, false),
                basic(264, 504, 229_805_362, false),
                basic(504, 744, 229_805_362, false),
                basic(600, 840, 229_805_362, false),
                basic(840, 1080, 229_805_362, false),
            ],
        ),
        (
            Signal::Sine,
            -10,
            552,
            &[
                basic(24, 264, 229_805_362, false),
                basic(264, 504, 229_805_362, false),
            ],
        ),
        (
            Signal::Sine,
            -430,
            552,
            &[
                basic(24, 264, 229_805_362, false),
                basic(264, 504, 229_805_362, false),
            ],
        ),
        (
            Signal::Sine,
            -460,
            552,
            &[
                basic(24, 264, 229_805_362, false),
                basic(264, 504, 229_805_362, false),
            ],
        ),
    ];
    for (signal, milliseconds, n, wanted) in rows {
        assert!(rt; n <= 20_000);
        let recording = recording(alloc, signal, milliseconds, n)?;
        let Ok(items) = sequence(alloc, &recording, &limits) else {
            return Err(Fail::from(AllocError));
        };
        assert_eq!(rt; items.len(), wanted.len());
        for (item, want) in items.iter().zip(wanted.iter()) {
            assert!(rt;
                item.compare(want) == Ordering::Equal,
                "an item that ends at {}",
                want.end()
            );
        }
    }
    Ok(())
}

#[test]
fn ten_seconds_of_frequency(rt: HostRuntime) -> Result<(), Fail> {
    let alloc = rt.alloc();
    let limits = usual(&rt);
    // The signal, how many items it has, which of them is the first 150-cycle interval, its value, and
    // whether it is flagged, as the one reading is.
    let rows = [
        (Signal::Sine, 53, 15, 229_805_362, false),
        (Signal::Halved, 54, 16, 228_653_405, true),
    ];
    for (signal, count, first_short, value, flagged) in rows {
        let recording = recording(alloc, signal, 9995, 12_006)?;
        let Ok(items) = sequence(alloc, &recording, &limits) else {
            return Err(Fail::from(AllocError));
        };
        let short = Item::Short {
            channel: 1,
            start: 24,
            end: 3624,
            value,
            flagged,
        };
        let reading = Item::Frequency {
            tick: 1_709_294_410,
            start: 6,
            end: 12_006,
            cycles: 499,
            microhertz: 50_000_000,
            flagged,
        };
        assert_eq!(rt; items.len(), count);
        assert!(rt; first_short < count && 0 < count);
        assert!(rt; items[first_short].compare(&short) == Ordering::Equal);
        assert!(rt; items[count - 1].compare(&reading) == Ordering::Equal);
    }
    Ok(())
}
