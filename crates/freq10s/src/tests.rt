// Worked readings, by hand: 24 samples a cycle.
ghost use Rattle.std.specs.Prelude.{◌≡◌, ◌≤◌, length, IfOk};
ghost use Rattle.pq_time.specs.Time.{IsClock};

use crate::{Reading, Readings};
use pq_time::Clock;
use std::alloc::{AllocError, Global};
use std::test::Fail;
use zero_cross::Rule;

const CYCLE: [i16; 24] = [
    0, 2588, 5000, 7071, 8660, 9659, 10000, 9659, 8660, 7071, 5000, 2588, 0, -2588, -5000, -7071,
    -8660, -9659, -10000, -9659, -8660, -7071, -5000, -2588,
];

// n samples of a sine.
fn sine(alloc: Global, n: usize) -> Result<Vec<i64>, AllocError>
    requires { n ≤ 100_000 }
    ensures { IfOk result (λ samples. length samples.items ≤ 100_000) }
{
    let mut samples = Vec::with_capacity(alloc, n)?;
    for place in 0..n {
        samples.push(i64::from(CYCLE[place % 24]))?;
    }
    Ok(samples)
}

// A clock at 1199 or 1200 Hz, from so many milliseconds after noon of 1 March 2024.
fn clock(milliseconds: i16, is_slower: bool) -> Clock
    ensures { IsClock result }
{
    Clock {
        t0: 1_709_294_400_000_000_000 + i64::from(milliseconds) * 1_000_000,
        rate: if is_slower {
            1_199_000_000
        } else {
            1_200_000_000
        },
    }
}

// The reading of an interval that begins so many seconds after noon.
fn reading(second: i16, span: (u64, u64), cycles: u64, microhertz: u64) -> Reading
    requires { cycles ≤ 1000 }
{
    Reading {
        tick: 1_709_294_400 + i64::from(second),
        start: span.0,
        end: span.1,
        cycles,
        samples: 24 * cycles,
        microhertz,
    }
}

#[test]
fn worked_readings(rt: HostRuntime) -> Result<(), Fail> {
    let alloc = rt.alloc();
    let rule = Rule::of(1_200_000_000, 50);
    // Milliseconds after noon, whether at 1199 Hz, the number of samples, and the readings.
    let rows: [(i16, bool, usize, &[Reading]); 7] = [
        // No tick, one tick, and the next one a sample too late.
        (1000, false, 552, &[]),
        (9995, false, 552, &[]),
        (9995, false, 12_005, &[]),
        // ten_seconds_of_frequency: 500 boundaries, from 24 to 12,000
        (
            9995,
            false,
            12_006,
            &[reading(10, (6, 12_006), 499, 50_000_000)],
        ),
        // At 1199 Hz the cycles over the ticks at 1199 and 13,189 do not count.
        (
            9000,
            true,
            13_189,
            &[reading(10, (1199, 13_189), 499, 49_958_333)],
        ),
        // The boundary at 12,000 belongs to both intervals; the one at 24,000 has no sample, or has one.
        (
            0,
            false,
            24_000,
            &[
                reading(0, (0, 12_000), 499, 50_000_000),
                reading(10, (12_000, 24_000), 499, 50_000_000),
            ],
        ),
        (
            0,
            false,
            24_001,
            &[
                reading(0, (0, 12_000), 499, 50_000_000),
                reading(10, (12_000, 24_000), 500, 50_000_000),
            ],
        ),
    ];
    for (milliseconds, is_slower, n, wanted) in rows {
        assert!(rt; n <= 100_000);
        let samples = sine(alloc, n)?;
        let mut readings = Readings::new(&samples, rule, clock(milliseconds, is_slower));
        for want in wanted {
            assert!(rt;
                readings.next() == Some(*want),
                "the reading that ends at {}",
                want.end
            );
        }
        assert!(rt; readings.next().is_none());
    }
    Ok(())
}
