// The ten-minute ticks of clocks and their places, by hand.
ghost use Rattle.std.specs.Prelude.{◌≤◌};
ghost use Rattle.pq_time.specs.Time.{IsClock};

use pq_time::{Clock, print_moment};
use std::test::Fail;

// Noon of 1 March 2024, and the last midnight of that year, in seconds since 1970.
const NOON: i64 = 1_709_294_400;

const NEW_YEAR: i64 = 1_735_689_600;

const SECOND: i64 = 1_000_000_000;

// A clock with a number of samples, and its ticks in seconds, each with its place.
#[derive(Clone, Copy)]
struct Row<'a> {
    t0: i64,
    rate: u64,
    n: u64,
    ticks: &'a [(i64, u64)],
    first: &'a [u8; 30],
}

// Whether the ticks of the clock among n samples are these, in seconds, each at its place.
fn has_ticks(clock: Clock, n: u64, wanted: &[(i64, u64)]) -> bool
    requires clock { IsClock clock }
    requires places { n ≤ 2_000_000 }
{
    let mut ticks = clock.ticks(n, 600);
    for &(second, place) in wanted {
        let moment = second.saturating_mul(SECOND);
        if ticks.next() != Some(second) || clock.place_of(moment, n) != place {
            return false;
        }
    }
    ticks.next().is_none()
}

#[test]
fn table_of_clocks(rt: HostRuntime) -> Result<(), Fail> {
    let rows = [
        // a nanosecond before a tick, at it, and a nanosecond after it
        Row {
            t0: NOON * SECOND - 1,
            rate: 1_200_000_000,
            n: 1200,
            ticks: &[(NOON, 1)],
            first: b"2024-03-01T11:59:59.999999999Z",
        },
        Row {
            t0: NOON * SECOND,
            rate: 1_200_000_000,
            n: 1200,
            ticks: &[(NOON, 0)],
            first: b"2024-03-01T12:00:00.000000000Z",
        },
        Row {
            t0: NOON * SECOND + 1,
            rate: 1_200_000_000,
            n: 1200,
            ticks: &[],
            first: b"2024-03-01T12:00:00.000000001Z",
        },
        // rates that divide no second: sample times are rounded down
        Row {
            t0: NOON * SECOND - SECOND,
            rate: 1_199_000_000,
            n: 721_798,
            ticks: &[(NOON, 1199), (NOON + 600, 720_599)],
            first: b"2024-03-01T11:59:59.000000000Z",
        },
        Row {
            t0: NOON * SECOND - 10 * SECOND,
            rate: 800_000_001,
            n: 10_000,
            ticks: &[(NOON, 8001)],
            first: b"2024-03-01T11:59:50.000000000Z",
        },
        // a tick at the very end, which has no sample, and one past it
        Row {
            t0: NOON * SECOND - 460_000_000,
            rate: 1_200_000_000,
            n: 552,
            ticks: &[(NOON, 552)],
            first: b"2024-03-01T11:59:59.540000000Z",
        },
        Row {
            t0: NOON * SECOND - 460_000_000,
            rate: 1_200_000_000,
            n: 551,
            ticks: &[],
            first: b"2024-03-01T11:59:59.540000000Z",
        },
        // no sample at all
        Row {
            t0: NOON * SECOND,
            rate: 200_000_000_000,
            n: 0,
            ticks: &[(NOON, 0)],
            first: b"2024-03-01T12:00:00.000000000Z",
        },
        Row {
            t0: NOON * SECOND + SECOND,
            rate: 200_000_000_000,
            n: 0,
            ticks: &[],
            first: b"2024-03-01T12:00:01.000000000Z",
        },
        // before 1970, and over its first moment
        Row {
            t0: -1205 * SECOND,
            rate: 1_200_000_000,
            n: 1_500_000,
            ticks: &[(-1200, 6000), (-600, 726_000), (0, 1_446_000)],
            first: b"1969-12-31T23:39:55.000000000Z",
        },
        // the year's end
        Row {
            t0: NEW_YEAR * SECOND - 500_000_000,
            rate: 1_200_000_000,
            n: 1200,
            ticks: &[(NEW_YEAR, 600)],
            first: b"2024-12-31T23:59:59.500000000Z",
        },
    ];
    for row in rows {
        let Row { t0, rate, n, .. } = row;
        assert!(rt; -2_000_000_000 * SECOND < t0 && t0 < 2_000_000_000 * SECOND);
        assert!(rt; 800_000_000 <= rate && rate <= 200_000_000_000 && n <= 2_000_000);
        let clock = Clock { t0, rate };
        assert!(rt; print_moment(clock.time_of(0)) == *row.first);
        assert!(rt; has_ticks(clock, n, row.ticks), "{n} samples");
    }
    Ok(())
}
