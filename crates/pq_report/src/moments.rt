// The moments of a row, as they are printed.
ghost use Rattle.std.specs.Prelude.{◌≡◌, ◌≤◌};
ghost use Rattle.pq_items.specs.ItemRange.{IsTickInRange};
ghost use Rattle.pq_report.specs.ReportText.{place_text, second_text};
ghost use Rattle.pq_time.specs.Time.{IsClock};

use pq_time::{Clock, print_moment};
use pq_words::MOST_SAMPLES;

const NANOSECONDS_IN_SECOND: i64 = 1_000_000_000;

// The moment at which the sample at a place is taken.
pub(crate) fn place_moment(clock: &Clock, place: u64) -> [u8; 30]
    requires clock { IsClock clock.now }
    requires place { place ≤ MOST_SAMPLES }
    ensures { result ≡ place_text clock.now place }
{
    print_moment(clock.time_of(place))
}

// The moment of a tick, a UTC second.
pub(crate) fn tick_moment(second: i64) -> [u8; 30]
    requires { IsTickInRange second }
    ensures { result ≡ second_text second }
{
    print_moment(second * NANOSECONDS_IN_SECOND)
}
