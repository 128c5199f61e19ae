// The clock of a recording.
ghost use Rattle.std.specs.Prelude.{◌≡◌};
ghost use Rattle.pq_sequence.specs.MeasuredRecording.{clock_of};
ghost use Rattle.pq_time.specs.Time.{IsClock};

use pq_base::Recording;
use pq_time::Clock;

/// When the samples of a recording are taken: its first moment and its sampling rate, as a clock.
pub fn clock_of(recording: &Recording) -> Clock
    ensures value { result ≡ clock_of recording.now }
    ensures clock { IsClock result }
{
    Clock {
        t0: recording.t0(),
        rate: recording.rate(),
    }
}
