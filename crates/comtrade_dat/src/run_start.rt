// Where a run of records begins.
ghost use Rattle.std.specs.Prelude.{◌≡◌, ◌+◌, ◌*◌, ◌≤◌, length};
ghost use Rattle.comtrade_dat.specs.Run.{number_before, start_after};
ghost use Rattle.pq_words.specs.declared.limits.TheConstants.{MOST_SAMPLES};

use crate::fields::{number_in, record_at};

// The index in the dat of the run's first record, and the sample number of the record before it.
#[derive(Clone, Copy)]
pub(crate) struct RunStart {
    pub(crate) index: usize,
    pub(crate) before: Option<u32>,
}

// Where the run that is left after so many records begins.
pub(crate) fn start_after(size: usize, start: RunStart, run: &[u8], count: usize) -> RunStart
    requires whole { size * count ≤ length run.now }
    requires fields { 8 ≤ size }
    requires few { start.index + count ≤ MOST_SAMPLES }
    ensures { result ≡ start_after size start run.now count }
{
    RunStart {
        index: start.index + count,
        before: number_before(size, start.before, run, count),
    }
}

// The sample number of the record before the one at an index.
pub(crate) fn number_before(
    size: usize,
    before: Option<u32>,
    run: &[u8],
    index: usize,
) -> Option<u32>
    requires whole { size * index ≤ length run.now }
    requires fields { 8 ≤ size }
    ensures { result ≡ number_before size before run.now index }
{
    if index == 0 {
        return before;
    }
    Some(number_in(record_at(size, run, index - 1)))
}
