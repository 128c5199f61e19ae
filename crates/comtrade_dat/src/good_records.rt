// Whether records are good, told without their faults: by their numbers, and by the counts of a channel.
ghost use Rattle.std.specs.Prelude.{◌≡◌, ◌≢◌, ◌+◌, ◌*◌, ◌≤◌, true, length};
ghost use Rattle.comtrade_dat.specs.BinaryRecord.{count_in};
ghost use Rattle.comtrade_dat.specs.Run.{AreNumbered, HaveCounts, is_numbered_after};
ghost use Rattle.comtrade_dat.specs.declared.limits.TheConstants.{MISSING_COUNT};

use crate::fields::{count_in, number_in, record_at};
use crate::limits::MISSING_COUNT;
use crate::run_start::number_before;

// Whether each record's number follows that of the record before it.
pub(crate) fn are_numbered(
    size: usize,
    before: Option<u32>,
    run: &[u8],
    from: usize,
    end: usize,
) -> bool
    requires forward { from ≤ end }
    requires whole { size * end ≤ length run.now }
    requires fields { 8 ≤ size }
    ensures { result ≡ true → AreNumbered size before run.now from end }
{
    let mut are = true;
    let mut last = number_before(size, before, run, from);
    for index in from..end {
        let number = number_in(record_at(size, run, index));
        are &= is_numbered_after(last, number);
        last = Some(number);
    }
    are
}

// Whether each record has the count of the channel at a position.
pub(crate) fn have_counts(size: usize, run: &[u8], from: usize, end: usize, position: usize) -> bool
    requires forward { from ≤ end }
    requires whole { size * end ≤ length run.now }
    requires room { 10 + 2 * position ≤ size }
    ensures { result ≡ true → HaveCounts size run.now from end position }
{
    let mut have = true;
    for index in from..end {
        have &= has_count(record_at(size, run, index), position);
    }
    have
}

// Whether a number follows that of the record before, where there is one.
pub(crate) fn is_numbered_after(before: Option<u32>, number: u32) -> bool
    ensures { result ≡ is_numbered_after before number }
{
    match before {
        Some(before) => number == before.wrapping_add(1),
        None => true,
    }
}

// Whether a record has the count of the channel at a position.
fn has_count(bytes: &[u8], position: usize) -> bool
    requires { 10 + 2 * position ≤ length bytes.now }
    ensures { result ≡ true → count_in bytes.now position ≢ MISSING_COUNT }
{
    count_in(bytes, position) != MISSING_COUNT
}
