// The runs over a whole list.
ghost use Rattle.std.specs.Prelude.{◌≡◌, ◌+◌, ◌^◌, ◌≤◌, ◌++◌, ◌<◌, length, slice_index_or, IfOk, OnOk};
ghost use Rattle.ten_twelve.specs.Run.{AreStarts, IsRunLength, runs, runs_between};

use crate::{OutOfMemory, Span};
use std::alloc::Global;

/// The runs of `length` consecutive elements among `count`, as spans of indices: from each start they
/// begin at whole lengths below the next start, and one is there only if all its elements are, also
/// those past the next start (IEC 61000-4-30:2015, 4.5; where they begin anew is profile).
///
/// # Errors
///
/// [`OutOfMemory`] where there is no memory.
pub fn chop(
    alloc: Global,
    starts: &[u64],
    length: u64,
    count: u64,
) -> Result<Vec<Span>, OutOfMemory>
    requires starts { AreStarts starts.now count }
    requires length { IsRunLength length }
    ensures { IfOk result (λ spans. spans.items ≡ runs starts.now length count) }
{
    // A run that began here would lack elements.
    let end = count.saturating_sub(length - 1);
    let mut spans = Vec::new(alloc);
    for (index, start) in starts.iter().enumerate() {
        let until = next_start(starts, index, end).min(end);
        push_runs(&mut spans, *start, until, length)?;
    }
    Ok(spans)
}

// The start after the one at an index, or `end` where that is the last.
fn next_start(starts: &[u64], index: usize, end: u64) -> u64
    requires { index < length starts.now }
    ensures { result ≡ slice_index_or starts.now (index + 1) end }
{
    starts.get(index + 1).copied().unwrap_or(end)
}

// Adds the runs that begin at an index and at whole lengths after it, below another index.
fn push_runs(spans: &mut Vec<Span>, from: u64, until: u64, length: u64) -> Result<(), OutOfMemory>
    requires length { IsRunLength length }
    requires room { until + length ≤ 2 ^ 64 }
    ensures { OnOk result (spans.new.items ≡ spans.old.items ++ runs_between length from until) }
{
    for k in 0..until.saturating_sub(from).div_ceil(length) {
        let start = from + k * length;
        let end = start + length;
        spans.push(Span { start, end })?;
    }
    Ok(())
}
