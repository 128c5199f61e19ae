// The judgement of records, in order.
ghost use Rattle.std.specs.Prelude.{◌≡◌, ◌+◌, ◌*◌, ◌^◌, ◌≤◌, ◌<◌, All, IfSome, Ok, find, length};
ghost use Rattle.comtrade_dat.specs.Channel.{IsLayout};
ghost use Rattle.comtrade_dat.specs.Run.{judged_bytes, judged_in, judged_run};
ghost use Rattle.comtrade_dat.specs.Samples.{first_fault, is_missing};
ghost use Rattle.pq_words.specs.declared.limits.TheConstants.{MOST_SAMPLES};

use crate::dat_fault::DatFault;
use crate::fields::{count_in, number_in, record_at};
use crate::good_records::is_numbered_after;
use crate::limits::MISSING_COUNT;
use crate::run_start::{RunStart, number_before};

// The records of a run from an index to another, which is not included, in order. Those before them are good.
pub(crate) fn judge_records(
    size: usize,
    positions: &[u32],
    start: RunStart,
    run: &[u8],
    from: usize,
    end: usize,
) -> Result<(), DatFault>
    requires forward { from ≤ end }
    requires whole { size * end ≤ length run.now }
    requires few { start.index + end ≤ MOST_SAMPLES }
    requires layout { IsLayout size positions.now }
    requires good { first_fault (judged_run size positions.now start run.now from) ≡ Ok (tt {0}) }
    ensures { result ≡ first_fault (judged_run size positions.now start run.now end) }
{
    for index in from..end {
        judge_record(size, positions, start, run, index)?;
    }
    Ok(())
}

// The record at an index of a run.
fn judge_record(
    size: usize,
    positions: &[u32],
    start: RunStart,
    run: &[u8],
    index: usize,
) -> Result<(), DatFault>
    requires whole { size * (index + 1) ≤ length run.now }
    requires few { start.index + index < MOST_SAMPLES }
    requires layout { IsLayout size positions.now }
    ensures { result ≡ judged_in size positions.now start run.now index }
{
    let before = number_before(size, start.before, run, index);
    let at = (start.index + index) as u64 + 1;
    judge_bytes(positions, before, at, record_at(size, run, index))
}

// The bytes of a record: its number, and its selected counts.
fn judge_bytes(
    positions: &[u32],
    before: Option<u32>,
    at: u64,
    bytes: &[u8],
) -> Result<(), DatFault>
    requires least { 10 ≤ length bytes.now }
    requires room { All (λ p. 10 + 2 * p ≤ length bytes.now) positions.now }
    requires small { length bytes.now < 2 ^ 16 }
    ensures { result ≡ judged_bytes positions.now before at bytes.now }
{
    let found = number_in(bytes);
    if !is_numbered_after(before, found) {
        return Err(DatFault::Number { at, found });
    }
    match missing(bytes, positions) {
        Some(position) => Err(DatFault::Missing {
            at,
            channel: position + 1,
        }),
        None => Ok(()),
    }
}

// The first of the positions whose channel has no count.
fn missing(bytes: &[u8], positions: &[u32]) -> Option<u32>
    requires { All (λ p. 10 + 2 * p ≤ length bytes.now) positions.now }
    ensures value { result ≡ find (is_missing bytes.now) positions.now }
    ensures within { IfSome result (λ p. 10 + 2 * p ≤ length bytes.now) }
{
    positions.iter().copied().find(|position| count_in(bytes, *position as usize) == MISSING_COUNT)
}
