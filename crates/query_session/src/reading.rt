// A ledger is advanced and read.
ghost use Rattle.std.specs.Prelude.{◌≡◌, ◌+◌, ◌<◌, ◌≤◌, ◌^◌, [], length, slice_get, IfSome, OnOk, OnErr};
ghost use Rattle.interval_ledger.specs.Ledger.{IsReached, KeepsCounts, mark_of, released_of, view_of};
ghost use Rattle.query_session.specs.Bounds.{HasBounds};
ghost use Rattle.query_session.specs.Reading.{Answers, AreNext, IsAdvanced, cursor_after, result_in, samples_in};

use crate::answer::Next;
use interval_ledger::{Ledger, Steps};
use pq_items::Item;
use std::alloc::AllocError;
use std::marker::Brand;
use std::sync::ledger::{Blank, Ledger as Tally};

// How many released items a session takes at most beside the one that it reads.
const AT_ONCE: usize = 64;

// Advances the ledger to the word, and reads the item at the cursor.
pub(crate) fn read_ledger(
    ledger: &mut Ledger,
    lane: u32,
    word: u64,
    samples: u64,
    cursor: usize,
) -> Next
    requires within { IsReached ledger.old word }
    requires bounds { HasBounds (view_of ledger.old).recording (view_of ledger.old).limits }
    requires end { samples ≡ samples_in ledger.old }
    requires cursor { cursor ≤ length (result_in ledger.old) }
    ensures keeps { KeepsCounts ledger.old ledger.new }
    ensures answers { Answers ledger.old ledger.new lane word cursor result }
    ensures small { cursor_after cursor result < 2 ^ 64 }
{
    if let Err(_) = advance(ledger, word) {
        return Next::OutOfMemory;
    }
    match item_at(ledger, cursor) {
        Some(item) => Next::Item(item),
        None => {
            if word < samples {
                Next::Withheld { lane, word }
            } else {
                Next::End
            }
        }
    }
}

// The cursor after this answer.
pub(crate) fn move_on(cursor: usize, next: &Next) -> usize
    requires { cursor_after cursor next.now < 2 ^ 64 }
    ensures { result ≡ cursor_after cursor next.now }
{
    match next {
        Next::Item(_) => cursor + 1,
        _ => cursor,
    }
}

// The released item at an index, which is less than the number of those there are.
fn item_at(ledger: &Ledger, index: usize) -> Option<Item>
    ensures value { result ≡ slice_get (released_of ledger.now) index }
    ensures small { IfSome result (λ _. index + 1 < 2 ^ 64) }
{
    if index < ledger.released() {
        return ledger.item(index);
    }
    None
}

// Advances the ledger, with a count of steps of its own.
fn advance(ledger: &mut Ledger, word: u64) -> Result<(), AllocError>
    requires within { IsReached ledger.old word }
    ensures keeps { KeepsCounts ledger.old ledger.new }
    ensures ok { OnOk result (IsAdvanced ledger.old ledger.new word) }
    ensures err { OnErr result (mark_of ledger.new ≡ mark_of ledger.old) }
{
    advance_with::<Brand>(ledger, word, Blank::new(1))
}

fn advance_with<L: Tally>(ledger: &mut Ledger, word: u64, blank: Blank) -> Result<(), AllocError>
    requires name { blank.name ≡ L.name }
    requires parts { (blank.parts ≡ L.parts) × (0 < L.parts) }
    requires within { IsReached ledger.old word }
    ensures keeps { KeepsCounts ledger.old ledger.new }
    ensures ok { OnOk result (IsAdvanced ledger.old ledger.new word) }
    ensures err { OnErr result (mark_of ledger.new ≡ mark_of ledger.old) }
{
    let mut steps: Steps<L> = Steps::of(blank);
    ledger.advance(word, &mut steps)
}

// Adds the released items from an index on, some at most. Gives the index after them.
pub(crate) fn gather(ledger: &Ledger, from: usize, items: &mut Vec<Item>) -> usize
    requires none { items.old.items ≡ [] }
    ensures next { AreNext (released_of ledger.now) from items.new.items }
    ensures after { result ≡ from + length items.new.items }
{
    let end = ledger.released().min(from.saturating_add(AT_ONCE));
    let mut index = from;
    while index < end {
        let Some(item) = ledger.item(index) else {
            return index;
        };
        if items.push(item).is_err() {
            return index;
        }
        index += 1;
    }
    index
}
