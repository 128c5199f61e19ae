// The summary of a result.
ghost use Rattle.std.specs.Prelude.{◌≡◌, IfOk};
ghost use Rattle.pq_report.specs.ReportText.{Pushes};
ghost use Rattle.pq_report.specs.Summary.{fold_with, kind_words, line_of, named, summary_text};

use crate::kind::{ItemKind, KINDS};
use crate::whole_report::push_number;
use pq_base::{OutOfMemory, Text};
use pq_items::Item;
use std::alloc::{AllocError, Global};

// How many items there are of each kind, how many of these are flagged or open, and the fold of all.
#[derive(Clone, Copy)]
struct Tally {
    numbers: [u64; 8],
    marked: [u64; 8],
    fold: u64,
}

/// How many items of each kind there are and how many of these are flagged or open, and what their values
/// and ends fold to, for a recording that is made from a seed and has so many samples.
#[tactic(auto, unfolding(crate::specs::Summary::summary_text))]
pub fn summary(alloc: Global, seed: u64, samples: u64, items: &[Item]) -> Result<Text, OutOfMemory>
    ensures value { IfOk result (λ t. t ≡ summary_text seed samples items.now) }
{
    let tally = Tally::of(items);
    let mut text = Vec::new(alloc);
    push_named(&mut text, "seed", seed)?;
    push_named(&mut text, "samples", samples)?;
    for rank in 0..8 {
        push_kind(
            &mut text,
            KINDS[rank],
            tally.numbers[rank],
            tally.marked[rank],
        )?;
    }
    push_named(&mut text, "fold", tally.fold)?;
    Ok(Text::new(text))
}

// Appends the line of a kind.
fn push_kind(text: &mut Vec<u8>, kind: ItemKind, number: u64, marked: u64) -> Result<(), AllocError>
    ensures { Pushes result text.old text.new (line_of (kind_words kind number marked)) }
{
    text.extend_from_slice(kind.word().as_bytes())?;
    text.extend_from_slice(b" ")?;
    push_number(text, number)?;
    text.extend_from_slice(b" ")?;
    text.extend_from_slice(kind.mark_word(true).as_bytes())?;
    text.extend_from_slice(b" ")?;
    push_number(text, marked)?;
    text.extend_from_slice(b"\n")?;
    Ok(())
}

// Appends the line of a name and a number.
fn push_named(text: &mut Vec<u8>, name: &str, number: u64) -> Result<(), AllocError>
    ensures { Pushes result text.old text.new (line_of (named name.now number)) }
{
    text.extend_from_slice(name.as_bytes())?;
    text.extend_from_slice(b" ")?;
    push_number(text, number)?;
    text.extend_from_slice(b"\n")?;
    Ok(())
}

impl Tally {
    ghost use Rattle.std.specs.Prelude.{◌≡◌};
    ghost use Rattle.pq_report.specs.Summary.{tally_of};

    // What is counted of items, in one pass.
    fn of(items: &[Item]) -> Tally
        ensures { result ≡ tally_of items.now }
    {
        let mut numbers = [0; 8];
        let mut marked = [0; 8];
        let mut fold = 0;
        for item in items {
            let rank = ItemKind::rank_of(item);
            numbers[rank] += 1;
            marked[rank] += u64::from(item.has_mark());
            fold = fold_with(fold, item);
        }
        Tally {
            numbers,
            marked,
            fold,
        }
    }
}

// The fold so far, and a further item.
fn fold_with(so_far: u64, item: &Item) -> u64
    ensures { result ≡ fold_with so_far item.now }
{
    so_far
        .wrapping_mul(31)
        .wrapping_add(item.value())
        .wrapping_add(item.end())
}
