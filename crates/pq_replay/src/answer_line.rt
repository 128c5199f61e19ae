// The answer line of a line.
ghost use Rattle.std.specs.Prelude.{◌≡◌, ◌++◌, ◌∷◌, [], ℕ, List, All, flat_map, codes};
ghost use Rattle.pq_items.specs.ItemRange.{IsItemInRange};
ghost use Rattle.pq_replay.specs.AnswerLines.{IsAnswerInRange, answer_line, answer_words, held_words};
ghost use Rattle.pq_replay.specs.AnswerLines.{lane_words, least_words, line_start, look_words, numbered};
ghost use Rattle.pq_replay.specs.AnswerLines.{raised_words, row_words, word_loaded};
ghost use Rattle.pq_report.specs.ReportText.{Pushes};
ghost use Rattle.pq_sequence.specs.Lists.{Gives};
ghost use Rattle.pq_time.specs.Time.{IsClock};

use crate::line::Line;
use chain_core::{Answer, least, least_lane};
use itoa::Buffer;
use pq_base::OutOfMemory;
use pq_items::Item;
use pq_report::row;
use pq_time::Clock;
use std::alloc::{AllocError, Global};

// Appends the answer line of a line with these answers.
pub(crate) fn push_answer_line(
    text: &mut Vec<u8>,
    alloc: Global,
    clock: &Clock,
    line: Line,
    answers: &[Answer],
) -> Result<(), OutOfMemory>
    requires clock { IsClock clock.now }
    requires within { All IsAnswerInRange answers.now }
    ensures { Pushes result text.old text.new (answer_line clock.now line answers.now) }
{
    push_start(text, line)?;
    push_answers(text, alloc, clock, line, answers)?;
    push_look(text, alloc, line, answers)?;
    text.push(b'\n')?;
    Ok(())
}

// Appends the command and its lane or session.
fn push_start(text: &mut Vec<u8>, line: Line) -> Result<(), AllocError>
    ensures { Pushes result text.old text.new (line_start line) }
{
    text.extend_from_slice(line.command().word().as_bytes())?;
    push_numbered(text, b" ", u64::from(line.number()))
}

// Appends what a line says of its answers.
fn push_answers(
    text: &mut Vec<u8>,
    alloc: Global,
    clock: &Clock,
    line: Line,
    answers: &[Answer],
) -> Result<(), OutOfMemory>
    requires clock { IsClock clock.now }
    requires within { All IsAnswerInRange answers.now }
    ensures { Pushes result text.old text.new (flat_map (answer_words clock.now line) answers.now) }
{
    for answer in answers {
        push_answer(text, alloc, clock, line, *answer)?;
    }
    Ok(())
}

// Appends what a line says of an answer.
fn push_answer(
    text: &mut Vec<u8>,
    alloc: Global,
    clock: &Clock,
    line: Line,
    answer: Answer,
) -> Result<(), OutOfMemory>
    requires clock { IsClock clock.now }
    requires within { IsAnswerInRange answer }
    ensures { Pushes result text.old text.new (answer_words clock.now line answer) }
{
    match answer {
        Answer::Held => push_held(text, line)?,
        Answer::Busy { word } => push_numbered(text, b" busy word=", word)?,
        Answer::Halted => text.extend_from_slice(b" halted")?,
        Answer::Posted { count } => push_numbered(text, b" count=", u64::from(count))?,
        Answer::Raised { word, done } => push_raised(text, word, done)?,
        Answer::Running => {}
        Answer::Loaded { .. } => {}
        Answer::Item(item) => push_item(text, alloc, clock, &item)?,
        Answer::Withheld { lane, word } => {
            push_lane(text, b" withheld lane=", u64::from(lane), word)?;
        }
        Answer::End => text.extend_from_slice(b" end")?,
        Answer::Split { session } => push_numbered(text, b" into ", u64::from(session))?,
        Answer::Stopped => {}
    }
    Ok(())
}

// Appends that the turn is held, where the line only takes it.
fn push_held(text: &mut Vec<u8>, line: Line) -> Result<(), AllocError>
    ensures { Pushes result text.old text.new (held_words line) }
{
    match line {
        Line::Take { .. } => text.extend_from_slice(b" held")?,
        Line::Grab { .. } => text.extend_from_slice(b" held")?,
        _ => {}
    }
    Ok(())
}

// Appends the word that a raise wrote, and whether it was the lane's last.
fn push_raised(text: &mut Vec<u8>, word: u64, done: bool) -> Result<(), AllocError>
    ensures { Pushes result text.old text.new (raised_words word done) }
{
    push_numbered(text, b" word=", word)?;
    if done {
        text.extend_from_slice(b" done")
    } else {
        text.extend_from_slice(b" more")
    }
}

// Appends an item: its row in the report, without the line end.
fn push_item(
    text: &mut Vec<u8>,
    alloc: Global,
    clock: &Clock,
    item: &Item,
) -> Result<(), OutOfMemory>
    requires clock { IsClock clock.now }
    requires within { IsItemInRange item.now }
    ensures { Pushes result text.old text.new (codes " item " ++ row_words clock.now item.now) }
{
    let row = row(alloc, clock, item)?;
    text.extend_from_slice(b" item ")?;
    text.extend_from_slice(without_line_end(row.bytes()))?;
    Ok(())
}

// The words of a row before its line end.
fn without_line_end(row: &[u8]) -> &[u8]
    ensures { (words : List ℕ) → row.now ≡ words ++ 10 ∷ [] → result.now ≡ words }
{
    match row.split_last() {
        Some((_, words)) => words,
        None => row,
    }
}

// Appends what only a look says: the least of the words that it loaded.
fn push_look(
    text: &mut Vec<u8>,
    alloc: Global,
    line: Line,
    answers: &[Answer],
) -> Result<(), AllocError>
    ensures { Pushes result text.old text.new (look_words line answers.now) }
{
    match line {
        Line::Look { .. } => push_least(text, &loaded_words(alloc, answers)?),
        _ => Ok(()),
    }
}

// Appends the first lane that has the least of some words, and this word.
fn push_least(text: &mut Vec<u8>, words: &[u64]) -> Result<(), AllocError>
    ensures { Pushes result text.old text.new (least_words words.now) }
{
    if words.is_empty() {
        return Ok(());
    }
    push_lane(text, b" lane=", least_lane(words) as u64, least(words))
}

// The words that loads gave, in order.
fn loaded_words(alloc: Global, answers: &[Answer]) -> Result<Vec<u64>, AllocError>
    ensures { Gives result (flat_map word_loaded answers.now) }
{
    let mut words = Vec::new(alloc);
    for answer in answers {
        push_loaded(&mut words, *answer)?;
    }
    Ok(words)
}

fn push_loaded(words: &mut Vec<u64>, answer: Answer) -> Result<(), AllocError>
    ensures { Pushes result words.old words.new (word_loaded answer) }
{
    if let Answer::Loaded { word } = answer {
        words.push(word)?;
    }
    Ok(())
}

// Appends a lane and a word.
fn push_lane(text: &mut Vec<u8>, words: &[u8], lane: u64, word: u64) -> Result<(), AllocError>
    ensures { Pushes result text.old text.new (lane_words words.now lane word) }
{
    push_numbered(text, words, lane)?;
    push_numbered(text, b" word=", word)
}

// Appends words and a number.
fn push_numbered(text: &mut Vec<u8>, words: &[u8], number: u64) -> Result<(), AllocError>
    ensures { Pushes result text.old text.new (numbered words.now number) }
{
    let mut buffer = Buffer::new();
    text.extend_from_slice(words)?;
    text.extend_from_slice(buffer.format(number).as_bytes())
}
