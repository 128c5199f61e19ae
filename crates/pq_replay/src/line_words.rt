// The line that a text is.
ghost use Rattle.std.specs.Prelude.{◌≡◌, ◌∷◌, []};
ghost use Rattle.pq_replay.specs.LineGrammar.{line_of, line_of_parts, most_of, short_number};

use crate::command::Command;
use crate::cutting::cut;
use crate::line::Line;
use pq_base::read_digits;

// The line that a text is, where it is one: a command and its numbers, parted by one space.
pub(crate) fn read_line(text: &[u8]) -> Option<Line>
    ensures { result ≡ line_of text.now }
{
    let (word, numbers) = cut(text, b' ')?;
    match cut(numbers, b' ') {
        None => line_with_one(word, numbers),
        Some((first, second)) => match cut(second, b' ') {
            None => line_with_two(word, first, second),
            Some(_) => None,
        },
    }
}

// The line of a command with one number.
#[tactic(auto, unfolding(crate::specs::LineGrammar::line_of_parts))]
fn line_with_one(word: &[u8], number: &[u8]) -> Option<Line>
    ensures { result ≡ line_of_parts (word.now ∷ number.now ∷ []) }
{
    let command = Command::read(word)?;
    command.with_one(read_short(number)?)
}

// The line of a command with two numbers.
#[tactic(auto, unfolding(crate::specs::LineGrammar::line_of_parts))]
fn line_with_two(word: &[u8], first: &[u8], second: &[u8]) -> Option<Line>
    ensures { result ≡ line_of_parts (word.now ∷ first.now ∷ second.now ∷ []) }
{
    let command = Command::read(word)?;
    let lane = read_short(first)?;
    command.with_two(lane, read_most(second)?)
}

// The number that one to four digits write.
fn read_short(text: &[u8]) -> Option<u32>
    ensures { result ≡ short_number text.now }
{
    match read_digits(text, 4) {
        Some(number) => Some(number as u32),
        None => None,
    }
}

// How many items a post posts at most.
fn read_most(text: &[u8]) -> Option<u32>
    ensures { result ≡ most_of text.now }
{
    let most = read_short(text)?;
    if 1 <= most && most <= 64 {
        Some(most)
    } else {
        None
    }
}
