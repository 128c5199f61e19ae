// The numbers of channels.
ghost use Rattle.std.specs.Prelude.{◌≡◌, ◌==◌, ◌<◌, [], ◌∷◌, length, position, IfSome, IfNone};
ghost use Rattle.command_words.specs.Values.{Gives, GivesView, channel_of, channels_of, numbers_view, optional, text_view};
ghost use Rattle.pq_words.specs.Text.{parted_at};

use crate::command::WordsFault;
use crate::number::number_between;
use std::alloc::Global;

/// The most that the number of a channel may be (profile).
pub(crate) const MOST_CHANNEL: u64 = 999;

/// The number of a channel, where there is a text.
pub(crate) fn optional_channel(text: Option<&str>) -> Result<Option<u32>, WordsFault>
    ensures { Gives result (optional channel_of (text_view text.entry)) }
{
    match text {
        Some(text) => Ok(Some(channel_of(text.as_bytes())?)),
        None => Ok(None),
    }
}

/// The numbers of channels in the order of the text, where there is one.
pub(crate) fn optional_channels(
    alloc: Global,
    text: Option<&str>,
) -> Result<Option<Vec<u32>>, WordsFault>
    ensures { GivesView numbers_view result (optional channels_of (text_view text.entry)) }
{
    match text {
        Some(text) => Ok(Some(channels_of(alloc, text.as_bytes())?)),
        None => Ok(None),
    }
}

// Numbers of channels, parted by commas.
fn channels_of(alloc: Global, text: &[u8]) -> Result<Vec<u32>, WordsFault>
    ensures { GivesView (λ numbers. numbers.items) result (channels_of text.now) }
{
    let mut numbers = Vec::new(alloc);
    let mut rest = text;
    while let Some((first, after)) = first_part(rest) {
        numbers.push(channel_of(first)?)?;
        rest = after;
    }
    numbers.push(channel_of(rest)?)?;
    Ok(numbers)
}

// One to three digits, from 1 to 999.
fn channel_of(text: &[u8]) -> Result<u32, WordsFault>
    ensures { Gives result (channel_of text.now) }
{
    let number = number_between(text, 3, 1, MOST_CHANNEL)?;
    Ok(number as u32)
}

// What stands before the first comma, and what behind it.
fn first_part(text: &[u8]) -> Option<(&[u8], &[u8])>
    ensures value { IfSome result (λ p. parted_at 44 text.now ≡ p.0.now ∷ parted_at 44 p.1.now) }
    ensures shorter { IfSome result (λ p. length p.1.now < length text.now) }
    ensures none { IfNone result (parted_at 44 text.now ≡ text.now ∷ []) }
{
    match comma(text) {
        Some(at) => Some((&text[..at], &text[at + 1..])),
        None => None,
    }
}

// The place of the first comma.
fn comma(text: &[u8]) -> Option<usize>
    ensures value { result ≡ position (λ b. b == 44) text.now }
    ensures within { IfSome result (λ i. i < length text.now) }
{
    text.iter().position(|byte| *byte == b',')
}
