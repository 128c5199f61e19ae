// Numbers in digits, within their range.
ghost use Rattle.std.specs.Prelude.{◌≡◌, ◌≤◌, IfOk};
ghost use Rattle.command_words.specs.Values.{IsBetween, number_between};

use crate::command::WordsFault;
use pq_base::read_digits;

/// The number that one to `digits` digits write, where it is from `least` to `most`.
pub(crate) fn number_between(
    text: &[u8],
    digits: usize,
    least: u64,
    most: u64,
) -> Result<u64, WordsFault>
    requires { digits ≤ 38 }
    ensures value { result ≡ number_between digits least most text.now }
    ensures within { IfOk result (IsBetween least most) }
{
    match read_digits(text, digits) {
        Some(number) if u128::from(least) <= number && number <= u128::from(most) => {
            Ok(number as u64)
        }
        _ => Err(WordsFault::NotUnderstood),
    }
}
