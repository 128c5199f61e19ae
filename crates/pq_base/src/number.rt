// Numbers that a text writes in digits.
ghost use Rattle.std.specs.Prelude.{◌≡◌, ◌+◌, ◌*◌, ◌^◌, ◌<◌, ◌≤◌, length, IfSome, Some, None, if◌then◌else◌};
ghost use Rattle.std.specs.Char.{is_ascii_digit};
ghost use Rattle.std.specs.List.{list_all};
ghost use Rattle.std.specs.Str.Parse.{digits_value_after};
ghost use Rattle.pq_base.specs.Decimal.{digits_from};
ghost use Rattle.pq_words.specs.Text.{digits_between, number};

/// The number that one to ten digits write, leading zeros allowed; None for any other text.
pub fn read_number(text: &[u8]) -> Option<u64>
    ensures { result ≡ number text.now }
{
    match read_digits(text, 10) {
        Some(value) => Some(value as u64),
        None => None,
    }
}

/// The number that one to `most` digits write, leading zeros allowed; None for any other text.
pub fn read_digits(text: &[u8], most: usize) -> Option<u128>
    requires { most ≤ 38 }
    ensures value { result ≡ digits_between 1 most text.now }
    ensures within { IfSome result (λ n. n < 10 ^ most) }
{
    if text.is_empty() {
        return None;
    }
    if text.len() > most {
        return None;
    }
    with_digits(0, text)
}

// The number that the digits of `front` and then those of the text write; None where a byte is no digit.
pub(crate) fn with_digits(front: u128, text: &[u8]) -> Option<u128>
    requires { (front + 1) * 10 ^ length text.now ≤ 10 ^ 38 }
    ensures value { result ≡ digits_from front text.now }
    ensures within { IfSome result (λ n. n < (front + 1) * 10 ^ length text.now) }
{
    let mut value = front;
    for digit in text {
        if !digit.is_ascii_digit() {
            return None;
        }
        value = value * 10 + u128::from(*digit - b'0');
    }
    Some(value)
}
