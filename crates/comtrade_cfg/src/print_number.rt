// Numbers as a cfg writes them, appended to a text.
ghost use Rattle.std.specs.Prelude.{◌≡◌, ◌++◌, ◌<◌, ◌≤◌, decimal};
ghost use Rattle.pq_words.specs.Text.{padded};
ghost use Rattle.comtrade_cfg.specs.Canonical.{Appends, rate_text, offset_text, code_text, hexadecimal_text};

use itoa::Buffer;
use std::alloc::AllocError;

const MICROHERTZ: u64 = 1_000_000;

// Minutes in an hour.
const MINUTES: u32 = 60;

/// Appends a number without leading zeros.
pub(crate) fn push_number(text: &mut Vec<u8>, number: u64) -> Result<(), AllocError>
    ensures { Appends text.old text.new result (decimal number) }
{
    let mut buffer = Buffer::new();
    text.extend_from_slice(buffer.format(number).as_bytes())?;
    Ok(())
}

// The last two digits of a number.
fn two_digits(n: u64) -> [u8; 2]
    ensures { result ≡ padded 2 n }
{
    [b'0' + (n / 10 % 10) as u8, b'0' + (n % 10) as u8]
}

// The last six.
fn six_digits(n: u64) -> [u8; 6]
    ensures { result ≡ padded 6 n }
{
    let [a, b] = two_digits(n / 10_000);
    let [c, d] = two_digits(n / 100);
    let [e, f] = two_digits(n);
    [a, b, c, d, e, f]
}

/// Appends a rate in microhertz as hertz.
pub(crate) fn push_rate(text: &mut Vec<u8>, rate: u64) -> Result<(), AllocError>
    ensures { Appends text.old text.new result (rate_text rate) }
{
    push_number(text, rate / MICROHERTZ)?;
    let rest = rate % MICROHERTZ;
    if rest != 0 {
        text.extend_from_slice(b".")?;
        text.extend_from_slice(&six_digits(rest))?;
    }
    Ok(())
}

// Appends minutes as hours, and minutes where they aren't whole hours.
fn push_offset(text: &mut Vec<u8>, minutes: u32) -> Result<(), AllocError>
    ensures { Appends text.old text.new result (offset_text minutes) }
{
    push_number(text, u64::from(minutes / MINUTES))?;
    let rest = minutes % MINUTES;
    if rest != 0 {
        text.extend_from_slice(b"h")?;
        text.extend_from_slice(&two_digits(u64::from(rest)))?;
    }
    Ok(())
}

/// Appends a time code.
pub(crate) fn push_code(text: &mut Vec<u8>, code: i32) -> Result<(), AllocError>
    ensures { Appends text.old text.new result (code_text code) }
{
    if code < 0 {
        text.extend_from_slice(b"-")?;
    }
    push_offset(text, code.unsigned_abs())
}

/// One hexadecimal digit, a capital.
pub(crate) fn hexadecimal(n: u8) -> [u8; 1]
    requires { n < 16 }
    ensures { result ≡ hexadecimal_text n }
{
    if n < 10 { [b'0' + n] } else { [b'A' - 10 + n] }
}
