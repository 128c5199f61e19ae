// Printed moments.
ghost use Rattle.std.specs.Prelude.{◌≡◌, ◌++◌, ◌∷◌, []};
ghost use Rattle.pq_time.specs.Printed.{date_shown, date_view, printed_moment, since_midnight, time_at, time_text, ymd_text};
ghost use Rattle.pq_words.specs.Text.{padded};

use jiff_core::civil::Date;

const NANOSECONDS_IN_DAY: i64 = 86_400_000_000_000;

/// The moment in UTC, as `yyyy-mm-ddThh:mm:ss.nnnnnnnnnZ`.
pub fn print_moment(t: i64) -> [u8; 30]
    ensures { result ≡ printed_moment t }
{
    joined(date_text(date_on(t)), time_text(within_day(t)))
}

// The date that a clock in UTC shows.
fn date_on(t: i64) -> Date
    ensures { date_view result ≡ date_shown t }
{
    Date::from_unix_epoch_day(t.div_euclid(NANOSECONDS_IN_DAY)).unwrap()
}

// The nanoseconds since midnight in UTC.
fn within_day(t: i64) -> u64
    ensures { result ≡ since_midnight t }
{
    t.rem_euclid(NANOSECONDS_IN_DAY) as u64
}

// The date and the time of day as one text.
fn joined(date: [u8; 10], time: [u8; 18]) -> [u8; 30]
    ensures { result ≡ date ++ 84 ∷ time ++ 90 ∷ [] }
{
    let mut text = *b"yyyy-mm-ddThh:mm:ss.nnnnnnnnnZ";
    text[..10].copy_from_slice(&date);
    text[11..29].copy_from_slice(&time);
    text
}

// `yyyy-mm-dd`
fn date_text(date: Date) -> [u8; 10]
    ensures { result ≡ ymd_text (date_view date) }
{
    let year = u64::from(date.year.unsigned_abs());
    let [y0, y1] = two_digits(year / 100);
    let [y2, y3] = two_digits(year);
    let [m0, m1] = two_digits(u64::from(date.month));
    let [d0, d1] = two_digits(u64::from(date.day));
    [y0, y1, y2, y3, b'-', m0, m1, b'-', d0, d1]
}

// `hh:mm:ss.nnnnnnnnn`, at so many nanoseconds since midnight.
fn time_text(n: u64) -> [u8; 18]
    ensures { result ≡ time_text (time_at n) }
{
    let [h0, h1] = two_digits(n / 3_600_000_000_000);
    let [m0, m1] = two_digits(n / 60_000_000_000 % 60);
    let [s0, s1] = two_digits(n / 1_000_000_000 % 60);
    let [a, b, c, d, e, f, g, h, i] = nine_digits(n % 1_000_000_000);
    [
        h0, h1, b':', m0, m1, b':', s0, s1, b'.', a, b, c, d, e, f, g, h, i,
    ]
}

// The last nine digits of a number.
fn nine_digits(n: u64) -> [u8; 9]
    ensures { result ≡ padded 9 n }
{
    let [a, b, c] = three_digits(n / 1_000_000);
    let [d, e, f] = three_digits(n / 1000);
    let [g, h, i] = three_digits(n);
    [a, b, c, d, e, f, g, h, i]
}

// The last three.
fn three_digits(n: u64) -> [u8; 3]
    ensures { result ≡ padded 3 n }
{
    let [tens, ones] = two_digits(n);
    [b'0' + (n / 100 % 10) as u8, tens, ones]
}

// The last two.
fn two_digits(n: u64) -> [u8; 2]
    ensures { result ≡ padded 2 n }
{
    [b'0' + (n / 10 % 10) as u8, b'0' + (n % 10) as u8]
}
