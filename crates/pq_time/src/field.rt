// Parts of a field, and the numbers that digits write.
ghost use Rattle.std.specs.Prelude.{◌≡◌, ◌≢◌, ◌≤◌, ◌<◌, ◌∷◌, ◌==◌, ◌^◌, [], length, position, OnSome, IfSome, IfNone};
ghost use Rattle.pq_words.specs.Text.{parted_at, digits_between};

// The text before the first byte `at` and the text after it.
pub(crate) fn cut(text: &[u8], at: u8) -> Option<(&[u8], &[u8])>
    ensures value { IfSome result (λ p. parted_at at text.now ≡ p.0.now ∷ parted_at at p.1.now) }
    ensures none { IfNone result (parted_at at text.now ≡ text.now ∷ []) }
{
    match index_of(text, at) {
        Some(index) => Some((&text[..index], &text[index + 1..])),
        None => None,
    }
}

// The text in three parts between bytes `at`, where there are three.
pub(crate) fn three_parts(text: &[u8], at: u8) -> Option<(&[u8], &[u8], &[u8])>
    ensures value { IfSome result (λ p. parted_at at text.now ≡ p.0.now ∷ p.1.now ∷ p.2.now ∷ []) }
    ensures none { IfNone result (length (parted_at at text.now) ≢ 3) }
{
    let (first, rest) = cut(text, at)?;
    let (second, third) = cut(rest, at)?;
    match cut(third, at) {
        Some(_) => None,
        None => Some((first, second, third)),
    }
}

// The text in one or two parts around a byte `at`, where there are no more.
pub(crate) fn one_or_two_parts(text: &[u8], at: u8) -> Option<(&[u8], Option<&[u8]>)>
    ensures one { IfSome result (λ p. IfNone p.1 (parted_at at text.now ≡ p.0.now ∷ [])) }
    ensures two { IfSome result (λ p. IfSome p.1 (λ q. parted_at at text.now ≡ p.0.now ∷ q.now ∷ [])) }
    ensures none { IfNone result (3 ≤ length (parted_at at text.now)) }
{
    let Some((first, rest)) = cut(text, at) else {
        return Some((text, None));
    };
    match cut(rest, at) {
        Some(_) => None,
        None => Some((first, Some(rest))),
    }
}

// The number that from `least` to `most` digits write, of at most nine.
pub(crate) fn digits_between(text: &[u8], least: usize, most: usize) -> Option<u32>
    requires { most ≤ 9 }
    ensures value { result ≡ digits_between least most text.now }
    ensures digits { OnSome result ((least ≤ length text.now) × (length text.now ≤ most)) }
    ensures within { IfSome result (λ n. n < 10 ^ length text.now) }
{
    if text.len() < least || text.len() > most {
        return None;
    }
    let mut value = 0;
    for byte in text {
        if !byte.is_ascii_digit() {
            return None;
        }
        value = value * 10 + u32::from(*byte - b'0');
    }
    Some(value)
}

// The index of the first byte `at`.
fn index_of(text: &[u8], at: u8) -> Option<usize>
    ensures { result ≡ position (λ b. b == at) text.now }
{
    text.iter().position(|byte| *byte == at)
}
