// Bytes cut at a separator, and a text cut into its lines.
ghost use Rattle.std.specs.Prelude.{◌≡◌, ◌∷◌, ◌==◌, ◌<◌, [], length, position, IfNone, IfSome};
ghost use Rattle.std.specs.Str.Lines.{lines, strip_carriage_return};
ghost use Rattle.pq_words.specs.Text.{parted_at};

// The first line of a text and what stands behind it, where there is one.
pub(crate) fn first_line(text: &[u8]) -> Option<(&[u8], &[u8])>
    ensures value { IfSome result (λ p. lines text.now ≡ p.0.now ∷ lines p.1.now) }
    ensures shorter { IfSome result (λ p. length p.1.now < length text.now) }
    ensures none { IfNone result (lines text.now ≡ []) }
{
    match cut(text, b'\n') {
        Some((line, rest)) => Some((without_carriage_return(line), rest)),
        None => last_line(text),
    }
}

// A text without a line end: a line, unless it is empty.
fn last_line(text: &[u8]) -> Option<(&[u8], &[u8])>
    requires { parted_at 10 text.now ≡ text.now ∷ [] }
    ensures value { IfSome result (λ p. lines text.now ≡ p.0.now ∷ lines p.1.now) }
    ensures shorter { IfSome result (λ p. length p.1.now < length text.now) }
    ensures none { IfNone result (lines text.now ≡ []) }
{
    if text.is_empty() {
        None
    } else {
        Some((text, &[]))
    }
}

// A line without the carriage return at its end, if it has one.
fn without_carriage_return(line: &[u8]) -> &[u8]
    ensures { result.now ≡ strip_carriage_return line.now }
{
    match line.split_last() {
        Some((b'\r', front)) => front,
        _ => line,
    }
}

// The bytes before the first byte `at` and those after it.
pub(crate) fn cut(text: &[u8], at: u8) -> Option<(&[u8], &[u8])>
    ensures value { IfSome result (λ p. parted_at at text.now ≡ p.0.now ∷ parted_at at p.1.now) }
    ensures shorter { IfSome result (λ p. length p.1.now < length text.now) }
    ensures none { IfNone result (parted_at at text.now ≡ text.now ∷ []) }
{
    match index_of(text, at) {
        Some(index) => Some((&text[..index], &text[index + 1..])),
        None => None,
    }
}

// The place of the first byte `at`.
fn index_of(text: &[u8], at: u8) -> Option<usize>
    ensures value { result ≡ position (λ b. b == at) text.now }
    ensures within { IfSome result (λ i. i < length text.now) }
{
    text.iter().position(|byte| *byte == at)
}
