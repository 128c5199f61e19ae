// Bytes cut at a separator, and a row cut into its fields.
ghost use Rattle.std.specs.Prelude.{◌≡◌, ◌∷◌, ◌==◌, ◌<◌, ◌≤◌, [], false, length, position, IfNone, IfSome};
ghost use Rattle.pq_report.specs.ReportReading.{are_ten, field_list};
ghost use Rattle.pq_words.specs.Text.{parted_at};

// The fields of a row.
#[derive(Clone, Copy)]
pub(crate) struct RowFields<'a> {
    pub(crate) kind: &'a [u8],
    pub(crate) channel: &'a [u8],
    pub(crate) start: &'a [u8],
    pub(crate) end: &'a [u8],
    pub(crate) from: &'a [u8],
    pub(crate) to: &'a [u8],
    pub(crate) tick: &'a [u8],
    pub(crate) value: &'a [u8],
    pub(crate) count: &'a [u8],
    pub(crate) mark: &'a [u8],
}

// The fields of a row, where there are ten.
pub(crate) fn ten_fields(row: &[u8]) -> Option<RowFields<'_>>
    ensures value { IfSome result (λ fields. parted_at 44 row.now ≡ field_list fields) }
    ensures none { IfNone result (are_ten (parted_at 44 row.now) ≡ false) }
{
    let (kind, channel, start, rest) = three_fields(row)?;
    let (end, from, to, rest) = three_fields(rest)?;
    let (tick, value, count, mark) = three_fields(rest)?;
    match cut(mark, b',') {
        Some(_) => None,
        None => Some(RowFields {
            kind,
            channel,
            start,
            end,
            from,
            to,
            tick,
            value,
            count,
            mark,
        }),
    }
}

// The bytes before the first byte `at` and those after it.
pub(crate) fn cut(text: &[u8], at: u8) -> Option<(&[u8], &[u8])>
    ensures value { IfSome result (λ p. parted_at at text.now ≡ p.0.now ∷ parted_at at p.1.now) }
    ensures shorter { IfSome result (λ p. length p.1.now < length text.now) }
    ensures none { IfNone result (parted_at at text.now ≡ text.now ∷ []) }
{
    match index_of(text, at) {
        Some(index) => Some((&text[..index], &text[index + 1..])),
        None => None,
    }
}

// The place of the first byte `at`.
fn index_of(text: &[u8], at: u8) -> Option<usize>
    ensures value { result ≡ position (λ b. b == at) text.now }
    ensures within { IfSome result (λ i. i < length text.now) }
{
    text.iter().position(|byte| *byte == at)
}

// The first three fields, and the bytes after them.
fn three_fields(text: &[u8]) -> Option<(&[u8], &[u8], &[u8], &[u8])>
    ensures value { IfSome result
        (λ p. parted_at 44 text.now ≡ p.0.now ∷ p.1.now ∷ p.2.now ∷ parted_at 44 p.3.now) }
    ensures none { IfNone result (length (parted_at 44 text.now) ≤ 3) }
{
    let (first, rest) = cut(text, b',')?;
    let (second, rest) = cut(rest, b',')?;
    let (third, rest) = cut(rest, b',')?;
    Some((first, second, third, rest))
}
