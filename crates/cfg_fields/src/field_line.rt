// A line by its number and its fields.
ghost use Rattle.std.specs.Prelude.{◌≡◌, ◌==◌, ◌<◌, [], ◌∷◌, length, position, map, IfSome, IfNone, IfOk, OnErr, IsErrOf};
ghost use Rattle.pq_words.specs.Text.{trimmed};
ghost use Rattle.cfg_fields.specs.Fields.{fields_of};
ghost use Rattle.cfg_fields.specs.declared.fault.CfgFault.TheVariants as fault;

use crate::blank::trimmed;
use crate::fault::CfgFault;
use std::alloc::Global;

/// A line: its number, from 1, and its fields, which stand between its commas, without blanks at both ends.
#[derive(Drop)]
pub struct FieldLine<'a> {
    pub number: u32,
    pub fields: Vec<&'a [u8]>,
}

// What stands between the commas of a line, without blanks at both ends.
pub(crate) fn fields_of(alloc: Global, line: &[u8]) -> Result<Vec<&[u8]>, CfgFault>
    ensures value { IfOk result (λ fields. map (λ field. field.now) fields.items ≡ fields_of line.now) }
    ensures err { OnErr result (IsErrOf result fault.OutOfMemory) }
{
    let mut fields = Vec::new(alloc);
    let mut rest = line;
    while let Some((field, after)) = first_field(rest) {
        fields.push(field)?;
        rest = after;
    }
    fields.push(trimmed(rest))?;
    Ok(fields)
}

// The first field without blanks, and the text behind its comma.
fn first_field(text: &[u8]) -> Option<(&[u8], &[u8])>
    ensures value { IfSome result (λ p. fields_of text.now ≡ p.0.now ∷ fields_of p.1.now) }
    ensures shorter { IfSome result (λ p. length p.1.now < length text.now) }
    ensures none { IfNone result (fields_of text.now ≡ trimmed text.now ∷ []) }
{
    match comma(text) {
        Some(end) => Some((trimmed(&text[..end]), &text[end + 1..])),
        None => None,
    }
}

// The place of the first comma.
fn comma(text: &[u8]) -> Option<usize>
    ensures value { result ≡ position (λ b. b == 44) text.now }
    ensures within { IfSome result (λ i. i < length text.now) }
{
    text.iter().position(|byte| *byte == b',')
}
