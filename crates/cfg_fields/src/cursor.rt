// The place up to which a cfg is read, and the lines from there on.
ghost use Rattle.std.specs.Prelude.{◌≡◌, ◌==◌, ◌+◌, ◌<◌, ◌^◌, [], ◌∷◌, length, position, IfSome, IfNone, OnErr};
ghost use Rattle.std.specs.Str.Lines.{lines, strip_carriage_return};
ghost use Rattle.cfg_fields.specs.Fields.{Gives, only_blank_lines};

use crate::blank::is_all_blank;
use crate::fault::CfgFault;
use crate::field_line::{FieldLine, fields_of};
use std::alloc::Global;

/// The number of the next line, from 1, and the bytes from there on.
#[derive(Clone, Copy)]
pub struct Cursor<'a> {
    pub number: u32,
    pub rest: &'a [u8],
    ghost bound: { number + length rest.now < 2 ^ 32 },
}

impl<'a> Cursor<'a> {
    ghost use Rattle.cfg_fields.specs.Cursor.{TakesLine, cursor_view};

    /// Takes the next line, without its line end. A line ends with LF or CR LF, and the end of the text
    /// after a line end begins no line.
    ///
    /// # Errors
    ///
    /// [`CfgFault::Line`] with the line's number where there is none, [`CfgFault::OutOfMemory`]. The cursor
    /// stays where it was.
    pub fn next_line(&mut self, alloc: Global) -> Result<FieldLine<'a>, CfgFault>
        ensures value { TakesLine self.old self.new result }
        ensures same { OnErr result (cursor_view self.new ≡ cursor_view self.old) }
    {
        let Some((line, rest)) = first_line(self.rest) else {
            return Err(CfgFault::Line {
                number: self.number,
            });
        };
        let fields = fields_of(alloc, line)?;
        let number = self.number;
        *self = Cursor {
            number: number + 1,
            rest,
        };
        Ok(FieldLine { number, fields })
    }
}

/// Whether what stands behind the last line holds nothing but blanks.
///
/// # Errors
///
/// [`CfgFault::Line`] with the number of the first line that holds something else.
pub fn only_blank_lines(cursor: Cursor) -> Result<(), CfgFault>
    ensures { Gives result (only_blank_lines cursor.entry.number (lines cursor.entry.rest.now)) }
{
    let Cursor {
        mut number,
        mut rest,
    } = cursor;
    while let Some((line, after)) = first_line(rest) {
        if !is_all_blank(line) {
            return Err(CfgFault::Line { number });
        }
        number += 1;
        rest = after;
    }
    Ok(())
}

// The first line, and the text behind its line end.
fn first_line(text: &[u8]) -> Option<(&[u8], &[u8])>
    ensures value { IfSome result (λ p. lines text.now ≡ p.0.now ∷ lines p.1.now) }
    ensures shorter { IfSome result (λ p. length p.1.now < length text.now) }
    ensures none { IfNone result (lines text.now ≡ []) }
{
    if text.is_empty() {
        return None;
    }
    match line_feed(text) {
        Some(end) => Some((without_carriage_return(&text[..end]), &text[end + 1..])),
        None => Some((text, &[])),
    }
}

// The place of the first line feed.
fn line_feed(text: &[u8]) -> Option<usize>
    ensures value { result ≡ position (λ b. b == 10) text.now }
    ensures within { IfSome result (λ i. i < length text.now) }
{
    text.iter().position(|byte| *byte == b'\n')
}

// The line without the carriage return at its end, if it has one.
fn without_carriage_return(line: &[u8]) -> &[u8]
    ensures { result.now ≡ strip_carriage_return line.now }
{
    match line {
        [front @ .., b'\r'] => front,
        _ => line,
    }
}
