// The channel lines.
ghost use Rattle.std.specs.Prelude.{◌≡◌, ◌<◌, ◌≤◌, [], length, slice_index_or, map};
ghost use Rattle.cfg_fields.specs.Cursor.{Takes, read_by};
ghost use Rattle.cfg_fields.specs.Fields.{Gives, on_line};
ghost use Rattle.comtrade_cfg.specs.CfgText.{analogue_line, analogue_lines, fields_of_analogue, status_fields, status_line, status_lines};

use crate::cfg::{Analogue, StatusLine};
use cfg_fields::{
    CfgFault, Cursor, FieldLine, MOST_CHANNELS, decimal_text, position_field, text_field,
};
use std::alloc::Global;

// An, id, phase, component, unit, a, b, skew, min, max, primary, secondary and PS
#[derive(Clone, Copy)]
struct AnalogueFields<'a> {
    an: &'a [u8],
    id: &'a [u8],
    phase: &'a [u8],
    component: &'a [u8],
    unit: &'a [u8],
    a: &'a [u8],
    b: &'a [u8],
    skew: &'a [u8],
    min: &'a [u8],
    max: &'a [u8],
    primary: &'a [u8],
    secondary: &'a [u8],
    ps: &'a [u8],
}

/// The analogue channel lines.
pub(crate) fn analogue_lines(
    alloc: Global,
    count: u32,
    cursor: &mut Cursor,
) -> Result<Vec<Analogue>, CfgFault>
    requires { count ≤ MOST_CHANNELS }
    ensures { Takes (λ v. v.items) cursor.old cursor.new result (analogue_lines count) }
{
    let mut channels = Vec::with_capacity(alloc, count as usize)?;
    for index in 0..count {
        let channel = next_analogue(alloc, index + 1, cursor)?;
        channels.push(channel)?;
    }
    Ok(channels)
}

/// The status channel lines.
pub(crate) fn status_lines(
    alloc: Global,
    count: u32,
    cursor: &mut Cursor,
) -> Result<Vec<StatusLine>, CfgFault>
    requires { count ≤ MOST_CHANNELS }
    ensures { Takes (λ v. v.items) cursor.old cursor.new result (status_lines count) }
{
    let mut channels = Vec::with_capacity(alloc, count as usize)?;
    for index in 0..count {
        let channel = next_status(alloc, index + 1, cursor)?;
        channels.push(channel)?;
    }
    Ok(channels)
}

fn next_analogue(alloc: Global, position: u32, cursor: &mut Cursor) -> Result<Analogue, CfgFault>
    ensures { Takes (λ ch. ch) cursor.old cursor.new result (on_line (analogue_line position)) }
{
    analogue_line(alloc, position, &cursor.next_line(alloc)?)
}

fn next_status(alloc: Global, position: u32, cursor: &mut Cursor) -> Result<StatusLine, CfgFault>
    ensures { Takes (λ ch. ch) cursor.old cursor.new result (on_line (status_line position)) }
{
    status_line(alloc, position, &cursor.next_line(alloc)?)
}

fn analogue_line(alloc: Global, position: u32, line: &FieldLine) -> Result<Analogue, CfgFault>
    ensures { Gives result (read_by (analogue_line position) line.now) }
{
    let fields = line.fields.as_slice();
    if fields.len() != 13 {
        return Err(CfgFault::Line {
            number: line.number,
        });
    }
    let fields = AnalogueFields {
        an: field_at(fields, 0),
        id: field_at(fields, 1),
        phase: field_at(fields, 2),
        component: field_at(fields, 3),
        unit: field_at(fields, 4),
        a: field_at(fields, 5),
        b: field_at(fields, 6),
        skew: field_at(fields, 7),
        min: field_at(fields, 8),
        max: field_at(fields, 9),
        primary: field_at(fields, 10),
        secondary: field_at(fields, 11),
        ps: field_at(fields, 12),
    };
    analogue_of(alloc, position, line.number, &fields)
}

// The text of a field, by its index from 0.
fn field_at<'a>(fields: &[&'a [u8]], index: usize) -> &'a [u8]
    requires { index < length fields.now }
    ensures { result.now ≡ slice_index_or (map (λ field. field.now) fields.now) index [] }
{
    fields[index]
}

#[tactic(auto, unfolding(crate::specs::CfgText::analogue_fields))]
fn analogue_of(
    alloc: Global,
    position: u32,
    line: u32,
    fields: &AnalogueFields,
) -> Result<Analogue, CfgFault>
    ensures { Gives result (fields_of_analogue position line fields.now) }
{
    position_field(position, line, 1, fields.an)?;
    let id = text_field(alloc, line, 2, fields.id)?;
    let phase = text_field(alloc, line, 3, fields.phase)?;
    let component = text_field(alloc, line, 4, fields.component)?;
    let unit = text_field(alloc, line, 5, fields.unit)?;
    let a = decimal_text(alloc, line, 6, fields.a)?;
    let b = decimal_text(alloc, line, 7, fields.b)?;
    let skew = text_field(alloc, line, 8, fields.skew)?;
    let least = text_field(alloc, line, 9, fields.min)?;
    let greatest = text_field(alloc, line, 10, fields.max)?;
    let primary = text_field(alloc, line, 11, fields.primary)?;
    let secondary = text_field(alloc, line, 12, fields.secondary)?;
    let side = text_field(alloc, line, 13, fields.ps)?;
    Ok(Analogue {
        id,
        phase,
        component,
        unit,
        a,
        b,
        skew,
        least,
        greatest,
        primary,
        secondary,
        side,
    })
}

fn status_line(alloc: Global, position: u32, line: &FieldLine) -> Result<StatusLine, CfgFault>
    ensures { Gives result (read_by (status_line position) line.now) }
{
    match line.fields.as_slice() {
        [dn, id, phase, component, normal] => status_fields(
            alloc,
            position,
            line.number,
            dn,
            id,
            phase,
            component,
            normal,
        ),
        _ => Err(CfgFault::Line {
            number: line.number,
        }),
    }
}

// Dn, id, phase, component and normal
#[tactic(auto, unfolding(crate::specs::CfgText::status_fields))]
fn status_fields(
    alloc: Global,
    position: u32,
    line: u32,
    dn: &[u8],
    id: &[u8],
    phase: &[u8],
    component: &[u8],
    normal: &[u8],
) -> Result<StatusLine, CfgFault>
    ensures { Gives result (status_fields position line dn.now id.now phase.now component.now normal.now) }
{
    position_field(position, line, 1, dn)?;
    let id = text_field(alloc, line, 2, id)?;
    let phase = text_field(alloc, line, 3, phase)?;
    let component = text_field(alloc, line, 4, component)?;
    let normal = text_field(alloc, line, 5, normal)?;
    Ok(StatusLine {
        id,
        phase,
        component,
        normal,
    })
}
