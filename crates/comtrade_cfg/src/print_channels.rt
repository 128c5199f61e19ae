// The channel lines of a canonical text.
ghost use Rattle.std.specs.Prelude.{◌≡◌, ◌∷◌, ◌++◌, ◌≤◌, length, map, decimal};
ghost use Rattle.comtrade_cfg.specs.Canonical.{Appends, analogue_fields, analogue_rows, behind_commas, ended, lines_text, numbered_text, status_fields, status_rows};

use crate::cfg::{Analogue, StatusLine};
use crate::print_number::push_number;
use cfg_fields::MOST_CHANNELS;
use std::alloc::AllocError;

// Appends fields, each behind a comma.
fn push_behind_commas(text: &mut Vec<u8>, fields: &[&[u8]]) -> Result<(), AllocError>
    ensures { Appends text.old text.new result (behind_commas (map (λ field. field.now) fields.now)) }
{
    for field in fields {
        text.extend_from_slice(b",")?;
        text.extend_from_slice(field)?;
    }
    Ok(())
}

// Appends the line of the analogue channel at a position.
fn push_analogue_line(
    text: &mut Vec<u8>,
    position: u64,
    channel: &Analogue,
) -> Result<(), AllocError>
    ensures { Appends text.old text.new result (numbered_text position (analogue_fields channel.now)) }
{
    let fields = [
        channel.id.bytes(),
        channel.phase.bytes(),
        channel.component.bytes(),
        channel.unit.bytes(),
        channel.a.bytes(),
        channel.b.bytes(),
        channel.skew.bytes(),
        channel.least.bytes(),
        channel.greatest.bytes(),
        channel.primary.bytes(),
        channel.secondary.bytes(),
        channel.side.bytes(),
    ];
    push_number(text, position)?;
    push_behind_commas(text, &fields)?;
    text.extend_from_slice(b"\r\n")?;
    Ok(())
}

// Appends the line of the status channel at a position.
fn push_status_line(
    text: &mut Vec<u8>,
    position: u64,
    channel: &StatusLine,
) -> Result<(), AllocError>
    ensures { Appends text.old text.new result (numbered_text position (status_fields channel.now)) }
{
    let fields = [
        channel.id.bytes(),
        channel.phase.bytes(),
        channel.component.bytes(),
        channel.normal.bytes(),
    ];
    push_number(text, position)?;
    push_behind_commas(text, &fields)?;
    text.extend_from_slice(b"\r\n")?;
    Ok(())
}

/// Appends the analogue channel lines.
pub(crate) fn push_analogue(text: &mut Vec<u8>, channels: &[Analogue]) -> Result<(), AllocError>
    requires { length channels.now ≤ MOST_CHANNELS }
    ensures { Appends text.old text.new result (lines_text (analogue_rows channels.now)) }
{
    let mut position = 1;
    for channel in channels {
        push_analogue_line(text, position, channel)?;
        position += 1;
    }
    Ok(())
}

/// Appends the status channel lines.
pub(crate) fn push_status(text: &mut Vec<u8>, channels: &[StatusLine]) -> Result<(), AllocError>
    requires { length channels.now ≤ MOST_CHANNELS }
    ensures { Appends text.old text.new result (lines_text (status_rows channels.now)) }
{
    let mut position = 1;
    for channel in channels {
        push_status_line(text, position, channel)?;
        position += 1;
    }
    Ok(())
}
