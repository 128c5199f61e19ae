// The date/time stamp lines, and the two lines of time codes and time quality of revision 2013.
ghost use Rattle.std.specs.Prelude.{◌≡◌, ◌==◌, map, IfOk, IfSome};
ghost use Rattle.std.specs.Option.{ForSome};
ghost use Rattle.pq_words.specs.Magnitude.{IsWithin};
ghost use Rattle.cfg_fields.specs.Cursor.{Takes, read_by};
ghost use Rattle.cfg_fields.specs.Fields.{Gives, hexadecimal, leap_digit, leap_field, local_code_of};
ghost use Rattle.comtrade_cfg.specs.CfgText.{HasOffset, stamp_line, time_code_line, time_quality_line, zone_lines};

use crate::cfg::Zone;
use cfg_fields::{CfgFault, Cursor, FieldLine, hexadecimal, leap_field, local_code, moment_fields};
use pq_time::read_code;
use pq_words::MOST_NANOSECONDS;
use std::alloc::Global;

/// A date/time stamp line: date and time, as written.
pub(crate) fn stamp_line(line: &FieldLine) -> Result<i64, CfgFault>
    ensures value { Gives result (read_by stamp_line line.now) }
    ensures within { IfOk result (IsWithin MOST_NANOSECONDS) }
{
    let number = line.number;
    match line.fields.as_slice() {
        [date, time] => moment_fields(number, date, time),
        _ => Err(CfgFault::Line { number }),
    }
}

/// The time code line and the time quality line, which revision 2013 alone has.
pub(crate) fn zone_lines(
    alloc: Global,
    is_2013: bool,
    cursor: &mut Cursor,
) -> Result<Option<Zone>, CfgFault>
    ensures value { Takes (λ z. z) cursor.old cursor.new result (zone_lines is_2013) }
    ensures within { IfOk result HasOffset }
{
    if !is_2013 {
        return Ok(None);
    }
    let (time_code, local_code) = time_code_line(&cursor.next_line(alloc)?)?;
    let (quality, leap) = time_quality_line(&cursor.next_line(alloc)?)?;
    Ok(Some(Zone {
        time_code,
        local_code,
        quality,
        leap,
    }))
}

// time_code and local_code, in minutes
fn time_code_line(line: &FieldLine) -> Result<(i32, Option<i32>), CfgFault>
    ensures value { Gives result (read_by time_code_line line.now) }
    ensures within { IfOk result (λ x. IsWithin 899 x.0) }
{
    let number = line.number;
    match line.fields.as_slice() {
        [time_code, local] => {
            let time_code = read_code(time_code).ok_or(CfgFault::Field {
                line: number,
                field: 1,
            })?;
            let local = local_code(local).ok_or(CfgFault::Field {
                line: number,
                field: 2,
            })?;
            Ok((time_code, local))
        }
        _ => Err(CfgFault::Line { number: number }),
    }
}

// tmq_code and leapsec
fn time_quality_line(line: &FieldLine) -> Result<(u8, u8), CfgFault>
    ensures { Gives result (read_by time_quality_line line.now) }
{
    let number = line.number;
    match line.fields.as_slice() {
        [tmq_code, leapsec] => {
            let quality = hexadecimal(tmq_code).ok_or(CfgFault::Field {
                line: number,
                field: 1,
            })?;
            let leap = leap_field(number, 2, leapsec)?;
            Ok((quality, leap))
        }
        _ => Err(CfgFault::Line { number }),
    }
}
