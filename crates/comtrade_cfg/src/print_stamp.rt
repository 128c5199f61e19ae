// The date and the time of a moment as a cfg writes them, appended to a text.
ghost use Rattle.std.specs.Prelude.{◌≡◌, ◌++◌, ◌*◌, ◌^◌};
ghost use Rattle.pq_words.specs.Magnitude.{IsWithin};
ghost use Rattle.pq_time.specs.Moment.{written_of};
ghost use Rattle.pq_time.specs.Printed.{date_shown, time_shown};
ghost use Rattle.comtrade_cfg.specs.Canonical.{Appends, date_text, ended, stamp_text, time_text};

use pq_time::print_moment;
use pq_words::MOST_NANOSECONDS;
use std::alloc::AllocError;

const NANOSECONDS_IN_MINUTE: i64 = 60_000_000_000;

// The written moment of a moment in UTC, at an offset in minutes.
fn written_of(utc: i64, minutes: i32) -> i64
    requires utc { IsWithin MOST_NANOSECONDS utc }
    requires minutes { IsWithin 899 minutes }
    ensures { result ≡ written_of utc minutes }
{
    utc + i64::from(minutes) * NANOSECONDS_IN_MINUTE
}

// Appends `dd/mm/yyyy`.
fn push_date(text: &mut Vec<u8>, written: i64) -> Result<(), AllocError>
    ensures { Appends text.old text.new result (date_text (date_shown written)) }
{
    let shown = print_moment(written);
    text.extend_from_slice(&shown[8..10])?;
    text.extend_from_slice(b"/")?;
    text.extend_from_slice(&shown[5..7])?;
    text.extend_from_slice(b"/")?;
    text.extend_from_slice(&shown[..4])?;
    Ok(())
}

// Appends `hh:mm:ss` with six digits after the point, or nine where the last three aren't 0.
fn push_time(text: &mut Vec<u8>, written: i64) -> Result<(), AllocError>
    ensures { Appends text.old text.new result (time_text (time_shown written)) }
{
    let shown = print_moment(written);
    text.extend_from_slice(&shown[11..26])?;
    if !shown.ends_with(b"000Z") {
        text.extend_from_slice(&shown[26..29])?;
    }
    Ok(())
}

// Appends the date and the time of a written moment.
fn push_stamp(text: &mut Vec<u8>, written: i64) -> Result<(), AllocError>
    ensures { Appends text.old text.new result (stamp_text written) }
{
    push_date(text, written)?;
    text.extend_from_slice(b",")?;
    push_time(text, written)
}

/// Appends the date/time stamp line of a moment in UTC, as it is written at an offset in minutes.
pub(crate) fn push_stamp_line(text: &mut Vec<u8>, utc: i64, minutes: i32) -> Result<(), AllocError>
    requires utc { IsWithin MOST_NANOSECONDS utc }
    requires minutes { IsWithin 899 minutes }
    ensures { Appends text.old text.new result (ended (stamp_text (written_of utc minutes))) }
{
    push_stamp(text, written_of(utc, minutes))?;
    text.extend_from_slice(b"\r\n")?;
    Ok(())
}
