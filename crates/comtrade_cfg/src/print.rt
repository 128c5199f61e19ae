// Printing a cfg.
ghost use Rattle.std.specs.Prelude.{◌≡◌, ◌<◌, ◌≤◌, length, IfOk};
ghost use Rattle.std.specs.Option.{ForSome};
ghost use Rattle.pq_words.specs.Magnitude.{IsWithin};
ghost use Rattle.comtrade_cfg.specs.Canonical.{Appends, SaysAgain, canonical_text, counts_row, ended, file_type_text, form_rows, lines_text, local_code_text, sampling_rows, stamp_rows, station_row, zone_rows};
ghost use Rattle.comtrade_cfg.specs.CfgText.{IsConfiguration, offset_of};
ghost use Rattle.comtrade_cfg.specs.Configuration.{cfg_view};

use crate::cfg::{Cfg, FileType, Zone};
use crate::print_channels::{push_analogue, push_status};
use crate::print_number::{hexadecimal, push_code, push_number, push_rate};
use crate::print_stamp::push_stamp_line;
use cfg_fields::MOST_CHANNELS;
use pq_base::{OutOfMemory, Text};
use pq_words::MOST_NANOSECONDS;
use std::alloc::{AllocError, Global};

// Each line of a canonical text ends so.
const LINE_END: &[u8] = b"\r\n";

// Station, device and revision.
fn push_station(text: &mut Vec<u8>, cfg: &Cfg) -> Result<(), AllocError>
    ensures { Appends text.old text.new result (ended (station_row (cfg_view cfg.now))) }
{
    text.extend_from_slice(cfg.station.bytes())?;
    text.extend_from_slice(b",")?;
    text.extend_from_slice(cfg.device.bytes())?;
    text.extend_from_slice(b",")?;
    push_number(text, u64::from(cfg.revision))?;
    text.extend_from_slice(LINE_END)?;
    Ok(())
}

// TT, nA and nD.
fn push_counts(text: &mut Vec<u8>, analogue: usize, status: usize) -> Result<(), AllocError>
    requires analogue { analogue ≤ MOST_CHANNELS }
    requires status { status ≤ MOST_CHANNELS }
    ensures { Appends text.old text.new result (ended (counts_row analogue status)) }
{
    push_number(text, (analogue + status) as u64)?;
    text.extend_from_slice(b",")?;
    push_number(text, analogue as u64)?;
    text.extend_from_slice(b"A,")?;
    push_number(text, status as u64)?;
    text.extend_from_slice(b"D\r\n")?;
    Ok(())
}

// lf, nrates, and samp with endsamp.
fn push_sampling(text: &mut Vec<u8>, cfg: &Cfg) -> Result<(), AllocError>
    ensures { Appends text.old text.new result (lines_text (sampling_rows (cfg_view cfg.now))) }
{
    push_number(text, u64::from(cfg.lf))?;
    text.extend_from_slice(LINE_END)?;
    push_number(text, 1)?;
    text.extend_from_slice(LINE_END)?;
    push_rate(text, cfg.rate)?;
    text.extend_from_slice(b",")?;
    push_number(text, cfg.endsamp)?;
    text.extend_from_slice(LINE_END)?;
    Ok(())
}

// The offset of written moments from UTC, in minutes.
fn offset(zone: Option<Zone>) -> i32
    ensures { result ≡ offset_of zone }
{
    match zone {
        Some(zone) => zone.time_code,
        None => 0,
    }
}

// Date and time of the first sample and of the trigger.
fn push_stamps(text: &mut Vec<u8>, cfg: &Cfg) -> Result<(), AllocError>
    requires first { IsWithin MOST_NANOSECONDS cfg.now.first }
    requires trigger { IsWithin MOST_NANOSECONDS cfg.now.trigger }
    requires zone { IsWithin 899 (offset_of cfg.now.zone) }
    ensures { Appends text.old text.new result (lines_text (stamp_rows (cfg_view cfg.now))) }
{
    let minutes = offset(cfg.zone);
    push_stamp_line(text, cfg.first, minutes)?;
    push_stamp_line(text, cfg.trigger, minutes)?;
    Ok(())
}

// The file type in capitals.
fn file_type(file_type: FileType) -> &'static [u8]
    ensures { result.now ≡ file_type_text file_type }
{
    match file_type {
        FileType::Binary => b"BINARY",
    }
}

// ft and timemult.
fn push_form(text: &mut Vec<u8>, cfg: &Cfg) -> Result<(), AllocError>
    ensures { Appends text.old text.new result (lines_text (form_rows (cfg_view cfg.now))) }
{
    text.extend_from_slice(file_type(cfg.file_type))?;
    text.extend_from_slice(LINE_END)?;
    text.extend_from_slice(cfg.timemult.bytes())?;
    text.extend_from_slice(LINE_END)?;
    Ok(())
}

// A time code, or `x` where there is none.
fn push_local_code(text: &mut Vec<u8>, code: Option<i32>) -> Result<(), AllocError>
    ensures { Appends text.old text.new result (local_code_text code) }
{
    match code {
        Some(code) => push_code(text, code),
        None => text.extend_from_slice(b"x"),
    }
}

// time_code and local_code, tmq_code and leapsec, in revision 2013 alone.
fn push_zone(text: &mut Vec<u8>, zone: Option<Zone>) -> Result<(), AllocError>
    requires { ForSome zone (λ z. z.quality < 16) }
    ensures { Appends text.old text.new result (lines_text (zone_rows zone)) }
{
    let Some(zone) = zone else {
        return Ok(());
    };
    push_code(text, zone.time_code)?;
    text.extend_from_slice(b",")?;
    push_local_code(text, zone.local_code)?;
    text.extend_from_slice(LINE_END)?;
    text.extend_from_slice(&hexadecimal(zone.quality))?;
    text.extend_from_slice(b",")?;
    push_number(text, u64::from(zone.leap))?;
    text.extend_from_slice(LINE_END)?;
    Ok(())
}

// The canonical text, line after line.
fn canonical(alloc: Global, cfg: &Cfg) -> Result<Vec<u8>, AllocError>
    requires { IsConfiguration (cfg_view cfg.now) }
    ensures { IfOk result (λ text. text.items ≡ canonical_text (cfg_view cfg.now)) }
{
    let mut text = Vec::new(alloc);
    push_station(&mut text, cfg)?;
    push_counts(&mut text, cfg.analogue.len(), cfg.status.len())?;
    push_analogue(&mut text, &cfg.analogue)?;
    push_status(&mut text, &cfg.status)?;
    push_sampling(&mut text, cfg)?;
    push_stamps(&mut text, cfg)?;
    push_form(&mut text, cfg)?;
    push_zone(&mut text, cfg.zone)?;
    Ok(text)
}

/// The canonical text of a cfg: its lines with trimmed fields, each ended by CR LF, numbers without
/// leading zeros, moments as written at the offset of its time code. Within the limit of a cfg's bytes
/// it says this cfg again. [`OutOfMemory`] where memory is short.
pub fn print_cfg(alloc: Global, cfg: &Cfg) -> Result<Text, OutOfMemory>
    requires { IsConfiguration (cfg_view cfg.now) }
    ensures value { IfOk result (λ text. text ≡ canonical_text (cfg_view cfg.now)) }
    ensures reads_back { IfOk result (SaysAgain (cfg_view cfg.now)) }
{
    match canonical(alloc, cfg) {
        Ok(bytes) => Ok(Text::new(bytes)),
        Err(AllocError) => Err(OutOfMemory),
    }
}
