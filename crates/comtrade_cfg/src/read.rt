// Reading a cfg.
ghost use Rattle.std.specs.Prelude.{◌≡◌, IfErr, IfOk};
ghost use Rattle.pq_words.specs.Magnitude.{IsWithin};
ghost use Rattle.cfg_fields.specs.Cursor.{cursor_view};
ghost use Rattle.cfg_fields.specs.declared.fault.CfgFault.TheVariants as fault;
ghost use Rattle.comtrade_cfg.specs.CfgText.{GivesCfg, HasOffset, configuration_ahead, configuration_of, lines_behind, offset_of};
ghost use Rattle.comtrade_cfg.specs.Configuration.{Configuration, cfg_view};
ghost use Rattle.comtrade_cfg.specs.Grammar.{IsCfgText};

use crate::cfg::{Analogue, Cfg, StatusLine, Zone};
use crate::channel_lines::{analogue_lines, status_lines};
use crate::form_lines::{file_type_line, timemult_line};
use crate::head_lines::{Station, counts_line, station_line};
use crate::limits::MOST_CFG_BYTES;
use crate::sampling_lines::{frequency_line, rates_line, sampling_line};
use crate::time_lines::{stamp_line, zone_lines};
use cfg_fields::{CfgFault, Cursor, Quantity, only_blank_lines};
use pq_time::to_utc;
use std::alloc::Global;

/// Reads a configuration of COMTRADE, revision 1999 or 2013. It takes memory for its lines and texts.
///
/// # Errors
///
/// The first fault in this order: more than 1,048,576 bytes; then line by line, and in a line a wrong
/// number of fields, and the fields from left to right, where the total of line 2 is judged last;
/// within a field one that is not readable, then one that is not supported, then a limit. Lines and
/// fields count from 1. [`CfgFault::OutOfMemory`] may come at any place.
pub fn read_cfg(alloc: Global, bytes: &[u8]) -> Result<Cfg, CfgFault>
    ensures value { GivesCfg result (configuration_of bytes.now) }
    ensures found { IfOk result (λ cfg. IsCfgText bytes.now (cfg_view cfg)) }
    ensures only { (c : Configuration) → IsCfgText bytes.now c → IfErr result (λ e. e ≡ fault.OutOfMemory) }
{
    read(alloc, bytes)
}

// The configuration of a text, or its first fault.
#[tactic(auto, unfolding(crate::specs::CfgText::configuration_of))]
fn read(alloc: Global, bytes: &[u8]) -> Result<Cfg, CfgFault>
    ensures { GivesCfg result (configuration_of bytes.now) }
{
    if bytes.len() > MOST_CFG_BYTES {
        return Err(CfgFault::Limit {
            what: Quantity::CfgBytes,
            line: 0,
        });
    }
    read_lines(
        alloc,
        Cursor {
            number: 1,
            rest: bytes,
        },
    )
}

// All lines in order.
#[tactic(auto, unfolding(crate::specs::CfgText::configuration_ahead))]
fn read_lines(alloc: Global, mut cursor: Cursor) -> Result<Cfg, CfgFault>
    ensures { GivesCfg result (configuration_ahead (cursor_view cursor.entry)) }
{
    let station = station_line(alloc, &cursor.next_line(alloc)?)?;
    let counts = counts_line(&cursor.next_line(alloc)?)?;
    let analogue = analogue_lines(alloc, counts.analogue, &mut cursor)?;
    let status = status_lines(alloc, counts.status, &mut cursor)?;
    read_behind(alloc, station, analogue, status, cursor)
}

// The lines behind the channels.
#[tactic(auto, unfolding(crate::specs::CfgText::lines_behind))]
fn read_behind(
    alloc: Global,
    station: Station,
    analogue: Vec<Analogue>,
    status: Vec<StatusLine>,
    mut cursor: Cursor,
) -> Result<Cfg, CfgFault>
    ensures { GivesCfg result (lines_behind station analogue.items status.items (cursor_view cursor.entry)) }
{
    let lf = frequency_line(&cursor.next_line(alloc)?)?;
    let _rates = rates_line(&cursor.next_line(alloc)?)?;
    let sampling = sampling_line(lf, &cursor.next_line(alloc)?)?;
    let first = stamp_line(&cursor.next_line(alloc)?)?;
    let trigger = stamp_line(&cursor.next_line(alloc)?)?;
    let file_type = file_type_line(&cursor.next_line(alloc)?)?;
    let timemult = timemult_line(alloc, &cursor.next_line(alloc)?)?;
    let zone = zone_lines(alloc, station.revision == 2013, &mut cursor)?;
    only_blank_lines(cursor)?;
    let offset = offset_of(&zone);
    Ok(Cfg {
        station: station.station,
        device: station.device,
        revision: station.revision,
        analogue,
        status,
        lf,
        rate: sampling.rate,
        endsamp: sampling.endsamp,
        first: to_utc(first, offset),
        trigger: to_utc(trigger, offset),
        file_type,
        timemult,
        zone,
    })
}

// The offset of the written moments from UTC, in minutes: a file of 1999 is taken as UTC.
fn offset_of(zone: &Option<Zone>) -> i32
    requires { HasOffset zone.now }
    ensures value { result ≡ offset_of zone.now }
    ensures within { IsWithin 899 result }
{
    match zone {
        Some(zone) => zone.time_code,
        None => 0,
    }
}
