// The recording that a cfg and a dat make.
ghost use Rattle.std.specs.Prelude.{◌≡◌, [], IfErr, IfOk, IsErrOf, OnErr, option_map};
ghost use Rattle.comtrade_cfg.specs.Selecting.{wanted_view};
ghost use Rattle.pq_course.specs.TopCall.{reading_of};
ghost use Rattle.pq_run.specs.RecordingFiles.{GivesDat, HasReadDat, IsRecordingRead, IsSelectedConfiguration, selected_cfg_view};
ghost use Rattle.status_text.specs.Refusals.{IsRefusing};
ghost use Rattle.status_text.specs.declared.status.Status.TheVariants as status;

use crate::selected_cfg::{SelectedCfg, selected_cfg};
use command_words::Measuring;
use comtrade_dat::{DatReader, Taking};
use pq_base::{Recording, Shelf};
use pq_course::{InputFile, feed_dat, read_file};
use status_text::Status;
use std::alloc::Global;

/// The recording of a measurement's files. The cfg is judged before the dat is asked for, and both are given
/// back.
pub fn read_recording<T: Taking, K: Shelf>(
    alloc: Global,
    taking: &T,
    measuring: &Measuring<'_>,
    shelf: &mut K,
) -> Result<Recording, Status>
    requires { T.is_ready taking.now }
    ensures value { IsRecordingRead measuring.now (reading_of K.Shelf shelf.old shelf.new) result }
    ensures files { K.files shelf.new ≡ K.files shelf.old }
{
    let cfg = read_file(alloc, shelf, InputFile::Cfg, measuring.cfg)?;
    let wanted = wanted_numbers(&measuring.channels);
    let selected = selected_cfg(alloc, cfg.bytes(), wanted, measuring.reference)?;
    let mut reader = dat_reader(alloc, &selected)?;
    feed_dat(alloc, taking, shelf, measuring.dat, &mut reader)?;
    dat_recording(alloc, reader)
}

// The numbers of the channels that are wanted.
fn wanted_numbers(channels: &Option<Vec<u32>>) -> Option<&[u32]>
    ensures { wanted_view result ≡ option_map (λ numbers. numbers.items) channels.now }
{
    match channels {
        Some(numbers) => Some(numbers.as_slice()),
        None => None,
    }
}

// A reader for the dat of a cfg, which has been fed nothing.
fn dat_reader(alloc: Global, selected: &SelectedCfg) -> Result<DatReader<'_>, Status>
    requires { IsSelectedConfiguration (selected_cfg_view selected.now) }
    ensures fed { IfOk result (HasReadDat (selected_cfg_view selected.now) []) }
    ensures err { OnErr result (IsErrOf result status.OutOfMemory) }
{
    let reader = DatReader::open(alloc, &selected.cfg, &selected.selection)?;
    Ok(reader)
}

// The recording that the dat makes which a reader was fed, or the dat's refusal.
fn dat_recording(alloc: Global, reader: DatReader<'_>) -> Result<Recording, Status>
    ensures value { GivesDat reader.entry result }
    ensures refuses { IfErr result IsRefusing }
{
    let recording = reader.finish(alloc)?;
    Ok(recording)
}
