// The reader of a dat that comes in pieces.
ghost use Rattle.std.specs.Prelude.{◌≡◌, ◌+◌, ◌*◌, ◌^◌, ◌<◌, ◌≤◌, ℕ, [], ◌++◌, All, IfOk, IsErrOf, OnErr, OnOk, length, map};
ghost use Rattle.cfg_fields.specs.declared.limits.TheConstants.{MOST_CHANNELS};
ghost use Rattle.comtrade_cfg.specs.CfgText.{IsConfiguration};
ghost use Rattle.comtrade_cfg.specs.Configuration.{cfg_view};
ghost use Rattle.comtrade_cfg.specs.Selecting.{IsSelected, selection_view};
ghost use Rattle.comtrade_dat.specs.DatReader.{FeedsOn, GivesAllFed, GivesWhole, HasNoMemory, HasRead, IsOfWhole};
ghost use Rattle.comtrade_dat.specs.Samples.{record_size};
ghost use Rattle.comtrade_dat.specs.declared.dat_fault.DatFault.TheVariants as fault;

use crate::dat_fault::DatFault;
use crate::decoded::{Decoded, samples, unread_channels};
use crate::progress::Progress;
use crate::run_start::RunStart;
use crate::taking::Taking;
use comtrade_cfg::{Cfg, Selection};
use pq_base::{OutOfMemory, Recording};
use std::alloc::Global;
use std::marker::Model;

/// The reader of a dat. It keeps the samples so far and less than a record of the bytes.
#[derive(Drop)]
pub struct DatReader<'c> {
    cfg: &'c Cfg,
    selection: &'c Selection,
    progress: Progress,
}

impl<'c> Model for DatReader<'c> {
    ghost use Rattle.comtrade_cfg.specs.Configuration.{cfg_view};
    ghost use Rattle.comtrade_cfg.specs.Selecting.{selection_view};
    ghost use Rattle.comtrade_dat.specs.DatReader.{DatReading, IsReader};

    ghost Value = { DatReading };

    ghost view = { λ r. record {
      configuration = cfg_view r.cfg.now;
      selected = selection_view r.selection.now;
      progress = r.progress;
    } };

    ghost invariant = { λ r. IsReader (record {
      configuration = cfg_view r.cfg.now;
      selected = selection_view r.selection.now;
      progress = r.progress;
    }) };
}

impl<'c> DatReader<'c> {
    /// A reader under a cfg and a selection that `select` gave of it, which has been fed nothing.
    ///
    /// # Errors
    ///
    /// [`DatFault::OutOfMemory`] where there is no memory.
    pub fn open(
        alloc: Global,
        cfg: &'c Cfg,
        selection: &'c Selection,
    ) -> Result<DatReader<'c>, DatFault>
        requires said { IsConfiguration (cfg_view cfg.now) }
        requires selected { IsSelected (cfg_view cfg.now) (selection_view selection.now) }
        ensures fed { IfOk result (HasRead (cfg_view cfg.now) (selection_view selection.now) []) }
        ensures err { OnErr result (IsErrOf result fault.OutOfMemory) }
    {
        let channels = unread_channels(alloc, cfg, selection.positions.as_slice())?;
        let next = RunStart {
            index: 0,
            before: None,
        };
        let progress = Progress {
            decoded: Decoded { channels, next },
            cut: Vec::new(alloc),
            bytes: 0,
            fault: None,
        };
        Ok(DatReader {
            cfg,
            selection,
            progress,
        })
    }

    /// Takes the next piece. It decodes no record after one that is at fault.
    ///
    /// # Errors
    ///
    /// [`OutOfMemory`] where there was no memory, now or at an earlier piece: `finish` says so too.
    pub fn feed<T: Taking>(&mut self, taking: &T, piece: &[u8]) -> Result<(), OutOfMemory>
        requires ready { T.is_ready taking.now }
        ensures fed { FeedsOn self.old piece.now self.new }
        ensures ok { OnOk result (¬ HasNoMemory self.new) }
        ensures told { OnErr result (HasNoMemory self.new) }
    {
        let size = record_size(self.cfg);
        let n = self.cfg.endsamp as usize;
        self.progress.feed(taking, size, self.selection.positions.as_slice(), n, piece)
    }

    /// The recording that all the bytes that were fed make.
    ///
    /// # Errors
    ///
    /// As of [`read_dat`](crate::read_dat).
    pub fn finish(self, alloc: Global) -> Result<Recording, DatFault>
        ensures value { GivesAllFed self.entry result }
        ensures memory { HasNoMemory self.entry → IsErrOf result fault.OutOfMemory }
    {
        let cfg = self.cfg;
        let selection = self.selection;
        let decoded = self.progress.end(record_size(cfg), cfg.endsamp as usize)?;
        recording(alloc, cfg, selection, decoded)
    }
}

// How many bytes a record has.
fn record_size(cfg: &Cfg) -> usize
    requires { IsConfiguration (cfg_view cfg.now) }
    ensures value { result ≡ record_size (cfg_view cfg.now) }
    ensures least { 8 + 2 * length cfg.now.analogue.items ≤ result }
    ensures small { result < 2 ^ 16 }
{
    8 + 2 * cfg.analogue.len() + 2 * cfg.status.len().div_ceil(16)
}

// The recording of records that are all of a dat.
fn recording(
    alloc: Global,
    cfg: &Cfg,
    selection: &Selection,
    decoded: Decoded,
) -> Result<Recording, DatFault>
    requires said { IsConfiguration (cfg_view cfg.now) }
    requires selected { IsSelected (cfg_view cfg.now) (selection_view selection.now) }
    requires whole { IsOfWhole (cfg_view cfg.now) (selection_view selection.now) decoded }
    ensures { GivesWhole (cfg_view cfg.now) (selection_view selection.now) decoded result }
{
    let numbers = numbers(alloc, selection.positions.as_slice())?;
    let samples = samples(alloc, decoded.channels)?;
    Ok(Recording::new(
        cfg.first,
        cfg.rate,
        cfg.lf,
        numbers,
        selection.reference,
        samples,
    ))
}

// The numbers of the selected channels, from 1.
fn numbers(alloc: Global, positions: &[u32]) -> Result<Vec<u32>, DatFault>
    requires { All (λ p. p < MOST_CHANNELS) positions.now }
    ensures value { IfOk result (λ v. v.items ≡ map (λ p. p + 1) positions.now) }
    ensures err { OnErr result (IsErrOf result fault.OutOfMemory) }
{
    Ok(
        positions
            .iter()
            .map(|position| position + 1)
            .collect(alloc)?,
    )
}
