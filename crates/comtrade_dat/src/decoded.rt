// What is decoded of a dat.
ghost use Rattle.std.specs.Prelude.{◌≡◌, ◌+◌, ◌-◌, ◌*◌, ◌<◌, ◌≤◌, All, IfOk, IsErrOf, OnErr, OnOk, Ok, length, map};
ghost use Rattle.comtrade_cfg.specs.Configuration.{cfg_view};
ghost use Rattle.comtrade_cfg.specs.Selecting.{AreWithinLimit, coefficients_at};
ghost use Rattle.comtrade_dat.specs.Channel.{IsLayout, all_positions, all_samples, read_on, unread};
ghost use Rattle.comtrade_dat.specs.Run.{judged_run, start_after};
ghost use Rattle.comtrade_dat.specs.Samples.{Gives, first_fault};
ghost use Rattle.comtrade_dat.specs.declared.dat_fault.DatFault.TheVariants as fault;
ghost use Rattle.pq_words.specs.declared.limits.TheConstants.{MOST_MICROVOLTS, MOST_SAMPLES};
ghost use Rattle.pq_words.specs.Magnitude.{IsWithin};

use crate::channel::Channel;
use crate::dat_fault::DatFault;
use crate::good_records::are_numbered;
use crate::judging::judge_records;
use crate::run_start::{RunStart, start_after};
use crate::taking::Taking;
use comtrade_cfg::{Cfg, Coefficients};
use std::alloc::Global;

// The selected channels with their samples so far, and where the next record begins.
#[derive(Drop)]
pub(crate) struct Decoded {
    pub(crate) channels: Vec<Channel>,
    pub(crate) next: RunStart,
}

impl Decoded {
    // Takes the first records of the run that comes next. Of all records there are n.
    pub(crate) fn take_run<T: Taking>(
        &mut self,
        taking: &T,
        size: usize,
        positions: &[u32],
        n: usize,
        run: &[u8],
        count: usize,
    ) -> Result<(), DatFault>
        requires ready { T.is_ready taking.now }
        requires layout { IsLayout size positions.now }
        requires paired { all_positions self.old.channels.items ≡ positions.now }
        requires whole { size * count ≤ length run.now }
        requires within { self.old.next.index + count ≤ n }
        requires few { n ≤ MOST_SAMPLES }
        ensures value { Gives result
            (first_fault (judged_run size positions.now self.old.next run.now count)) }
        ensures read { OnOk result (self.new.channels.items
            ≡ map (read_on size run.now 0 count) self.old.channels.items) }
        ensures next { OnOk result (self.new.next ≡ start_after size self.old.next run.now count) }
    {
        let channels = self.channels.as_mut_slice();
        make_room(channels, count, n - self.next.index);
        read_records(taking, channels, size, positions, self.next, run, count)?;
        self.next = start_after(size, self.next, run, count);
        Ok(())
    }
}

// The selected channels, with no samples.
pub(crate) fn unread_channels(
    alloc: Global,
    cfg: &Cfg,
    positions: &[u32],
) -> Result<Vec<Channel>, DatFault>
    requires there { All (λ p. p < length cfg.now.analogue.items) positions.now }
    requires limit { All (λ p. AreWithinLimit (coefficients_at (cfg_view cfg.now) p)) positions.now }
    ensures value { IfOk result (λ v. v.items ≡ map (unread (cfg_view cfg.now)) positions.now) }
    ensures err { OnErr result (IsErrOf result fault.OutOfMemory) }
{
    let mut channels = Vec::with_capacity(alloc, positions.len())?;
    for position in positions {
        let position = *position as usize;
        channels.push(Channel::new(alloc, position, coefficients(cfg, position)))?;
    }
    Ok(channels)
}

// The coefficients of the channel at a position.
fn coefficients(cfg: &Cfg, position: usize) -> Coefficients
    requires there { position < length cfg.now.analogue.items }
    requires limit { AreWithinLimit (coefficients_at (cfg_view cfg.now) position) }
    ensures { result ≡ coefficients_at (cfg_view cfg.now) position }
{
    match cfg.analogue[position].coefficients() {
        Some(coefficients) => coefficients,
        None => unreachable!(),
    }
}

// Room for the next samples of each channel, of which so many are still to come.
fn make_room(channels: &mut [Channel], next: usize, all: usize)
    ensures { channels.new ≡ channels.old }
{
    for channel in channels.iter_mut() {
        channel.make_room(next, all);
    }
}

// The samples of the first records of a run, or the fault of the first of these that is at fault.
fn read_records<T: Taking>(
    taking: &T,
    channels: &mut [Channel],
    size: usize,
    positions: &[u32],
    start: RunStart,
    run: &[u8],
    count: usize,
) -> Result<(), DatFault>
    requires ready { T.is_ready taking.now }
    requires whole { size * count ≤ length run.now }
    requires layout { IsLayout size positions.now }
    requires few { start.index + count ≤ MOST_SAMPLES }
    requires paired { all_positions channels.old ≡ positions.now }
    ensures value { Gives result (first_fault (judged_run size positions.now start run.now count)) }
    ensures read { OnOk result (channels.new ≡ map (read_on size run.now 0 count) channels.old) }
{
    let mut from = 0;
    while from < count {
        let end = from + taking.records_at_once().min(count - from);
        read_block(taking, channels, size, positions, start, run, from, end)?;
        from = end;
    }
    Ok(())
}

// The samples of the records of a run from an index to another, or the fault of the first that is at fault.
// Those before them are good. Which record is at fault is asked only where not all samples can be taken.
fn read_block<T: Taking>(
    taking: &T,
    channels: &mut [Channel],
    size: usize,
    positions: &[u32],
    start: RunStart,
    run: &[u8],
    from: usize,
    end: usize,
) -> Result<(), DatFault>
    requires ready { T.is_ready taking.now }
    requires forward { from ≤ end }
    requires whole { size * end ≤ length run.now }
    requires layout { IsLayout size positions.now }
    requires few { start.index + end ≤ MOST_SAMPLES }
    requires paired { all_positions channels.old ≡ positions.now }
    requires good { first_fault (judged_run size positions.now start run.now from) ≡ Ok (tt {0}) }
    ensures value { Gives result (first_fault (judged_run size positions.now start run.now end)) }
    ensures read { OnOk result (channels.new ≡ map (read_on size run.now from end) channels.old) }
{
    let are_numbered = are_numbered(size, start.before, run, from, end);
    if are_numbered && taking.take_records(channels, size, run, from, end) {
        return Ok(());
    }
    judge_records(size, positions, start, run, from, end)?;
    Err(DatFault::OutOfMemory)
}

// The samples that the channels have read.
pub(crate) fn samples(alloc: Global, channels: Vec<Channel>) -> Result<Vec<Vec<i64>>, DatFault>
    ensures value { IfOk result (λ v. map (λ s. s.items) v.items ≡ all_samples channels.items) }
    ensures quiet { IfOk result (λ v. All (λ s. All (IsWithin MOST_MICROVOLTS) s.items) v.items) }
    ensures err { OnErr result (IsErrOf result fault.OutOfMemory) }
{
    let mut samples = Vec::with_capacity(alloc, channels.len())?;
    for channel in channels {
        samples.push(channel.into_samples())?;
    }
    Ok(samples)
}
