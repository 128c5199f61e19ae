// A selected channel that is being read.
ghost use Rattle.std.specs.Prelude.{◌≡◌, ◌+◌, ◌-◌, ◌*◌, ◌≤◌, true, All, OnOk, length};
ghost use Rattle.comtrade_cfg.specs.Selecting.{AreWithinLimit};
ghost use Rattle.comtrade_dat.specs.Channel.{HasRead, HasTaken, read_on, samples_from, unread_with};
ghost use Rattle.comtrade_dat.specs.Run.{HaveCounts};
ghost use Rattle.pq_words.specs.declared.limits.TheConstants.{MOST_MICROVOLTS};
ghost use Rattle.pq_words.specs.Magnitude.{IsWithin};

use crate::fields::{count_in, record_at};
use crate::good_records::have_counts;
use crate::sample::microvolts;
use comtrade_cfg::Coefficients;
use std::alloc::{AllocError, Global};
use std::marker::Model;

// How many records are looked at before their samples are taken: so few that they stay near.
const AT_ONCE: usize = 1024;

// Where its counts lie, what they stand for, its samples so far, and whether it stopped before the end of
// records.
#[derive(Drop)]
pub struct Channel {
    position: usize,
    coefficients: Coefficients,
    samples: Vec<i64>,
    has_stopped: bool,
}

impl Model for Channel {
    ghost use Rattle.comtrade_dat.specs.Channel.{ChannelRead, IsChannel};

    ghost Value = { ChannelRead };

    ghost view = { λ c. record {
      position = c.position;
      coefficients = c.coefficients;
      samples = c.samples.items;
      has_stopped = c.has_stopped;
    } };

    ghost invariant = { λ c. IsChannel (record {
      position = c.position;
      coefficients = c.coefficients;
      samples = c.samples.items;
      has_stopped = c.has_stopped;
    }) };
}

impl Channel {
    // It has no samples, and no room for any.
    pub(crate) fn new(alloc: Global, position: usize, coefficients: Coefficients) -> Channel
        requires { AreWithinLimit coefficients }
        ensures { result ≡ unread_with coefficients position }
    {
        Channel {
            position,
            coefficients,
            samples: Vec::new(alloc),
            has_stopped: false,
        }
    }

    // Room for the next samples, of which so many are still to come. The first are given room for themselves
    // alone: there may be no more of them, whatever the configuration says. Later ones are given the room of
    // all that are to come: pages that are never written cost nothing, and no sample is moved again. Where
    // there is no such room, the samples are given more as they come.
    pub(crate) fn make_room(&mut self, next: usize, all: usize)
        ensures { self.new ≡ self.old }
    {
        let wanted = if self.samples.is_empty() { next } else { all };
        if self.samples.capacity() - self.samples.len() < next {
            let _ = self.samples.reserve_exact(wanted);
        }
    }

    // Takes the samples of the records from an index to another. Gives whether it took them all: not where
    // one has no count, or there is no memory.
    pub(crate) fn take_records(&mut self, size: usize, dat: &[u8], start: usize, end: usize) -> bool
        requires forward { start ≤ end }
        requires whole { size * end ≤ length dat.now }
        requires room { 10 + 2 * self.old.position ≤ size }
        ensures { result ≡ true → HasRead size dat.now start end self.old self.new }
    {
        let position = self.position();
        let mut from = start;
        while from < end {
            let next = from + AT_ONCE.min(end - from);
            if !have_counts(size, dat, from, next, position) {
                return false;
            }
            if self.take_counts(size, dat, from, next).is_err() {
                return false;
            }
            from = next;
        }
        true
    }

    // Takes the samples of a few records that have a count: they are made in places of their own, and
    // appended at once.
    fn take_counts(
        &mut self,
        size: usize,
        dat: &[u8],
        start: usize,
        end: usize,
    ) -> Result<(), AllocError>
        requires forward { start ≤ end }
        requires few { end - start ≤ AT_ONCE }
        requires whole { size * end ≤ length dat.now }
        requires room { 10 + 2 * self.old.position ≤ size }
        requires counts { HaveCounts size dat.now start end self.old.position }
        ensures { OnOk result (self.new ≡ read_on size dat.now start end self.old) }
    {
        let mut places = [0; AT_ONCE];
        let samples = &mut places[..end - start];
        make_samples(&self.coefficients, size, dat, start, self.position, samples);
        self.samples.extend_from_slice(samples)
    }

    // Takes them in a thread, which tells nothing: it keeps whether it stopped.
    pub(crate) fn keep_records(&mut self, size: usize, dat: &[u8], start: usize, end: usize)
        requires forward { start ≤ end }
        requires whole { size * end ≤ length dat.now }
        requires room { 10 + 2 * self.old.position ≤ size }
        ensures { HasTaken size dat.now start end self.old self.new }
    {
        if !self.take_records(size, dat, start, end) {
            self.has_stopped = true;
        }
    }

    // Where its counts lie.
    fn position(&self) -> usize
        ensures { result ≡ self.now.position }
    {
        self.position
    }

    // Whether it stopped before the end of records.
    pub(crate) fn has_stopped(&self) -> bool
        ensures { result ≡ self.now.has_stopped }
    {
        self.has_stopped
    }

    pub(crate) fn into_samples(self) -> Vec<i64>
        ensures value { result.items ≡ self.samples }
        ensures quiet { All (IsWithin MOST_MICROVOLTS) result.items }
    {
        self.samples
    }
}

// Makes the samples of the records from an index on, as many as there are places. Apart from its caller its
// loop has the registers for itself.
#[inline(never)]
fn make_samples(
    coefficients: &Coefficients,
    size: usize,
    dat: &[u8],
    start: usize,
    position: usize,
    places: &mut [i64],
)
    requires limit { AreWithinLimit coefficients.now }
    requires whole { size * (start + length places.old) ≤ length dat.now }
    requires room { 10 + 2 * position ≤ size }
    requires counts { HaveCounts size dat.now start (start + length places.old) position }
    ensures value { places.new ≡
        samples_from coefficients.now size position dat.now start (length places.old) }
    ensures quiet { All (IsWithin MOST_MICROVOLTS) places.new }
{
    // a copy stays in registers, whatever is written
    let coefficients = *coefficients;
    for index in 0..places.len() {
        let count = count_in(record_at(size, dat, start + index), position);
        places[index] = microvolts(&coefficients, count);
    }
}
