// How the samples of records are taken of several channels.
ghost use Rattle.std.specs.Prelude.{◌≡◌, ◌+◌, ◌*◌, ◌<◌, ◌≤◌, false, true, All, length, ⊤};
ghost use Rattle.std.specs.Thread.{IsSync};
ghost use Rattle.comtrade_dat.specs.Channel.{HaveRead, HaveTaken};

use crate::channel::Channel;
use std::thread;
use std::thread::Threads;

/// How the samples of records are taken: by the caller alone, or by several threads.
pub trait Taking {
    /// It may be asked for samples.
    ghost is_ready: { Self → Type 0 };

    /// How many records are taken at once.
    fn records_at_once(&self) -> usize
        ensures { 0 < result };

    /// How many bytes of a dat are best fed at once.
    fn bytes_at_once(&self) -> usize
        ensures { 0 < result };

    /// Takes the samples of the records from an index to another. Gives whether it took them all: not where a
    /// count is missing, or there is no memory.
    fn take_records(
        &self,
        channels: &mut [Channel],
        size: usize,
        run: &[u8],
        start: usize,
        end: usize,
    ) -> bool
        requires ready { is_ready self.now }
        requires forward { start ≤ end }
        requires whole { size * end ≤ length run.now }
        requires room { All (λ channel. 10 + 2 * channel.position ≤ size) channels.old }
        ensures { result ≡ true → HaveRead size run.now start end channels.old channels.new };
}

/// The caller's thread takes the samples of one channel after another.
#[derive(Clone, Copy)]
pub struct OneThread;

impl Taking for OneThread {
    ghost is_ready = { λ _. ⊤ };

    // Few enough that they stay near.
    fn records_at_once(&self) -> usize {
        1024
    }

    // The same.
    fn bytes_at_once(&self) -> usize {
        131_072
    }

    fn take_records(
        &self,
        channels: &mut [Channel],
        size: usize,
        run: &[u8],
        start: usize,
        end: usize,
    ) -> bool {
        for channel in channels.iter_mut() {
            if !channel.take_records(size, run, start, end) {
                return false;
            }
        }
        true
    }
}

/// Several threads take the samples, each of channels of its own.
#[derive(Drop)]
pub struct SideBySide<'a, R> {
    pub rt: &'a R,
}

// How many threads take samples, with the caller's.
const THREADS: usize = 4;

impl<'a, R: Threads + Sync> Taking for SideBySide<'a, R> {
    ghost is_ready = { λ _. IsSync R.row };

    // So many that a thread is worth its start.
    fn records_at_once(&self) -> usize {
        1_048_576
    }

    // The same.
    fn bytes_at_once(&self) -> usize {
        4_194_304
    }

    fn take_records(
        &self,
        channels: &mut [Channel],
        size: usize,
        run: &[u8],
        start: usize,
        end: usize,
    ) -> bool {
        keep_records(self.rt, channels, size, run, start, end);
        !have_stopped(channels)
    }
}

// Whether one of the channels stopped.
fn have_stopped(channels: &[Channel]) -> bool
    ensures { result ≡ false → All (λ channel. channel.has_stopped ≡ false) channels.now }
{
    channels.iter().any(|channel| channel.has_stopped())
}

// Takes the samples in threads. The channels keep whether they stopped.
fn keep_records<R: Threads + Sync>(
    rt: &R,
    channels: &mut [Channel],
    size: usize,
    run: &[u8],
    start: usize,
    end: usize,
)
    requires forward { start ≤ end }
    requires whole { size * end ≤ length run.now }
    requires room { All (λ channel. 10 + 2 * channel.position ≤ size) channels.old }
    ensures { HaveTaken size run.now start end channels.old channels.new }
{
    thread::for_each_mut(
        rt,
        channels,
        THREADS,
        &|_, channel| channel.keep_records(size, run, start, end),
    );
}
