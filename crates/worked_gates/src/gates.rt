// Gates that hold a worker until something else has happened.
use crate::counting_sink::Taken;
use crate::notes::Notes;
use lane_workers::Gate;
use std::sync::atomic::{AtomicU64, Ordering};
use std::thread;

// After so many turns a gate gives up, and its test fails.
const MOST_TURNS: u64 = 1_000_000_000;

// Waits until a number that threads share is above a limit; whether it was before the turns ran out.
fn is_awaited(number: &AtomicU64, limit: u64) -> bool {
    for _ in 0..MOST_TURNS {
        if number.load(Ordering::SeqCst) > limit {
            return true;
        }
        thread::yield_now();
    }
    false
}

// Lets neither of lanes 0 and 1 through its first call before the other's first call has begun.
#[derive(Drop)]
pub struct Meeting {
    pub notes: Notes,
    pub gave_up: AtomicU64,
}

impl Meeting {
    fn wait_for(&self, lane: usize) {
        let Some(other) = self.notes.lanes.get(lane) else {
            return;
        };
        if !is_awaited(&other.calls, 0) {
            self.gave_up.fetch_add(1, Ordering::SeqCst);
        }
    }
}

impl Gate for Meeting {
    fn pass(&self, lane: u32, word: u64) {
        let before = self.notes.note(lane, word);
        match lane {
            0 if before == 0 => self.wait_for(1),
            1 if before == 0 => self.wait_for(0),
            _ => {}
        }
    }
}

// Holds lane 0 before its last word until more than a header is taken, and notes how many rows were taken
// then.
#[derive(Drop)]
pub struct Printed<'a> {
    pub notes: Notes,
    pub gave_up: AtomicU64,
    pub taken: &'a Taken,
    pub header: u64,
    pub last_word: u64,
    pub rows_then: AtomicU64,
}

impl Gate for Printed<'_> {
    fn pass(&self, lane: u32, word: u64) {
        self.notes.note(lane, word);
        if lane != 0 || word != self.last_word {
            return;
        }
        if !is_awaited(&self.taken.bytes, self.header) {
            self.gave_up.fetch_add(1, Ordering::SeqCst);
        }
        let rows = self.taken.rows.load(Ordering::SeqCst);
        self.rows_then.store(rows, Ordering::SeqCst);
    }
}
