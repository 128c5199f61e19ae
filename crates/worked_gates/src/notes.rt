// What gates note of their calls.
use std::alloc::{AllocError, Global};
use std::sync::atomic::{AtomicU64, Ordering};

// Which words are due.
#[derive(Clone, Copy)]
pub enum Due {
    // Those of a sine of 24,024 samples, 24 a cycle, of which the first boundary that counts is place 24.
    // Lane 0 has 99 intervals of ten cycles; when 64 of them are posted, the next ends at 15,624. Lane 1 has
    // 1,998 windows, one each 12 places; when 64 j of them are posted, the next begins at 24 + 768 j. Lane 2
    // has one reading of the frequency. A lane that has posted all is settled up to the end.
    OfSine,
    // Any.
    Any,
}

impl Due {
    // The word that is due of a lane that has called its gate so often before.
    fn word(self, lane: u32, before: u64) -> Option<u64> {
        match (self, lane) {
            (Due::Any, _) => None,
            (Due::OfSine, 0) if before == 0 => Some(15_623),
            (Due::OfSine, 1) if before < 31 => Some(24 + 768 * (before + 1)),
            (Due::OfSine, _) => Some(24_024),
        }
    }
}

// Of one lane how often it has called its gate, and with which word at last.
#[derive(Drop)]
pub struct LaneNotes {
    pub calls: AtomicU64,
    pub last: AtomicU64,
}

// What is noted of the lanes, and how many calls came that were not due.
#[derive(Drop)]
pub struct Notes {
    pub lanes: Vec<LaneNotes>,
    pub wrong: AtomicU64,
    due: Due,
}

impl Notes {
    // No calls of so many lanes.
    pub fn none(alloc: Global, lanes: u32, due: Due) -> Result<Notes, AllocError> {
        let mut notes = Vec::new(alloc);
        for _ in 0..lanes {
            notes.push(LaneNotes {
                calls: AtomicU64::new(0),
                last: AtomicU64::new(0),
            })?;
        }
        Ok(Notes {
            lanes: notes,
            wrong: AtomicU64::new(0),
            due,
        })
    }

    // Notes a call, and answers how often the lane had called before.
    pub fn note(&self, lane: u32, word: u64) -> u64 {
        let Some(of_lane) = self.lanes.get(lane as usize) else {
            self.wrong.fetch_add(1, Ordering::SeqCst);
            return 0;
        };
        let before = of_lane.calls.fetch_add(1, Ordering::SeqCst);
        of_lane.last.store(word, Ordering::SeqCst);
        if let Some(due) = self.due.word(lane, before) {
            if due != word {
                self.wrong.fetch_add(1, Ordering::SeqCst);
            }
        }
        before
    }

    // How often a lane has called.
    pub fn calls_of(&self, lane: usize) -> u64 {
        match self.lanes.get(lane) {
            Some(of_lane) => of_lane.calls.load(Ordering::SeqCst),
            None => 0,
        }
    }

    // The word of a lane's last call.
    pub fn last_of(&self, lane: usize) -> u64 {
        match self.lanes.get(lane) {
            Some(of_lane) => of_lane.last.load(Ordering::SeqCst),
            None => 0,
        }
    }
}
