// A sink whose bytes and rows are counted where a gate can see them.
ghost use Rattle.std.specs.Prelude.{None, true};

use pq_base::{Failed, Sink};
use std::sync::atomic::{AtomicU64, Ordering};

// What a sink has taken so far, for other threads to see.
#[derive(Drop)]
pub struct Taken {
    pub bytes: AtomicU64,
    pub rows: AtomicU64,
}

impl Taken {
    pub fn nothing() -> Taken {
        Taken {
            bytes: AtomicU64::new(0),
            rows: AtomicU64::new(0),
        }
    }
}

// Takes all bytes and counts them, and the ends of lines among them.
#[derive(Drop)]
pub struct CountingSink<'a> {
    pub taken: &'a Taken,
}

impl Sink for CountingSink<'_> {
    ghost taken = { λ _. None };

    ghost faults = { λ _. 0 };

    ghost counts_each = { true };

    fn write(&mut self, piece: &[u8]) -> Result<usize, Failed> {
        for byte in piece {
            if *byte == b'\n' {
                self.taken.rows.fetch_add(1, Ordering::SeqCst);
            }
        }
        self.taken
            .bytes
            .fetch_add(piece.len() as u64, Ordering::SeqCst);
        Ok(piece.len())
    }

    fn faults(&self) -> u64 {
        0
    }
}
