// A sink in memory, whose calls fail by a list.
ghost use Rattle.std.specs.Prelude.{◌≡◌, ◌≤◌, ◌<◌, ◌↔◌, ◌⊎◌, ◌-◌, min, [], length, IfOk, IsErr, Contains, Some, true, is_err, if◌then◌else◌};
ghost use Rattle.std.specs.Io.KnownBytes.{WriteAppends};
ghost use Rattle.pq_base.specs.Causes.{HasCause, count_after, next_count};
ghost use Rattle.pq_base.specs.MemorySink.{FailsToWrite, SameSink, new_sink, write_count};

use crate::{Failed, OutOfMemory, Sink};
use std::alloc::Global;
use std::marker::Model;

/// A sink that keeps the bytes in room reserved at its making, and whose calls fail by a list.
#[derive(Drop)]
pub struct MemSink {
    bytes: Vec<u8>,
    room: usize,
    fails: Vec<u64>,
    piece: usize,
    calls: u64,
    faults: u64,
}

impl Model for MemSink {
    ghost use Rattle.std.specs.Prelude.{◌≤◌, ◌<◌, vec_len, vec_capacity};
    ghost use Rattle.pq_base.specs.MemorySink.{MemorySink};

    ghost Value = { MemorySink };

    ghost view = { λ a. record {
      taken = a.bytes.items;
      room = a.room;
      fails = a.fails.items;
      piece = a.piece;
      calls = a.calls;
      faults = a.faults;
    } };

    ghost invariant = { λ a. (a.room ≤ vec_capacity a.bytes) × (vec_len a.bytes ≤ a.room) × (0 < a.piece) };
}

impl MemSink {
    /// A sink with room for so many bytes, of which none is taken yet. The calls of `write` that
    /// `fails` lists, counted from 0, fail; a write takes at most `piece` bytes.
    pub fn new(
        alloc: Global,
        room: u64,
        fails: Vec<u64>,
        piece: u64,
    ) -> Result<MemSink, OutOfMemory>
        requires { 0 < piece }
        ensures { IfOk result (λ sink. sink ≡ new_sink room fails.items piece) }
    {
        let room = room as usize;
        let bytes = Vec::with_capacity(alloc, room)?;
        Ok(MemSink {
            bytes,
            room,
            fails,
            piece: piece as usize,
            calls: 0,
            faults: 0,
        })
    }

    /// The bytes taken so far.
    pub fn taken(&self) -> &[u8]
        ensures { result.now ≡ self.now.taken }
    {
        self.bytes.as_slice()
    }
}

impl Sink for MemSink {
    ghost taken = { λ s. Some s.taken };

    ghost faults = { λ s. s.faults };

    ghost counts_each = { true };

    /// Takes as many bytes as the least of the piece, what is handed in and the room that is left.
    fn write(&mut self, piece: &[u8]) -> Result<usize, Failed>
        requires { 0 < length piece.now }
        ensures count { IfOk result (λ n. (0 < n) × (n ≤ length piece.now)) }
        ensures bytes { WriteAppends (Some self.old.taken) (Some self.new.taken) result piece.now }
        ensures cause { HasCause self.old.faults self.new.faults result }

        // Which calls fail, how many bytes a write takes, and the counts.
        ensures fails { IsErr result ↔ FailsToWrite self.old }
        ensures amount { IfOk result (λ n. n ≡ write_count self.old piece.now) }
        ensures calls { self.new.calls ≡ next_count self.old.calls }
        ensures counted { self.new.faults ≡ count_after (is_err result) self.old.faults }
        ensures same { SameSink self.old self.new }
    {
        let call = self.calls;
        self.calls = call.saturating_add(1);
        let count = self
            .piece
            .min(piece.len())
            .min(self.room - self.bytes.len());
        if self.fails.contains(&call) {
            self.faults = self.faults.saturating_add(1);
            return Err(Failed);
        }
        if count == 0 {
            self.faults = self.faults.saturating_add(1);
            return Err(Failed);
        }
        self.bytes.extend_from_slice(&piece[..count]).unwrap();
        Ok(count)
    }

    fn faults(&self) -> u64 {
        self.faults
    }
}
