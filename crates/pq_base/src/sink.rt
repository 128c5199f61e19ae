// What takes bytes.
ghost use Rattle.std.specs.Prelude.{◌≡◌, ◌<◌, ◌≤◌, ℕ, Bool, List, Option, length, is_err, IfOk, OnOk, OnErr};
ghost use Rattle.std.specs.Io.KnownBytes.{Appends, WriteAppends};
ghost use Rattle.pq_base.specs.Causes.{CountsOnce, HasCause};
ghost use Rattle.pq_base.specs.Outside.{AppendsFront};

use std::alloc::{AllocError, AllocFailed};

/// A call of the outside failed: its count of faults rose, and nothing was taken or given.
#[derive(Clone, Copy, Debug, PartialEq, Eq)]
pub struct Failed;

/// There is no memory.
#[derive(Clone, Copy, Debug, PartialEq, Eq)]
pub struct OutOfMemory;

impl From<AllocError> for OutOfMemory {
    fn from(_error: AllocError) -> OutOfMemory {
        OutOfMemory
    }
}

impl<T: Drop> From<AllocFailed<T>> for OutOfMemory {
    fn from(_error: AllocFailed<T>) -> OutOfMemory {
        OutOfMemory
    }
}

/// What takes bytes, in pieces.
pub trait Sink {
    /// The bytes taken, where it tells them.
    ghost taken: { Self → Option (List ℕ) };

    /// How many faults there were.
    ghost faults: { Self → ℕ };

    /// Whether each fault that is counted is one call that failed.
    ghost counts_each: { Bool };

    /// Takes a front of the piece, and answers how many bytes: at least one.
    fn write(&mut self, piece: &[u8]) -> Result<usize, Failed>
        requires { 0 < length piece.now }
        ensures count { IfOk result (λ n. (0 < n) × (n ≤ length piece.now)) }
        ensures bytes { WriteAppends (taken self.old) (taken self.new) result piece.now }
        ensures cause { HasCause (faults self.old) (faults self.new) result }
        ensures counted { CountsOnce counts_each (faults self.old) (faults self.new) (is_err result) };

    /// How many calls failed. The count never falls, and stands still at the end of its type.
    fn faults(&self) -> u64
        ensures { result ≡ faults self.now };
}

/// Writes all of it, in as few pieces as the sink takes; where a write fails, a front was taken.
pub fn write_all<O: Sink>(out: &mut O, bytes: &[u8]) -> Result<(), Failed>
    ensures ok { OnOk result (Appends (O.taken out.old) (O.taken out.new) bytes.now) }
    ensures err { OnErr result (AppendsFront (O.taken out.old) (O.taken out.new) bytes.now) }
    ensures cause { HasCause (O.faults out.old) (O.faults out.new) result }
    ensures counted { CountsOnce O.counts_each (O.faults out.old) (O.faults out.new) (is_err result) }
{
    let mut done = 0;
    while done < bytes.len() {
        match out.write(&bytes[done..]) {
            Ok(count) => done += count,
            Err(failed) => return Err(failed),
        }
    }
    Ok(())
}
