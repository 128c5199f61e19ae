// What gives files.
ghost use Rattle.std.specs.Prelude.{◌≡◌, ◌<◌, ◌≤◌, ℕ, Bool, List, Option, [], ◌∷◌, length, is_err, IfOk, IfSome, OnOk, OnErr, IsErrOf};
ghost use Rattle.std.specs.Io.{ReadsAtMost};
ghost use Rattle.std.specs.Io.KnownBytes.{ReadConsumes, IsAtEnd};
ghost use Rattle.pq_base.specs.Causes.{CountsOnce, HasCause, Rose};
ghost use Rattle.pq_base.specs.Outside.{Files, HasAsked, Opens, Holds, IsThere, IsMissing, IsOver};
ghost use Rattle.pq_base.specs.ReadAll.{is_failed};
ghost use Rattle.pq_base.specs.declared.shelf.ReadAll.TheVariants as why;

use crate::Failed;
use std::alloc::{AllocError, Global};

/// Files that are opened by name and read in pieces. Before the first `open` the rest is empty.
pub trait Shelf {
    /// The files by name, where it tells them.
    ghost files: { Self → Option Files };

    /// All names that `open` was asked, in order, where it tells them.
    ghost asked: { Self → Option (List (List ℕ)) };

    /// What is left of the opened file, where it tells it.
    ghost rest: { Self → Option (List ℕ) };

    /// How many faults there were.
    ghost faults: { Self → ℕ };

    /// Whether each fault that is counted is one call that failed.
    ghost counts_each: { Bool };

    /// Opens the file of this name; `Ok(false)` where there is none. What was left of an earlier file
    /// is dropped, also by an `open` that fails.
    fn open(&mut self, name: &str) -> Result<bool, Failed>
        ensures files { files self.new ≡ files self.old }
        ensures asked { HasAsked (asked self.old) (name.now ∷ []) (asked self.new) }
        ensures opened { IfOk result (λ found. Opens (files self.old) name.now found (rest self.new)) }
        ensures dropped { OnErr result (IsAtEnd (rest self.new)) }
        ensures present { OnErr result (IsThere (files self.old) name.now) }
        ensures cause { HasCause (faults self.old) (faults self.new) result }
        ensures counted { CountsOnce counts_each (faults self.old) (faults self.new) (is_err result) };

    /// Reads the next bytes of the opened file, and answers how many: 0 only at the end.
    fn read(&mut self, into: &mut [u8]) -> Result<usize, Failed>
        requires { 0 < length into.old }
        ensures files { files self.new ≡ files self.old }
        ensures asked { asked self.new ≡ asked self.old }
        ensures bound { ReadsAtMost result into.new }
        ensures bytes { ReadConsumes (rest self.old) (rest self.new) result into.new }
        ensures cause { HasCause (faults self.old) (faults self.new) result }
        ensures counted { CountsOnce counts_each (faults self.old) (faults self.new) (is_err result) };

    /// How many calls failed. The count never falls, and stands still at the end of its type.
    fn faults(&self) -> u64
        ensures { result ≡ faults self.now };
}

/// Why a file was not read.
#[derive(Clone, Copy, Debug, PartialEq, Eq)]
pub enum ReadAll {
    /// A call of the shelf failed.
    Failed,
    /// There is no file of this name.
    Missing,
    /// The file has more bytes than the limit.
    Over,
    /// There is no memory for the bytes.
    OutOfMemory,
}

impl From<Failed> for ReadAll {
    ghost from_gives = { λ _ e. e ≡ why.Failed };

    fn from(_error: Failed) -> ReadAll {
        ReadAll::Failed
    }
}

impl From<AllocError> for ReadAll {
    ghost from_gives = { λ _ e. e ≡ why.OutOfMemory };

    fn from(_error: AllocError) -> ReadAll {
        ReadAll::OutOfMemory
    }
}

/// The whole file of this name, if it has at most `limit` bytes. It asks `open` once, and each
/// further turn takes at least one byte.
pub fn read_all<K: Shelf>(
    alloc: Global,
    shelf: &mut K,
    name: &str,
    limit: u64,
) -> Result<Vec<u8>, ReadAll>
    ensures files { K.files shelf.new ≡ K.files shelf.old }
    ensures asked { HasAsked (K.asked shelf.old) (name.now ∷ []) (K.asked shelf.new) }
    ensures within { IfOk result (λ v. length v.items ≤ limit) }
    ensures whole { IfOk result (λ v. Holds (K.files shelf.old) name.now v.items) }
    ensures ended { OnOk result (IsAtEnd (K.rest shelf.new)) }
    ensures missing { IsErrOf result ReadAll.Missing → IsMissing (K.files shelf.old) name.now }
    ensures over { IsErrOf result ReadAll.Over → IsOver (K.files shelf.old) name.now limit }
    ensures failed { IsErrOf result ReadAll.Failed → Rose (K.faults shelf.old) (K.faults shelf.new) }
    ensures later { K.faults shelf.old ≤ K.faults shelf.new }
    ensures counted { CountsOnce K.counts_each (K.faults shelf.old) (K.faults shelf.new) (is_failed result) }

    // So Missing is the one answer where the told files have no such name.
    ensures present { IsErrOf result ReadAll.Failed → IsThere (K.files shelf.old) name.now }
    ensures memory { IsErrOf result ReadAll.OutOfMemory → IsThere (K.files shelf.old) name.now }
{
    if !shelf.open(name)? {
        return Err(ReadAll::Missing);
    }
    read_rest(alloc, shelf, limit)
}

// How many bytes are asked for at once.
const PIECE: usize = 65_536;

fn read_rest<K: Shelf>(alloc: Global, shelf: &mut K, limit: u64) -> Result<Vec<u8>, ReadAll>
    ensures files { K.files shelf.new ≡ K.files shelf.old }
    ensures asked { K.asked shelf.new ≡ K.asked shelf.old }
    ensures within { IfOk result (λ v. length v.items ≤ limit) }
    ensures whole { IfOk result (λ v. IfSome (K.rest shelf.old) (λ bs. bs ≡ v.items)) }
    ensures ended { OnOk result (IsAtEnd (K.rest shelf.new)) }
    ensures missing { ¬ IsErrOf result ReadAll.Missing }
    ensures over { IsErrOf result ReadAll.Over → IfSome (K.rest shelf.old) (λ bs. limit < length bs) }
    ensures failed { IsErrOf result ReadAll.Failed → Rose (K.faults shelf.old) (K.faults shelf.new) }
    ensures later { K.faults shelf.old ≤ K.faults shelf.new }
    ensures counted { CountsOnce K.counts_each (K.faults shelf.old) (K.faults shelf.new) (is_failed result) }
{
    let mut bytes = Vec::new(alloc);
    let mut piece = [0; PIECE];
    while bytes.len() as u64 <= limit {
        let count = shelf.read(&mut piece)?;
        if count == 0 {
            return Ok(bytes);
        }
        bytes.extend_from_slice(&piece[..count])?;
    }
    Err(ReadAll::Over)
}
