// A shelf in memory, whose calls fail by a list.
ghost use Rattle.std.specs.Prelude.{◌≡◌, ◌<◌, [], ◌∷◌, ◌↔◌, min, IfOk, OnErr, IsErr, IsSome, Contains, map, take, length, Some, true, is_err};
ghost use Rattle.std.specs.Io.{ReadsAtMost};
ghost use Rattle.std.specs.Io.KnownBytes.{ReadConsumes};
ghost use Rattle.pq_base.specs.Causes.{HasCause, count_after, next_count};
ghost use Rattle.pq_base.specs.FileIndex.{IsIndexOf, content_at};
ghost use Rattle.pq_base.specs.MemoryShelf.{FailsToOpen, SameShelf, file_view, names_after, new_shelf, read_count};
ghost use Rattle.pq_base.specs.Outside.{HasAsked, Opens, file_named};

use crate::asked_indices::AskedIndices;
use crate::{Failed, Shelf};
use std::marker::Model;

/// Files in memory, whose calls of `open` and `read` fail by a list. It tells the names that it was
/// asked as long as there was a file of each, up to sixteen of them.
#[derive(Drop)]
pub struct MemShelf {
    files: Vec<(String, Vec<u8>)>,
    fails: Vec<u64>,
    piece: usize,
    asked: AskedIndices,
    // The index of the file that is opened.
    index: Option<usize>,
    // How much of it is no longer to be read.
    done: usize,
    calls: u64,
    faults: u64,
}

impl Model for MemShelf {
    ghost use Rattle.std.specs.Prelude.{map, drop, ◌<◌};
    ghost use Rattle.pq_base.specs.FileIndex.{content_at, names_at};
    ghost use Rattle.pq_base.specs.MemoryShelf.{MemoryShelf, file_view};

    ghost Value = { MemoryShelf };

    ghost view = { λ a. record {
      files = map file_view a.files.items;
      fails = a.fails.items;
      piece = a.piece;
      asked = names_at (map file_view a.files.items) a.asked;
      rest = drop a.done (content_at (map file_view a.files.items) a.index);
      calls = a.calls;
      faults = a.faults;
    } };

    ghost invariant = { λ a. 0 < a.piece };
}

impl MemShelf {
    /// A shelf with these files, of which nothing is opened yet. The calls of `open` and `read` that
    /// `fails` lists, counted together from 0, fail; a read gives at most `piece` bytes.
    pub fn new(files: Vec<(String, Vec<u8>)>, fails: Vec<u64>, piece: u64) -> MemShelf
        requires { 0 < piece }
        ensures { result ≡ new_shelf (map file_view files.items) fails.items piece }
    {
        MemShelf {
            files,
            fails,
            piece: piece as usize,
            asked: AskedIndices::new(),
            index: None,
            done: 0,
            calls: 0,
            faults: 0,
        }
    }
}

impl Shelf for MemShelf {
    ghost files = { λ s. Some s.files };

    ghost asked = { λ s. s.asked };

    ghost rest = { λ s. Some s.rest };

    ghost faults = { λ s. s.faults };

    ghost counts_each = { true };

    /// Fails exactly where this call is listed and a file of this name is there.
    fn open(&mut self, name: &str) -> Result<bool, Failed>
        ensures files { self.new.files ≡ self.old.files }
        ensures asked { HasAsked self.old.asked (name.now ∷ []) self.new.asked }
        ensures opened { IfOk result
            (λ found. Opens (Some self.old.files) name.now found (Some self.new.rest)) }
        ensures dropped { OnErr result (self.new.rest ≡ []) }
        ensures present { OnErr result (IsSome (file_named self.old.files name.now)) }
        ensures cause { HasCause self.old.faults self.new.faults result }
        ensures counted { self.new.faults ≡ count_after (is_err result) self.old.faults }

        // Which calls fail, what is told of the name, and the counts.
        ensures fails { IsErr result ↔ FailsToOpen self.old name.now }
        ensures told { self.new.asked ≡ names_after self.old.files self.old.asked name.now }
        ensures calls { self.new.calls ≡ next_count self.old.calls }
        ensures same { SameShelf self.old self.new }
    {
        let call = self.calls;
        self.calls = call.saturating_add(1);
        self.index = index_of(&self.files, name);
        self.done = 0;
        self.asked.push(self.index);
        if self.index.is_none() {
            return Ok(false);
        }
        if self.fails.contains(&call) {
            self.index = None;
            self.faults = self.faults.saturating_add(1);
            return Err(Failed);
        }
        Ok(true)
    }

    /// Gives as many bytes as the least of the piece, the buffer and the rest.
    fn read(&mut self, into: &mut [u8]) -> Result<usize, Failed>
        requires { 0 < length into.old }
        ensures files { self.new.files ≡ self.old.files }
        ensures asked { self.new.asked ≡ self.old.asked }
        ensures bound { ReadsAtMost result into.new }
        ensures bytes { ReadConsumes (Some self.old.rest) (Some self.new.rest) result into.new }
        ensures cause { HasCause self.old.faults self.new.faults result }
        ensures counted { self.new.faults ≡ count_after (is_err result) self.old.faults }

        // Which calls fail, how many bytes a read gives, and the counts.
        ensures fails { IsErr result ↔ Contains self.old.fails self.old.calls }
        ensures amount { IfOk result (λ n. n ≡ read_count self.old (length into.old)) }
        ensures calls { self.new.calls ≡ next_count self.old.calls }
        ensures same { SameShelf self.old self.new }
    {
        let call = self.calls;
        self.calls = call.saturating_add(1);
        if self.fails.contains(&call) {
            self.faults = self.faults.saturating_add(1);
            return Err(Failed);
        }
        let bytes = content(&self.files, self.index);
        let done = self.done.min(bytes.len());
        let count = copy_piece(&bytes[done..], into, self.piece);
        self.done = done + count;
        Ok(count)
    }

    fn faults(&self) -> u64 {
        self.faults
    }
}

// The index of the first file of this name.
fn index_of(files: &[(String, Vec<u8>)], name: &str) -> Option<usize>
    ensures { IsIndexOf (map file_view files.now) name.now result }
{
    files.iter().position(|file| file.0.as_str() == name)
}

// The bytes of the file of an index.
fn content(files: &[(String, Vec<u8>)], index: Option<usize>) -> &[u8]
    ensures { result.now ≡ content_at (map file_view files.now) index }
{
    match index.and_then(|index| files.get(index)) {
        Some(file) => file.1.as_slice(),
        None => &[],
    }
}

// Copies a front, of at most so many bytes.
fn copy_piece(from: &[u8], into: &mut [u8], most: usize) -> usize
    ensures count { result ≡ min (min most (length into.old)) (length from.now) }
    ensures bytes { take result into.new ≡ take result from.now }
{
    let count = most.min(into.len()).min(from.len());
    into[..count].copy_from_slice(&from[..count]);
    count
}
