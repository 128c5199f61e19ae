// A run of a top call over a shelf and a sink in memory.
use lane_workers::OpenGate;
use pq_base::{MemShelf, MemSink, OutOfMemory};
use pq_run::{Status, analyse, still};
use std::alloc::{AllocError, Global};
use std::sync::Wait;
use std::thread::Threads;

/// How the outside behaves: which calls fail, and how large a piece is.
#[derive(Clone, Copy)]
pub struct Outside<'a> {
    pub read_fails: &'a [u64],
    pub read_piece: u64,
    pub write_fails: &'a [u64],
    pub write_piece: u64,
}

/// An outside whose calls don't fail, in large pieces.
pub const WHOLE: Outside<'static> = Outside {
    read_fails: &[],
    read_piece: 1_000_000,
    write_fails: &[],
    write_piece: 1_000_000,
};

/// The status of a run, and the bytes that were taken.
#[derive(Drop)]
pub struct Outcome {
    pub status: Status,
    pub taken: Vec<u8>,
}

/// Words as the program has them.
pub fn strings(alloc: Global, words: &[&str]) -> Result<Vec<String>, AllocError> {
    let mut strings = Vec::new(alloc);
    for word in words {
        strings.push(String::from_str(alloc, word)?)?;
    }
    Ok(strings)
}

/// Runs the words by `still` over the files `a.cfg` and `a.dat`, which are there where they are given.
pub fn run(
    alloc: Global,
    words: &[&str],
    cfg: Option<&[u8]>,
    dat: Option<&[u8]>,
    outside: Outside<'_>,
) -> Result<Outcome, OutOfMemory> {
    let mut shelf = shelf_with(alloc, cfg, dat, outside)?;
    let mut sink = sink_with(alloc, outside)?;
    let status = still(alloc, &strings(alloc, words)?, &mut shelf, &mut sink);
    let taken = sink.taken().to_vec(alloc)?;
    Ok(Outcome { status, taken })
}

/// The same by `analyse`.
pub fn run_analyse<R: Threads + Wait + Sync>(
    rt: &R,
    alloc: Global,
    words: &[&str],
    cfg: Option<&[u8]>,
    dat: Option<&[u8]>,
    outside: Outside<'_>,
) -> Result<Outcome, OutOfMemory> {
    let mut shelf = shelf_with(alloc, cfg, dat, outside)?;
    let mut sink = sink_with(alloc, outside)?;
    let words = strings(alloc, words)?;
    let status = analyse(rt, alloc, &words, &mut shelf, &mut sink, &OpenGate);
    let taken = sink.taken().to_vec(alloc)?;
    Ok(Outcome { status, taken })
}

fn shelf_with(
    alloc: Global,
    cfg: Option<&[u8]>,
    dat: Option<&[u8]>,
    outside: Outside<'_>,
) -> Result<MemShelf, OutOfMemory> {
    let mut files = Vec::new(alloc);
    if let Some(cfg) = cfg {
        files.push((String::from_str(alloc, "a.cfg")?, cfg.to_vec(alloc)?))?;
    }
    if let Some(dat) = dat {
        files.push((String::from_str(alloc, "a.dat")?, dat.to_vec(alloc)?))?;
    }
    let fails = outside.read_fails.to_vec(alloc)?;
    Ok(MemShelf::new(files, fails, outside.read_piece.max(1)))
}

fn sink_with(alloc: Global, outside: Outside<'_>) -> Result<MemSink, OutOfMemory> {
    let fails = outside.write_fails.to_vec(alloc)?;
    let room = 500_000;
    Ok(MemSink::new(alloc, room, fails, outside.write_piece.max(1))?)
}
