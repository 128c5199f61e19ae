// The run of the program: its code, and the line that it tells.
use lane_workers::OpenGate;
use pq_base::{MemShelf, MemSink};
use pq_run::{Streams, run};
use std::alloc::Global;
use std::sync::Wait;
use std::test::Fail;
use std::thread::Threads;
use worked_signals::{HEADER, WORKED, cfg, strings};

// What a run gave.
#[derive(Drop)]
struct Ran {
    code: u8,
    out: Vec<u8>,
    err: Vec<u8>,
}

// Runs the words over the files `a.cfg`, `a.dat` and `bad.cfg`; these writes of the second sink fail.
fn run_with<R: Threads + Wait + Sync>(
    rt: &R,
    alloc: Global,
    words: &[&str],
    fails: &[u64],
) -> Result<Ran, Fail> {
    let mut files = Vec::new(alloc);
    files.push((String::from_str(alloc, "a.cfg")?, cfg(alloc, WORKED)?))?;
    files.push((String::from_str(alloc, "a.dat")?, Vec::new(alloc)))?;
    let bad = b"demo,pqa,1999\n2,1A,0D\n".to_vec(alloc)?;
    files.push((String::from_str(alloc, "bad.cfg")?, bad))?;
    let mut shelf = MemShelf::new(files, Vec::new(alloc), 1000);
    let out = MemSink::new(alloc, 1000, Vec::new(alloc), 1000)?;
    let err = MemSink::new(alloc, 1000, fails.to_vec(alloc)?, 1000)?;
    let mut streams = Streams { out, err };
    let words = strings(alloc, words)?;
    let code = run(rt, alloc, &words, &mut shelf, &mut streams, &OpenGate);
    let out = streams.out.taken().to_vec(alloc)?;
    let err = streams.err.taken().to_vec(alloc)?;
    Ok(Ran { code, out, err })
}

#[test]
fn codes_and_lines(rt: HostRuntime) -> Result<(), Fail> {
    let alloc = rt.alloc();
    let said: [(&[&str], u8, &str, &str); 6] = [
        (
            &["intervals", "--udin", "230000", "a.cfg", "a.dat"],
            0,
            HEADER,
            "",
        ),
        (
            &["analyse", "--udin", "230000", "a.cfg", "a.dat"],
            0,
            HEADER,
            "",
        ),
        (&["analyse"], 1, "", "usage: words not understood\n"),
        (&["check"], 1, "", "usage: words not understood\n"),
        (
            &["check", "bad.cfg"],
            2,
            "",
            "cfg line 2 field 1: not readable\n",
        ),
        (
            &["intervals", "--udin", "230000", "a.cfg", "b.dat"],
            14,
            "",
            "file 2: not found\n",
        ),
    ];
    for (words, code, out, err) in said {
        let ran = run_with(&rt, alloc, words, &[])?;
        assert_eq!(rt; ran.code, code);
        assert_eq!(rt; ran.out.as_slice(), out.as_bytes());
        assert_eq!(rt; ran.err.as_slice(), err.as_bytes());
    }
    Ok(())
}

// Where a write of the line fails, a front of it was told, and the code is the same.
#[test]
fn line_cut_off(rt: HostRuntime) -> Result<(), Fail> {
    let alloc = rt.alloc();
    let ran = run_with(&rt, alloc, &["check", "bad.cfg"], &[1])?;
    assert_eq!(rt; ran.code, 2);
    assert_eq!(rt; ran.err.as_slice(), b"cfg line ".as_slice());
    Ok(())
}
