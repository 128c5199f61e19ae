// The files of a generated recording.
use pq_base::{MemShelf, MemSink};
use pq_run::{Status, still};
use std::alloc::Global;
use std::test::Fail;
use worked_signals::strings;

const CFG: &str = "generated,pqa,1999\r
3,3A,0D\r
1,UA,A,,V,0.0325,0,0,-32767,32767,1,1,P\r
2,UB,B,,V,0.0325,0,0,-32767,32767,1,1,P\r
3,UC,C,,V,0.0325,0,0,-32767,32767,1,1,P\r
50\r
1\r
1200,722400\r
01/03/2024,11:59:59.000000\r
01/03/2024,11:59:59.000000\r
BINARY\r
1\r
";

// Runs the words over no file and a sink with room for a whole dat.
fn emitted(alloc: Global, words: &[&str]) -> Result<MemSink, Fail> {
    let mut shelf = MemShelf::new(Vec::new(alloc), Vec::new(alloc), 1);
    let mut sink = MemSink::new(alloc, 11_000_000, Vec::new(alloc), 1_000_000)?;
    let status = still(alloc, &strings(alloc, words)?, &mut shelf, &mut sink);
    if status != Status::Done {
        return Err(Fail::new(status.code()));
    }
    Ok(sink)
}

// emitted_files: the cfg, the same for each seed; the length of the dat and its first record.
#[test]
fn emitted_files(rt: HostRuntime) -> Result<(), Fail> {
    let alloc = rt.alloc();
    for seed in ["1", "18446744073709551615"] {
        let cfg = emitted(alloc, &["emit", "cfg", seed])?;
        assert_eq!(rt; cfg.taken(), CFG.as_bytes());
    }
    let dat = emitted(alloc, &["emit", "dat", "1"])?;
    assert_eq!(rt; dat.taken().len(), 10_113_600);
    assert_eq!(rt;
        &dat.taken()[..14],
        [1, 0, 0, 0, 0, 0, 0, 0, 0, 0, 0, 0, 0, 0].as_slice()
    );
    Ok(())
}
