// The command `intervals` on records of a voltage, a current and 17 states: 16 bytes each.
use crate::reports::TWO_ROWS;
use pq_base::OutOfMemory;
use pq_run::{DatFault, Status};
use std::alloc::{AllocError, Global};
use std::test::Fail;
use worked_signals::{Outcome, Outside, Signal, WHOLE, run};

const WORDS: [&str; 5] = ["intervals", "--udin", "230000", "a.cfg", "a.dat"];

const CFG: &str = "demo,pqa,1999
19,2A,17D
1,UA,A,,V,0.0325,0,0,-32767,32767,1,1,P
2,IA,A,,A,0.5,0,0,-32767,32767,1,1,P
1,S1,,,0
2,S2,,,0
3,S3,,,0
4,S4,,,0
5,S5,,,0
6,S6,,,0
7,S7,,,0
8,S8,,,0
9,S9,,,0
10,S10,,,0
11,S11,,,0
12,S12,,,0
13,S13,,,0
14,S14,,,0
15,S15,,,0
16,S16,,,0
17,S17,,,0
50
1
1200,552
01/03/2024,12:00:01.000000
01/03/2024,12:00:01.000000
BINARY
1
";

// 552 records of a sine in the first channel, numbered from this number on. The current has no count, the
// states are all set, and the stamps fall.
fn wide_dat(alloc: Global, first: u32) -> Result<Vec<u8>, AllocError> {
    let mut dat = Vec::new(alloc);
    for i in 0..552u32 {
        dat.extend_from_slice(&first.wrapping_add(i).to_le_bytes())?;
        dat.extend_from_slice(&(1000 - i).to_le_bytes())?;
        dat.extend_from_slice(&Signal::Sine.count(i).to_le_bytes())?;
        dat.extend_from_slice(&i16::MIN.to_le_bytes())?;
        dat.extend_from_slice(&[0xff, 0xff, 1, 0])?;
    }
    Ok(dat)
}

fn run_wide(alloc: Global, dat: &[u8], outside: Outside<'_>) -> Result<Outcome, OutOfMemory> {
    run(alloc, &WORDS, Some(CFG.as_bytes()), Some(dat), outside)
}

// Also where the sample number goes from 4294967295 to 0, in pieces of every size.
#[test]
fn wide_record(rt: HostRuntime) -> Result<(), Fail> {
    let alloc = rt.alloc();
    for first in [1, 4_294_967_290] {
        let dat = wide_dat(alloc, first)?;
        for piece in [1, 100, 1_000_000] {
            let outside = Outside {
                read_piece: piece,
                ..WHOLE
            };
            let ran = run_wide(alloc, &dat, outside)?;
            assert_eq!(rt; ran.status, Status::Done, "{first} {piece}");
            assert_eq!(rt;
                ran.taken.as_slice(),
                TWO_ROWS.as_bytes(),
                "{first} {piece}"
            );
        }
    }
    Ok(())
}

// A fault of each kind: nothing is written.
#[test]
fn dat_cut_long_misnumbered(rt: HostRuntime) -> Result<(), Fail> {
    let alloc = rt.alloc();
    let whole = wide_dat(alloc, 1)?;
    let mut long = whole.to_vec(alloc)?;
    long.push(0)?;
    let mut missing = whole.to_vec(alloc)?;
    let mut misnumbered = whole.to_vec(alloc)?;
    assert!(rt; missing.len() > 80 && misnumbered.len() > 80);
    missing[72] = 0;
    missing[73] = 0x80;
    misnumbered[32] = 7;
    let cut = &whole[..whole.len().saturating_sub(1)];
    for (dat, kind) in [
        (cut, DatFault::Short { at: 552 }),
        (long.as_slice(), DatFault::Long { bytes: 1 }),
        (missing.as_slice(), DatFault::Missing { at: 5, channel: 1 }),
        (misnumbered.as_slice(), DatFault::Number { at: 3, found: 7 }),
    ] {
        let ran = run_wide(alloc, dat, WHOLE)?;
        assert_eq!(rt; ran.status, Status::DatFault { kind });
        assert_eq!(rt; ran.taken.len(), 0);
    }
    Ok(())
}

// Each call of the shelf fails in turn, by its number: open 0, read 1, read 2 at the end, open 3, read 4,
// read 5 at the end. There is no seventh.
#[test]
fn failing_calls(rt: HostRuntime) -> Result<(), Fail> {
    let alloc = rt.alloc();
    let dat = wide_dat(alloc, 1)?;
    for call in 0..7u64 {
        let outside = Outside {
            read_fails: &[call],
            ..WHOLE
        };
        let ran = run_wide(alloc, &dat, outside)?;
        if call < 6 {
            assert_eq!(rt; ran.status, Status::ReadFault { faults: 1 }, "call {call}");
            assert_eq!(rt; ran.taken.len(), 0, "call {call}");
        } else {
            assert_eq!(rt; ran.status, Status::Done);
            assert_eq!(rt; ran.taken.as_slice(), TWO_ROWS.as_bytes());
        }
    }
    Ok(())
}
