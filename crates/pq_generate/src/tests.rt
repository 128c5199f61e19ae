use crate::*;
use std::alloc::{AllocError, Global};
use std::process::Abort;
use std::test::Fail;

// Of a sample, from 0, the counts of the three channels.
type Row = (u32, [i16; 3]);

// The record of a sample, byte by byte.
fn record(alloc: Global, row: &Row) -> Result<Vec<u8>, AllocError> {
    let (sample, counts) = *row;
    let mut bytes = Vec::new(alloc);
    bytes.extend_from_slice(&sample.wrapping_add(1).to_le_bytes())?;
    bytes.extend_from_slice(&[0; 4])?;
    for count in counts {
        bytes.extend_from_slice(&count.to_le_bytes())?;
    }
    Ok(bytes)
}

// A dat has as many bytes as it should, and these records in their places.
fn expect_records(rt: &impl Abort, alloc: Global, dat: &[u8], rows: &[Row]) -> Result<(), Fail> {
    assert_eq!(rt; dat.len(), 10_113_600);
    for row in rows {
        let start = 14 * u64::from(row.0) as usize;
        let record = record(alloc, row)?;
        assert!(rt;
            dat.get(start..start + 14) == Some(record.as_slice()),
            "sample {}",
            row.0
        );
    }
    Ok(())
}

// Counts of some samples, worked out apart from any program: of seed 1 the disturbances lie on channel 1 in
// cycles 874 to 919 (nothing), on 3 in 3253 to 3273 (a half), on 2 in 13134 to 13164 (six fifths), on 1 in
// 27846 to 27894 (a half).
const OF_ONE: [Row; 12] = [
    (20_975, [-2588, -2588, -2588]),
    (20_982, [0, 10_000, 10_000]),
    (22_079, [0, -2588, -2588]),
    (22_081, [2588, 2588, 2588]),
    (78_075, [7071, 7071, 3535]),
    (78_087, [-7071, -7071, -3535]),
    (78_575, [-2588, -2588, -1294]),
    (78_577, [2588, 2588, 2588]),
    (315_217, [2588, 3105, 2588]),
    (315_229, [-2588, -3105, -2588]),
    (668_309, [4829, 9659, 9659]),
    (722_399, [-2588, -2588, -2588]),
];

// Of seed 0 channel 3 has six fifths from cycle 1907 on; of the greatest seed it has nothing from cycle 588
// on, and channel 1 six fifths from 10702 on.
const OF_NOUGHT: [Row; 2] = [
    (45_767, [-2588, -2588, -2588]),
    (45_769, [2588, 2588, 3105]),
];

const OF_MOST: [Row; 2] = [
    (14_118, [10_000, 10_000, 0]),
    (256_866, [-12_000, -10_000, -10_000]),
];

#[test]
fn generated_recording(rt: HostRuntime) -> Result<(), Fail> {
    let lines = [
        "generated,pqa,1999",
        "3,3A,0D",
        "1,UA,A,,V,0.0325,0,0,-32767,32767,1,1,P",
        "2,UB,B,,V,0.0325,0,0,-32767,32767,1,1,P",
        "3,UC,C,,V,0.0325,0,0,-32767,32767,1,1,P",
        "50",
        "1",
        "1200,722400",
        "01/03/2024,11:59:59.000000",
        "01/03/2024,11:59:59.000000",
        "BINARY",
        "1",
    ];
    let mut cfg = Vec::new(rt.alloc());
    for line in lines {
        cfg.extend_from_slice(line.as_bytes())?;
        cfg.extend_from_slice(&[13, 10])?;
    }
    let seeds: [(u64, &[Row]); 3] = [(0, &OF_NOUGHT), (1, &OF_ONE), (u64::MAX, &OF_MOST)];
    for (seed, rows) in seeds {
        let made = generate(rt.alloc(), seed).ok().ok_or("out of memory")?;
        assert!(rt; made.cfg.bytes() == cfg.as_slice());
        assert!(rt;
            made.dat.bytes().get(..14)
                == Some([1, 0, 0, 0, 0, 0, 0, 0, 0, 0, 0, 0, 0, 0].as_slice())
        );
        expect_records(&rt, rt.alloc(), made.dat.bytes(), rows)?;
    }
    Ok(())
}
