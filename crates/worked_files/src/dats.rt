// Records as `record16` makes them and `read_dat` reads them: two analogue channels, of which the first is
// in volts, and 17 status channels.
use comtrade_cfg::{read_cfg, select};
use comtrade_dat::{
    DatFault, DatReader, MISSING_COUNT, OneThread, SideBySide, Taking, read_dat, record16,
};
use pq_base::{OutOfMemory, Recording};
use std::alloc::{AllocError, Global};
use std::test::Fail;

const FRONT: &str = "demo,pqa,1999
19,2A,17D
1,UA,A,,V,0.0325,0,0,-32767,32767,1,1,P
2,IA,A,,A,1,0,0,-32767,32767,1,1,P
";

const BACK: &str = "
01/03/2024,12:00:01.000000
01/03/2024,12:00:01.000000
BINARY
1
";

// Five records of three channels.
const THREE: &str = "demo,pqa,1999
3,3A,0D
1,UA,A,,V,0.0325,0,0,-32767,32767,1,1,P
2,UB,B,,V,0.0325,0,0,-32767,32767,1,1,P
3,UC,C,,V,0.0325,0,0,-32767,32767,1,1,P
50
1
1200,5
01/03/2024,12:00:01.000000
01/03/2024,12:00:01.000000
BINARY
1
";

// The cfg that says so many samples.
fn wide_cfg(alloc: Global, samples: u32) -> Result<Vec<u8>, AllocError> {
    let mut text = Vec::new(alloc);
    text.extend_from_slice(FRONT.as_bytes())?;
    for n in 1..=17 {
        let line = format!(in alloc; "{n},IN {n},,,0\n")?;
        text.extend_from_slice(line.as_bytes())?;
    }
    let rate = format!(in alloc; "50\n1\n1200,{samples}")?;
    text.extend_from_slice(rate.as_bytes())?;
    text.extend_from_slice(BACK.as_bytes())?;
    Ok(text)
}

// Records of these numbers and counts of the first channel; the second has none.
fn wide_dat(alloc: Global, records: &[(u32, i16)]) -> Result<Vec<u8>, OutOfMemory> {
    let mut dat = Vec::new(alloc);
    for &(number, count) in records {
        let bytes = record16(alloc, number, 0, &[count, MISSING_COUNT], &[1, 0x8000])?;
        dat.extend_from_slice(&bytes)?;
    }
    Ok(dat)
}

// The samples of the first channel, or the fault of the dat; None where the cfg is refused.
fn read(alloc: Global, cfg: &[u8], dat: &[u8]) -> Option<Result<Vec<i64>, DatFault>> {
    let Ok(cfg) = read_cfg(alloc, cfg) else {
        return None;
    };
    let Ok(selection) = select(alloc, &cfg, None, None) else {
        return None;
    };
    samples_of(alloc, read_dat(alloc, &cfg, &selection, dat))
}

// The same of a dat that comes in pieces of so many bytes.
fn read_in_pieces(
    alloc: Global,
    cfg: &[u8],
    dat: &[u8],
    size: usize,
) -> Option<Result<Vec<i64>, DatFault>> {
    samples_of(
        alloc,
        recording_in_pieces(alloc, &OneThread, cfg, dat, size)?,
    )
}

// The recording of a dat that comes in pieces of so many bytes, or its fault.
fn recording_in_pieces<T: Taking>(
    alloc: Global,
    taking: &T,
    cfg: &[u8],
    dat: &[u8],
    size: usize,
) -> Option<Result<Recording, DatFault>>
    requires { T.is_ready taking.now }
{
    if size == 0 {
        return None;
    }
    let Ok(cfg) = read_cfg(alloc, cfg) else {
        return None;
    };
    let Ok(selection) = select(alloc, &cfg, None, None) else {
        return None;
    };
    let mut reader = DatReader::open(alloc, &cfg, &selection).ok()?;
    for piece in dat.chunks(size) {
        reader.feed(taking, piece).ok()?;
    }
    Some(reader.finish(alloc))
}

// The samples of the one channel of a recording, or the fault.
fn samples_of(
    alloc: Global,
    read: Result<Recording, DatFault>,
) -> Option<Result<Vec<i64>, DatFault>> {
    match read {
        Ok(recording) if recording.channels() == 1 => {
            Some(Ok(recording.samples(0).to_vec(alloc).ok()?))
        }
        Ok(_) => None,
        Err(fault) => Some(Err(fault)),
    }
}

// 16 bytes a record; a number goes from the greatest to 0; the count of a channel that is not selected may
// be missing.
#[test]
fn wide_record(rt: HostRuntime) -> Result<(), Fail> {
    let alloc = rt.alloc();
    let records = [(4_294_967_295, 0), (0, 2588), (1, -2588)];
    let dat = wide_dat(alloc, &records).expect(&rt, "memory");
    assert_eq!(rt; dat.len(), 48);
    let read = read(alloc, &wide_cfg(alloc, 3)?, &dat).expect(&rt, "a good cfg");
    let samples = read.expect(&rt, "a good dat");
    assert_eq!(rt; samples.as_slice(), [0, 84_110_000, -84_110_000].as_slice());
    Ok(())
}

// Each fault with its place; a cfg of very many samples over a dat of none.
#[test]
fn dat_cut_long_misnumbered(rt: HostRuntime) -> Result<(), Fail> {
    let alloc = rt.alloc();
    let good = wide_dat(alloc, &[(1, 0), (2, 1), (3, 2)]).expect(&rt, "memory");
    let mut long = good.to_vec(alloc)?;
    long.push(0)?;
    let misnumbered = wide_dat(alloc, &[(1, 0), (2, 1), (7, 2)]).expect(&rt, "memory");
    let missing = wide_dat(alloc, &[(1, 0), (2, MISSING_COUNT), (7, 2)]).expect(&rt, "memory");
    let mut cut = good.to_vec(alloc)?;
    cut.pop();
    for (samples, dat, fault) in [
        (3, cut.as_slice(), DatFault::Short { at: 3 }),
        (3, long.as_slice(), DatFault::Long { bytes: 1 }),
        (
            3,
            misnumbered.as_slice(),
            DatFault::Number { at: 3, found: 7 },
        ),
        (
            3,
            missing.as_slice(),
            DatFault::Missing { at: 2, channel: 1 },
        ),
        (50_000_000, [].as_slice(), DatFault::Short { at: 1 }),
    ] {
        let read = read(alloc, &wide_cfg(alloc, samples)?, dat).expect(&rt, "a good cfg");
        assert!(rt; read.is_err_and(|found| found == fault), "{fault:?}");
    }
    Ok(())
}

// A dat of 16 bytes a record gives the same however it is cut: in single bytes, in sevens, by records, and by
// records and a half; so does one at fault, with bytes after the fault.
#[test]
fn dat_in_pieces(rt: HostRuntime) -> Result<(), Fail> {
    let alloc = rt.alloc();
    let good = wide_dat(alloc, &[(7, 1), (8, 2), (9, -3), (10, 4), (11, 5)]).expect(&rt, "memory");
    let misnumbered = wide_dat(alloc, &[(7, 1), (8, 2), (8, 3), (1, 4)]).expect(&rt, "memory");
    let missing = wide_dat(alloc, &[(7, 1), (8, MISSING_COUNT), (9, 3)]).expect(&rt, "memory");
    let mut cut = good.to_vec(alloc)?;
    cut.truncate(70);
    let cfg = wide_cfg(alloc, 5)?;
    let few = wide_cfg(alloc, 4)?;
    for size in [1, 7, 16, 24] {
        for (cfg, dat) in [
            (cfg.as_slice(), good.as_slice()),
            (cfg.as_slice(), cut.as_slice()),
            (few.as_slice(), good.as_slice()),
            (cfg.as_slice(), misnumbered.as_slice()),
            (cfg.as_slice(), missing.as_slice()),
        ] {
            let whole = read(alloc, cfg, dat).expect(&rt, "a good cfg");
            let pieces = read_in_pieces(alloc, cfg, dat, size).expect(&rt, "memory");
            assert!(rt; pieces == whole, "{size}");
        }
    }
    Ok(())
}

// Five records of three counts: 1 to 5, their negatives but for one record, and threes.
fn three_dat(alloc: Global, missing: Option<u32>) -> Result<Vec<u8>, OutOfMemory> {
    let mut dat = Vec::new(alloc);
    for (number, count) in [(1, 1i16), (2, 2), (3, 3), (4, 4), (5, 5)] {
        let second = if missing == Some(number) {
            MISSING_COUNT
        } else {
            -count
        };
        let bytes = record16(alloc, number, 0, &[count, second, 3], &[])?;
        dat.extend_from_slice(&bytes)?;
    }
    Ok(dat)
}

// Three channels whose samples threads take, 32.5 millivolts a count, of a dat in pieces of a record and a
// half; and the fault of a record whose second channel has no count.
#[test]
fn channels_side_by_side(rt: HostRuntime) -> Result<(), Fail> {
    let alloc = rt.alloc();
    let taking = SideBySide { rt: &rt };
    let cfg = THREE.as_bytes();
    let good = three_dat(alloc, None).expect(&rt, "memory");
    let read = recording_in_pieces(alloc, &taking, cfg, &good, 21).expect(&rt, "memory");
    let recording = read.expect(&rt, "a good dat");
    assert_eq!(rt; recording.channels(), 3);
    for (channel, samples) in [
        (0, [32_500i64, 65_000, 97_500, 130_000, 162_500]),
        (1, [-32_500, -65_000, -97_500, -130_000, -162_500]),
        (2, [97_500; 5]),
    ] {
        assert!(rt;
            recording.samples(channel) == samples.as_slice(),
            "{channel}"
        );
    }
    let missing = three_dat(alloc, Some(4)).expect(&rt, "memory");
    let read = recording_in_pieces(alloc, &taking, cfg, &missing, 21).expect(&rt, "memory");
    let fault = DatFault::Missing { at: 4, channel: 2 };
    assert!(rt; read.is_err_and(|found| found == fault), "{fault:?}");
    Ok(())
}
