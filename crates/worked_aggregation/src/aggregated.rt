// Recordings of a sine, by hand: at 1200 Hz, 24 samples make a cycle and 240 a basic interval.
use pq_run::Status;
use std::alloc::Global;
use std::test::Fail;
use worked_signals::{Signal, WHOLE, WORKED, Written, cfg, dat, run};

const WORDS: [&str; 5] = ["intervals", "--udin", "230000", "a.cfg", "a.dat"];

// halved_half_cycles_fifteen: the value of the fifteen is the root of one that is lower and fourteen others.
// Two basic intervals follow, which begin a 150-cycle interval that is never whole.
const FIFTEEN: &str = "kind,channel,start,end,from,to,tick,value,count,mark
basic,1,24,264,2024-03-01T12:00:00.020000000Z,2024-03-01T12:00:00.220000000Z,,229805362,10,flagged
dip,1,252,336,2024-03-01T12:00:00.210000000Z,2024-03-01T12:00:00.280000000Z,,114896273,0,closed
basic,1,264,504,2024-03-01T12:00:00.220000000Z,2024-03-01T12:00:00.420000000Z,,211869380,10,flagged
basic,1,504,744,2024-03-01T12:00:00.420000000Z,2024-03-01T12:00:00.620000000Z,,229805362,10,clear
basic,1,744,984,2024-03-01T12:00:00.620000000Z,2024-03-01T12:00:00.820000000Z,,229805362,10,clear
basic,1,984,1224,2024-03-01T12:00:00.820000000Z,2024-03-01T12:00:01.020000000Z,,229805362,10,clear
basic,1,1224,1464,2024-03-01T12:00:01.020000000Z,2024-03-01T12:00:01.220000000Z,,229805362,10,clear
basic,1,1464,1704,2024-03-01T12:00:01.220000000Z,2024-03-01T12:00:01.420000000Z,,229805362,10,clear
basic,1,1704,1944,2024-03-01T12:00:01.420000000Z,2024-03-01T12:00:01.620000000Z,,229805362,10,clear
basic,1,1944,2184,2024-03-01T12:00:01.620000000Z,2024-03-01T12:00:01.820000000Z,,229805362,10,clear
basic,1,2184,2424,2024-03-01T12:00:01.820000000Z,2024-03-01T12:00:02.020000000Z,,229805362,10,clear
basic,1,2424,2664,2024-03-01T12:00:02.020000000Z,2024-03-01T12:00:02.220000000Z,,229805362,10,clear
basic,1,2664,2904,2024-03-01T12:00:02.220000000Z,2024-03-01T12:00:02.420000000Z,,229805362,10,clear
basic,1,2904,3144,2024-03-01T12:00:02.420000000Z,2024-03-01T12:00:02.620000000Z,,229805362,10,clear
basic,1,3144,3384,2024-03-01T12:00:02.620000000Z,2024-03-01T12:00:02.820000000Z,,229805362,10,clear
basic,1,3384,3624,2024-03-01T12:00:02.820000000Z,2024-03-01T12:00:03.020000000Z,,229805362,10,clear
short,1,24,3624,2024-03-01T12:00:00.020000000Z,2024-03-01T12:00:03.020000000Z,,228653405,15,flagged
basic,1,3624,3864,2024-03-01T12:00:03.020000000Z,2024-03-01T12:00:03.220000000Z,,229805362,10,clear
basic,1,3864,4104,2024-03-01T12:00:03.220000000Z,2024-03-01T12:00:03.420000000Z,,229805362,10,clear
";

// The report of a signal.
fn report(alloc: Global, signal: Signal, written: Written<'_>) -> Result<Vec<u8>, Fail> {
    let cfg = cfg(alloc, written)?;
    let bytes = dat(alloc, &[signal], written.samples)?;
    let ran = run(alloc, &WORDS, Some(&cfg), Some(&bytes), WHOLE)?;
    Ok(if ran.status == Status::Done {
        ran.taken
    } else {
        Vec::new(alloc)
    })
}

// How many rows begin so.
fn count_of(report: &[u8], front: &str) -> usize {
    report
        .split(|byte| *byte == b'\n')
        .filter(|row| row.starts_with(front.as_bytes()))
        .count()
}

#[test]
fn halved_half_cycles_fifteen(rt: HostRuntime) -> Result<(), Fail> {
    let written = Written {
        first: "01/03/2024,12:00:00.000000",
        samples: 4224,
        ..WORKED
    };
    let report = report(rt.alloc(), Signal::Halved, written)?;
    assert_eq!(rt; report.as_slice(), FIFTEEN.as_bytes());
    Ok(())
}

// The places of the two ticks are 6 and 12,006; of the 500 cycle boundaries between, the first is 24.
#[test]
fn ten_seconds_of_frequency(rt: HostRuntime) -> Result<(), Fail> {
    let written = Written {
        first: "01/03/2024,12:00:09.995000",
        samples: 12_006,
        ..WORKED
    };
    let report = report(rt.alloc(), Signal::Sine, written)?;
    for (front, count) in [
        ("freq,", 1),
        ("basic,", 49),
        ("short,", 3),
        ("", 1 + 1 + 49 + 3 + 1),
    ] {
        assert_eq!(rt; count_of(&report, front), count, "{front}");
    }
    assert!(rt;
        report.ends_with(
            b"\nfreq,0,6,12006,2024-03-01T12:00:10.000000000Z,2024-03-01T12:00:20.000000000Z,\
2024-03-01T12:00:10.000000000Z,50000000,499,clear\n"
        )
    );
    Ok(())
}

// Fronts of how many rows of a report of ten minutes at 1199 Hz. Noon is at place 1199 and its front at 1200;
// ten minutes later it is place 720,599 and 720,600. The interval over each tick is completed.
const TEN_MINUTES: [(&str, usize); 18] = [
    ("", 1 + 3269 + 1),
    ("basic,1,", 5 + 2998 + 4),
    ("basic,1,984,1224,", 1),
    ("basic,1,1200,1440,", 1),
    ("basic,1,720480,720720,", 1),
    ("basic,1,720600,720840,", 1),
    ("short,1,", 201),
    ("short,1,24,3600,", 1),
    ("short,1,1200,4800,", 1),
    ("short,1,717600,721080,", 1),
    ("freq,0,", 60),
    (
        "freq,0,1199,13189,2024-03-01T12:00:00.000000000Z,2024-03-01T12:00:10.000000000Z,\
2024-03-01T12:00:00.000000000Z,49958333,499,clear",
        1,
    ),
    ("ten,", 1),
    (
        "ten,1,1200,720720,2024-03-01T12:00:00.000834028Z,2024-03-01T12:10:00.100917431Z,\
2024-03-01T12:00:00.000000000Z,229805362,2998,clear",
        1,
    ),
    ("two,", 0),
    ("dip,", 0),
    ("swell,", 0),
    ("interruption,", 0),
];

#[test]
fn ten_minutes_at_1199_hz(rt: HostRuntime) -> Result<(), Fail> {
    let written = Written {
        rate: "1199",
        first: "01/03/2024,11:59:59.000000",
        samples: 721_798,
        ..WORKED
    };
    let report = report(rt.alloc(), Signal::Sine, written)?;
    for (front, count) in TEN_MINUTES {
        assert_eq!(rt; count_of(&report, front), count, "{front}");
    }
    let rows = report.split(|byte| *byte == b'\n');
    assert_eq!(rt; rows.filter(|row| row.ends_with(b",clear")).count(), 3269);
    Ok(())
}
