// The command `intervals` on worked recordings, on cfgs and dats that are refused, and on calls that fail.
use crate::reports::{
    ALL_ZERO, AT_THRESHOLD, BELOW_THRESHOLD, HALVED, ONE_ROW, OVER_TICK, TWO_ROWS,
};
use comtrade_cfg::Quantity;
use pq_run::{DatFault, Status};
use std::alloc::{AllocError, Global};
use std::test::Fail;
use worked_signals::{
    HEADER, Outside, Signal, WHOLE, WORKED, Written, cfg, dat, one_channel, run, run_analyse,
};

const WORDS: [&str; 5] = ["intervals", "--udin", "230000", "a.cfg", "a.dat"];

const ANALYSE: [&str; 5] = ["analyse", "--udin", "230000", "a.cfg", "a.dat"];

// The worked cfg, at the half of a second before noon that puts noon at place 594.
const BEFORE_NOON: Written<'static> = Written {
    first: "01/03/2024,11:59:59.505000",
    ..WORKED
};

// At 0.02 V a count.
const SQUARE: Written<'static> = Written {
    channels: "1,1A,0D\n1,UA,A,,V,0.02,0,0,-32767,32767,1,1,P\n",
    ..WORKED
};

const AT: Signal = Signal::Stepped {
    then: 10_350,
    after: 11_500,
};

const BELOW: Signal = Signal::Stepped {
    then: 10_349,
    after: 10_580,
};

// Recordings of worked signals, in pieces of every size, and by `analyse`.
#[test]
fn worked_recordings(rt: HostRuntime) -> Result<(), Fail> {
    let alloc = rt.alloc();
    for (signal, written, samples, text) in [
        (Signal::Sine, WORKED, 0, HEADER),
        (Signal::Sine, WORKED, 504, ONE_ROW),
        (Signal::Sine, WORKED, 505, TWO_ROWS),
        (Signal::Sine, WORKED, 552, TWO_ROWS),
        (Signal::Zero, WORKED, 1200, ALL_ZERO),
        (Signal::Halved, WORKED, 552, HALVED),
        (Signal::Sine, BEFORE_NOON, 1200, OVER_TICK),
        (AT, SQUARE, 552, AT_THRESHOLD),
        (BELOW, SQUARE, 552, BELOW_THRESHOLD),
    ] {
        let cfg = cfg(alloc, Written { samples, ..written })?;
        let bytes = dat(alloc, &[signal], samples)?;
        for piece in [1, 100, 1_000_000] {
            let outside = Outside {
                read_piece: piece,
                write_piece: piece,
                ..WHOLE
            };
            let ran = run(alloc, &WORDS, Some(&cfg), Some(&bytes), outside)?;
            assert_eq!(rt; ran.status, Status::Done, "{samples} samples");
            assert_eq!(rt; ran.taken.as_slice(), text.as_bytes(), "{samples} samples");
        }
        let ran = run_analyse(&rt, alloc, &ANALYSE, Some(&cfg), Some(&bytes), WHOLE)?;
        assert_eq!(rt; ran.status, Status::Done, "{samples} samples");
        assert_eq!(rt; ran.taken.as_slice(), text.as_bytes(), "{samples} samples");
    }
    Ok(())
}

const VALUE: Status = Status::Limit {
    what: Quantity::Value,
    line: 3,
};

const RATE: Status = Status::Limit {
    what: Quantity::Rate,
    line: 6,
};

const NO_VOLTAGE: Status = Status::Selection { channel: 0 };

// value_and_rate_limits, with an empty dat.
#[test]
fn values_and_rates_at_their_limits(rt: HostRuntime) -> Result<(), Fail> {
    let alloc = rt.alloc();
    for (unit, coefficient, rate, status) in [
        ("V", "305.2", "1200", VALUE),
        ("V", "305.1", "1200", Status::Done),
        ("kV", "0.3051", "1200", Status::Done),
        ("V", "0.0325", "800", Status::Done),
        ("V", "0.0325", "799.999999", RATE),
        ("V", "305.2", "799.999999", RATE),
        ("A", "305.2", "1200", NO_VOLTAGE),
    ] {
        let channels = one_channel(alloc, unit, coefficient)?;
        let written = Written {
            channels: channels.as_str(),
            rate,
            ..WORKED
        };
        let ran = run(alloc, &WORDS, Some(&cfg(alloc, written)?), Some(&[]), WHOLE)?;
        assert_eq!(rt; ran.status, status, "{unit} {coefficient} {rate}");
        let text = if status == Status::Done { HEADER } else { "" };
        assert_eq!(rt; ran.taken.as_slice(), text.as_bytes());
    }
    Ok(())
}

// A second channel in volts, with an empty dat: two of which one passes its limit, and a current or a state
// beside a voltage.
#[test]
fn second_channels(rt: HostRuntime) -> Result<(), Fail> {
    let alloc = rt.alloc();
    for (channels, status) in [
        (LARGE_AND_SMALL, VALUE),
        (TWO_VOLTAGES, Status::Done),
        (CURRENT_AND_VOLTAGE, Status::Done),
        (VOLTAGE_AND_STATE, Status::Done),
    ] {
        let written = Written { channels, ..WORKED };
        let ran = run(alloc, &WORDS, Some(&cfg(alloc, written)?), Some(&[]), WHOLE)?;
        assert_eq!(rt; ran.status, status, "{channels}");
    }
    Ok(())
}

const LARGE_AND_SMALL: &str = "2,2A,0D
1,UA,A,,V,305.2,0,0,-32767,32767,1,1,P
2,UB,B,,V,1,0,0,-32767,32767,1,1,P
";

const TWO_VOLTAGES: &str = "2,2A,0D
1,UA,A,,V,305.1,0,0,-32767,32767,1,1,P
2,UB,B,,V,1,0,0,-32767,32767,1,1,P
";

const CURRENT_AND_VOLTAGE: &str = "2,2A,0D
1,IA,A,,A,305.2,0,0,-32767,32767,1,1,P
2,UB,B,,V,1,0,0,-32767,32767,1,1,P
";

const VOLTAGE_AND_STATE: &str = "2,1A,1D
1,UA,A,,V,0.0325,0,0,-32767,32767,1,1,P
1,IN 1,,,0
";

// The worked cfg of 552 samples.
fn worked_cfg(alloc: Global) -> Result<Vec<u8>, AllocError> {
    cfg(
        alloc,
        Written {
            samples: 552,
            ..WORKED
        },
    )
}

// Dats that are refused: nothing is written.
#[test]
fn refused_dats(rt: HostRuntime) -> Result<(), Fail> {
    let alloc = rt.alloc();
    let cfg = worked_cfg(alloc)?;
    let whole = dat(alloc, &[Signal::Sine], 552)?;
    let mut long = whole.to_vec(alloc)?;
    long.push(0)?;
    let mut missing = whole.to_vec(alloc)?;
    let mut misnumbered = whole.to_vec(alloc)?;
    assert!(rt; missing.len() > 49 && misnumbered.len() > 49);
    missing[48] = 0;
    missing[49] = 0x80;
    misnumbered[20] = 7;
    let cut = &whole[..whole.len().saturating_sub(1)];
    for (dat, kind) in [
        (cut, DatFault::Short { at: 552 }),
        (long.as_slice(), DatFault::Long { bytes: 1 }),
        (missing.as_slice(), DatFault::Missing { at: 5, channel: 1 }),
        (misnumbered.as_slice(), DatFault::Number { at: 3, found: 7 }),
        (&[], DatFault::Short { at: 1 }),
    ] {
        let ran = run(alloc, &WORDS, Some(&cfg), Some(dat), WHOLE)?;
        assert_eq!(rt; ran.status, Status::DatFault { kind });
        assert_eq!(rt; ran.taken.len(), 0);
    }
    Ok(())
}

// Files that are missing, over their limit or no cfg: nothing is written.
#[test]
fn refused_files(rt: HostRuntime) -> Result<(), Fail> {
    let alloc = rt.alloc();
    let cfg = worked_cfg(alloc)?;
    let large = vec![in alloc; 0u8; 1_048_577]?;
    let over = Status::Limit {
        what: Quantity::CfgBytes,
        line: 0,
    };
    let no_line = Status::CfgFault { line: 2, field: 0 };
    for (cfg, status) in [
        (None, Status::NoFile { file: 1 }),
        (Some(cfg.as_slice()), Status::NoFile { file: 2 }),
        (Some(b"demo,pqa,1999\n".as_slice()), no_line),
        (Some(large.as_slice()), over),
    ] {
        let ran = run(alloc, &WORDS, cfg, None, WHOLE)?;
        assert_eq!(rt; ran.status, status);
        assert_eq!(rt; ran.taken.len(), 0);
    }
    Ok(())
}

// A write that fails leaves a front; each call of the shelf that fails leaves nothing.
#[test]
fn failing_calls(rt: HostRuntime) -> Result<(), Fail> {
    let alloc = rt.alloc();
    let cfg = worked_cfg(alloc)?;
    let bytes = dat(alloc, &[Signal::Sine], 552)?;
    let second_write = Outside {
        write_fails: &[1],
        write_piece: 100,
        ..WHOLE
    };
    let ran = run(alloc, &WORDS, Some(&cfg), Some(&bytes), second_write)?;
    assert_eq!(rt; ran.status, Status::WriteFault { faults: 1 });
    assert_eq!(rt; ran.taken.as_slice(), &TWO_ROWS.as_bytes()[..100]);

    // open 0, read 1, read 2 at the end, open 3, read 4, read 5 at the end
    for call in 0..6 {
        let outside = Outside {
            read_fails: &[call],
            ..WHOLE
        };
        let ran = run(alloc, &WORDS, Some(&cfg), Some(&bytes), outside)?;
        assert_eq!(rt; ran.status, Status::ReadFault { faults: 1 }, "call {call}");
        assert_eq!(rt; ran.taken.len(), 0, "call {call}");
    }
    let seventh_read = Outside {
        read_fails: &[6],
        ..WHOLE
    };
    let ran = run(alloc, &WORDS, Some(&cfg), Some(&bytes), seventh_read)?;
    assert_eq!(rt; ran.status, Status::Done);
    assert_eq!(rt; ran.taken.as_slice(), TWO_ROWS.as_bytes());
    Ok(())
}

// Words that are no command: nothing is asked for.
#[test]
fn words_that_are_not_understood(rt: HostRuntime) -> Result<(), Fail> {
    let alloc = rt.alloc();
    let said: [&[&str]; 9] = [
        &["intervals", "--udin", "0", "a.cfg", "a.dat"],
        &["intervals", "--udin", "1000000001", "a.cfg", "a.dat"],
        &["intervals", "--udin", "00000000001", "a.cfg", "a.dat"],
        &["intervals", "--udin", "+1", "a.cfg", "a.dat"],
        &["analyse", "--udin", "1", "a.cfg", "a.dat"],
        &["intervals", "a.cfg", "a.dat"],
        &["check"],
        &["check", "a.cfg", "a.dat"],
        &[],
    ];
    for words in said {
        let outside = Outside {
            read_fails: &[0],
            ..WHOLE
        };
        let ran = run(alloc, words, None, None, outside)?;
        assert_eq!(rt; ran.status, Status::Usage);
        assert_eq!(rt; ran.taken.len(), 0);
    }
    Ok(())
}
