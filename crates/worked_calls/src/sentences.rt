// The sentence and the exit code of each status.
use comtrade_cfg::{Quantity, Unsupported};
use pq_run::{DatFault, Status, fault_text};
use std::test::Fail;

const NO_FIELD: Status = Status::CfgFault { line: 2, field: 0 };

const FIELD: Status = Status::CfgFault { line: 3, field: 13 };

const UNSUPPORTED: Status = Status::Unsupported {
    what: Unsupported::FileType,
    line: 9,
};

const LIMIT: Status = Status::Limit {
    what: Quantity::Samples,
    line: 6,
};

const OVER: Status = Status::Limit {
    what: Quantity::DatBytes,
    line: 0,
};

const fn dat(kind: DatFault) -> Status {
    Status::DatFault { kind }
}

#[test]
fn sentences(rt: HostRuntime) -> Result<(), Fail> {
    let alloc = rt.alloc();
    for (status, code, sentence) in [
        (Status::Done, 0, ""),
        (Status::Usage, 1, "usage: words not understood"),
        (
            NO_FIELD,
            2,
            "cfg line 2: missing, surplus or wrong number of fields",
        ),
        (FIELD, 2, "cfg line 3 field 13: not readable"),
        (UNSUPPORTED, 3, "cfg line 9: unsupported file type"),
        (LIMIT, 4, "cfg line 6: limit passed: samples"),
        (OVER, 4, "limit passed: dat bytes"),
        (
            Status::Selection { channel: 0 },
            5,
            "selection: no voltage channel",
        ),
        (Status::Selection { channel: 9 }, 5, "selection: channel 9"),
        (Status::BadLimits, 6, "settings: thresholds out of order"),
        (
            dat(DatFault::Short { at: 552 }),
            7,
            "dat record 552: cut off",
        ),
        (
            dat(DatFault::Number { at: 3, found: 7 }),
            7,
            "dat record 3: sample number 7",
        ),
        (
            dat(DatFault::Missing { at: 5, channel: 1 }),
            7,
            "dat record 5: channel 1 missing",
        ),
        (
            dat(DatFault::Long { bytes: 1 }),
            7,
            "dat: 1 bytes after the last record",
        ),
        (Status::ReadFault { faults: 1 }, 8, "read failed (1)"),
        (Status::WriteFault { faults: 2 }, 9, "write failed (2)"),
        (Status::OutOfMemory, 11, "out of memory"),
        (Status::NoFile { file: 2 }, 14, "file 2: not found"),
    ] {
        assert_eq!(rt; status.code(), code);
        let text = fault_text(alloc, &status)?;
        assert_eq!(rt; text.bytes(), sentence.as_bytes());
    }
    Ok(())
}
