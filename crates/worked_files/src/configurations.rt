// Configurations through `read_cfg` and `select`, where memory suffices.
ghost use Rattle.comtrade_cfg.specs.CfgText.{IsConfiguration};
ghost use Rattle.comtrade_cfg.specs.Configuration.{cfg_view};

use comtrade_cfg::{Cfg, CfgFault, Quantity, SelectFault, Unsupported, read_cfg, select};
use std::alloc::{AllocError, Global};
use std::process::Abort;
use std::test::Fail;

// The cfg of the recording two_intervals.
const LINES: [&[u8]; 10] = [
    b"demo,pqa,1999",
    b"1,1A,0D",
    b"1,UA,A,,V,0.0325,0,0,-32767,32767,1,1,P",
    b"50",
    b"1",
    b"1200,552",
    b"01/03/2024,12:00:01.000000",
    b"01/03/2024,12:00:01.000000",
    b"BINARY",
    b"1",
];

fn field(line: u32, field: u32) -> Option<CfgFault> {
    Some(CfgFault::Field { line, field })
}

fn line(number: u32) -> Option<CfgFault> {
    Some(CfgFault::Line { number })
}

fn unsupported(what: Unsupported, line: u32) -> Option<CfgFault> {
    Some(CfgFault::Unsupported { what, line })
}

fn limit(what: Quantity, line: u32) -> Option<CfgFault> {
    Some(CfgFault::Limit { what, line })
}

// The cfg with another line of this number, from 1.
fn with_line(alloc: Global, number: usize, other: &[u8]) -> Result<Vec<u8>, AllocError> {
    let mut text = Vec::new(alloc);
    for (index, own) in LINES.iter().enumerate() {
        text.extend_from_slice(if index + 1 == number { other } else { own })?;
        text.push(b'\n')?;
    }
    Ok(text)
}

// As many analogue and as many status channels.
fn with_channels(alloc: Global, count: u32) -> Result<Vec<u8>, AllocError> {
    let mut text = Vec::new(alloc);
    let total = count.saturating_mul(2);
    text.extend_from_slice(format!(in alloc;
        "many,pqa,1999\r\n{total},{count}A,{count}D\r\n"
    )?.as_bytes())?;
    for n in 1..=count {
        text.extend_from_slice(format!(in alloc;
            "{n},U{n},A,,kV,1e-3,0,0,-32767,32767,1,1,P\r\n"
        )?.as_bytes())?;
    }
    for n in 1..=count {
        text.extend_from_slice(format!(in alloc; "{n},S{n},,,0\r\n")?.as_bytes())?;
    }
    text.extend_from_slice(
        b"60\r\n1\r\n1200,0\r\n1/3/2024,0:0:0\r\n1/3/2024,0:0:0\r\nbinary\r\n1",
    )?;
    Ok(text)
}

#[test]
fn first_faults(rt: HostRuntime) -> Result<(), Fail> {
    let alloc = rt.alloc();
    let lines: [(usize, &[u8], Option<CfgFault>); 34] = [
        (0, b"", None),
        (1, b" demo\t,pqa,01999", None),
        (1, b"demo,pqa", unsupported(Unsupported::Revision, 1)),
        (1, b"demo,pqa,1991", unsupported(Unsupported::Revision, 1)),
        (1, b"demo,pqa,1999,", line(1)),
        (1, b"de\rmo,pqa,1999", field(1, 1)),
        (1, b"demo,pqa,1999\r", None),
        (1, b"demo,pqa,2013", line(11)),
        (2, b"2,1A,0D", field(2, 1)),
        (2, b"1,1A,0X", field(2, 3)),
        (2, b"x,1A,0X", field(2, 3)),
        (2, b"01,1a,0d", None),
        (2, b"1000,1000A,0D", limit(Quantity::Analogue, 2)),
        (2, b"x,999A,1000D", limit(Quantity::Status, 2)),
        (2, b"999,999A,0D", line(4)),
        (2, b"12345678901,1A,0D", field(2, 1)),
        (3, b"2,UA,A,,V,x,0,0,-32767,32767,1,1,P", field(3, 1)),
        (3, b"1,UA,A,,V,x,0,0,-32767,32767,1,1,P", field(3, 6)),
        (3, b"1,UA,A,,V,1,,0,-32767,32767,1,1,P", field(3, 7)),
        (3, b"1,UA,A,,V,1,0,0,-32767,32767,1,1", line(3)),
        (4, b"5e1", None),
        (4, b"49.9999994", unsupported(Unsupported::Frequency, 4)),
        (4, b"x", field(4, 1)),
        (5, b"2", unsupported(Unsupported::Rates, 5)),
        (6, b"1200,x", field(6, 2)),
        (6, b"799.999999,x", limit(Quantity::Rate, 6)),
        (6, b"800,50000000", None),
        (6, b"800,50000001", limit(Quantity::Samples, 6)),
        (7, b"30/02/2024,12:00:01", field(7, 1)),
        (7, b"29/02/2024,24:00:00", field(7, 2)),
        (9, b"FLOAT32", unsupported(Unsupported::FileType, 9)),
        (9, b"bin", field(9, 1)),
        (10, b"1\n \t\n", None),
        (10, b"1\n\nx", line(12)),
    ];
    for (number, other, expected) in lines {
        let text = with_line(alloc, number, other)?;
        assert_eq!(rt;
            read_cfg(alloc, text.as_slice()).err(),
            expected,
            "{other:?}"
        );
    }
    let cuts = [
        (0, line(1)),
        (4, line(1)),
        (8, unsupported(Unsupported::Revision, 1)),
        (9, field(1, 3)),
        (12, unsupported(Unsupported::Revision, 1)),
        (13, line(2)),
        (14, line(2)),
        (62, line(4)),
        (74, line(7)),
        (135, field(9, 1)),
        (136, line(10)),
        (137, line(10)),
        (138, None),
    ];
    let text = with_line(alloc, 0, b"")?;
    for (kept, expected) in cuts {
        let front = text.get(..kept).ok_or("the text has 139 bytes")?;
        assert_eq!(rt; read_cfg(alloc, front).err(), expected, "{kept}");
    }
    let counts = [(1000, limit(Quantity::Analogue, 2)), (999, None)];
    for (count, expected) in counts {
        let text = with_channels(alloc, count)?;
        assert_eq!(rt; read_cfg(alloc, text.as_slice()).err(), expected, "{count}");
    }
    Ok(())
}

#[test]
fn selections(rt: HostRuntime) -> Result<(), Fail> {
    let text = with_channels(rt.alloc(), 20)?;
    match read_cfg(rt.alloc(), text.as_slice()) {
        Ok(cfg) => {
            check_selected(&rt, rt.alloc(), &cfg)?;
            check_refused(&rt, rt.alloc(), &cfg)
        }
        Err(fault) => {
            assert_eq!(rt; Some(fault), None);
            Ok(())
        }
    }
}

// The positions and the index of the reference that are selected of twenty channels in kV.
fn check_selected(rt: &impl Abort, alloc: Global, cfg: &Cfg) -> Result<(), Fail>
    requires { IsConfiguration (cfg_view cfg.now) }
{
    let first_sixteen = [1, 2, 3, 4, 5, 6, 7, 8, 9, 10, 11, 12, 13, 14, 15, 16];
    let rows: [(&[u32], Option<u32>, usize, u32, u32); 5] = [
        (&[3, 1], None, 2, 0, 0),
        (&[3, 1], Some(3), 2, 0, 1),
        (&[20, 7], Some(7), 2, 6, 0),
        (&[5], Some(5), 1, 4, 0),
        (&first_sixteen, Some(16), 16, 0, 15),
    ];
    for (wanted, reference, count, first, index) in rows {
        match select(alloc, cfg, Some(wanted), reference) {
            Ok(selection) => {
                assert_eq!(rt; selection.positions.len(), count);
                assert_eq!(rt;
                    selection.positions.as_slice().first().copied(),
                    Some(first)
                );
                assert_eq!(rt; selection.reference, index);
            }
            Err(fault) => assert_eq!(rt; Some(fault), None),
        }
    }
    Ok(())
}

// The faults of selections of twenty channels in kV.
fn check_refused(rt: &impl Abort, alloc: Global, cfg: &Cfg) -> Result<(), Fail>
    requires { IsConfiguration (cfg_view cfg.now) }
{
    let seventeen = [1, 2, 3, 4, 5, 6, 7, 8, 9, 10, 11, 12, 13, 14, 15, 16, 17];
    let rows: [(Option<&[u32]>, Option<u32>, SelectFault); 8] = [
        (None, None, SelectFault::TooMany),
        (Some(&seventeen), None, SelectFault::TooMany),
        (Some(&[1, 2, 1]), None, channel(1)),
        (Some(&[21]), None, channel(21)),
        (Some(&[0]), None, channel(0)),
        (Some(&[]), None, channel(0)),
        (Some(&[1, 2]), Some(4), channel(4)),
        (Some(&[2, 2, 21]), Some(4), channel(2)),
    ];
    for (wanted, reference, expected) in rows {
        assert_eq!(rt; select(alloc, cfg, wanted, reference).err(), Some(expected));
    }
    Ok(())
}

fn channel(channel: u32) -> SelectFault {
    SelectFault::Channel { channel }
}
