// Texts of reports by hand, read back, the first fault of texts that are none, and a summary by hand.
ghost use Rattle.std.specs.Prelude.{All};
ghost use Rattle.pq_items.specs.ItemRange.{IsItemInRange};
ghost use Rattle.pq_time.specs.Time.{IsClock};

use crate::{ReportFault, header, read_report, report, row, summary};
use pq_base::OutOfMemory;
use pq_items::Item;
use pq_time::Clock;
use std::alloc::{AllocError, Global};
use std::cmp::Ordering;
use std::process::Abort;
use std::test::Fail;

const HEAD: &str = "kind,channel,start,end,from,to,tick,value,count,mark\n";

// The rows of two_intervals.
const FIRST: &str = "basic,1,24,264,2024-03-01T12:00:01.020000000Z,2024-03-01T12:00:01.220000000Z,\
    ,229805362,10,clear\n";

const SECOND: &str =
    "basic,1,264,504,2024-03-01T12:00:01.220000000Z,2024-03-01T12:00:01.420000000Z,\
    ,229805362,10,clear\n";

// The moments of the first row's places, and of two that are ten seconds apart.
const SPAN: &str = "2024-03-01T12:00:01.020000000Z,2024-03-01T12:00:01.220000000Z";

const TENS: &str = "2024-03-01T12:00:10.000000000Z,2024-03-01T12:00:20.000000000Z";

// From a second after noon of 1 March 2024, at 1200 Hz.
fn clock() -> Clock
    ensures { IsClock result }
{
    Clock {
        t0: 1_709_294_401_000_000_000,
        rate: 1_200_000_000,
    }
}

fn basic(start: u64, end: u64) -> Item {
    Item::Basic {
        channel: 1,
        start,
        end,
        cycles: 10,
        value: 229_805_362,
        flagged: false,
    }
}

fn joined(alloc: Global, pieces: &[&str]) -> Result<Vec<u8>, AllocError> {
    let mut text = Vec::new(alloc);
    for piece in pieces {
        text.extend_from_slice(piece.as_bytes())?;
    }
    Ok(text)
}

// The header and the row of each item, one after another.
fn by_rows(alloc: Global, items: &[Item]) -> Result<Vec<u8>, OutOfMemory>
    requires { All IsItemInRange items.now }
{
    let mut text = header(alloc)?.bytes().to_vec(alloc)?;
    for item in items {
        text.extend_from_slice(row(alloc, &clock(), item)?.bytes())?;
    }
    Ok(text)
}

// What a text is read as: so many items, or its first fault.
fn at(row: u64, field: u32) -> Result<usize, ReportFault> {
    Err(ReportFault::Field { row, field })
}

fn count(alloc: Global, text: &[u8]) -> Result<usize, ReportFault> {
    Ok(read_report(alloc, &clock(), text)?.len())
}

#[test]
fn report_read_back(rt: HostRuntime) -> Result<(), Fail> {
    let alloc = rt.alloc();
    let items = [basic(24, 264), basic(264, 504)];
    let text = joined(alloc, &[HEAD, FIRST, SECOND])?;
    let read = read_report(alloc, &clock(), text.as_slice());
    assert!(rt; read.is_ok());
    let read = read?;
    assert_eq!(rt; read.len(), 2);
    for (found, wanted) in read.iter().zip(&items) {
        assert!(rt; found.compare(wanted) == Ordering::Equal);
    }
    let written = report(alloc, &clock(), read.as_slice())?;
    assert!(rt; written.bytes() == text.as_slice());
    let rows = by_rows(alloc, read.as_slice())?;
    assert!(rt; rows.as_slice() == text.as_slice());
    assert!(rt; header(alloc)?.bytes() == HEAD.as_bytes());
    Ok(())
}

#[test]
fn first_faults(rt: HostRuntime) -> Result<(), Fail> {
    let alloc = rt.alloc();
    let cases: [(&[&str], Result<usize, ReportFault>); 29] = [
        (&[HEAD, FIRST, SECOND], Ok(2)),
        (&[HEAD], Ok(0)),
        (
            &[
                HEAD,
                "freq,0,10800,22800,",
                TENS,
                ",2024-03-01T12:00:10.000000000Z,50000000,499,clear\n",
            ],
            Ok(1),
        ),
        (&[HEAD, "dip,12,24,264,", SPAN, ",,0,0,open\n"], Ok(1)),
        (&[], at(1, 0)),
        (
            &["kind,channel,start,end,from,to,value,tick,count,mark\n"],
            at(1, 7),
        ),
        (&["kind\n"], at(1, 0)),
        (&[HEAD, "\n"], at(2, 0)),
        (
            &[
                HEAD,
                "basic,1,24,265,",
                SPAN,
                ",,229805362,10,clear\n",
                SECOND,
            ],
            at(2, 6),
        ),
        (
            &[HEAD, FIRST, "basic,1,24,264,", SPAN, ",,229805362,10\n"],
            at(3, 0),
        ),
        (
            &[HEAD, "basic,1,24,264,", SPAN, ",,229805362,10,clear,\n"],
            at(2, 0),
        ),
        (
            &[HEAD, "\"basic\",1,24,264,", SPAN, ",,229805362,10,clear\n"],
            at(2, 1),
        ),
        (
            &[HEAD, "basic,1,24,264,", SPAN, ",,229805362,10,clear\r\n"],
            at(2, 10),
        ),
        (
            &[HEAD, "basic,0,24,264,", SPAN, ",,229805362,10,clear\n"],
            at(2, 2),
        ),
        (
            &[HEAD, "basic,1000,24,264,", SPAN, ",,229805362,10,clear\n"],
            at(2, 2),
        ),
        (
            &[
                HEAD,
                "freq,1,10800,22800,",
                TENS,
                ",2024-03-01T12:00:10.000000000Z,50000000,499,clear\n",
            ],
            at(2, 2),
        ),
        (
            &[HEAD, "basic,1,024,264,", SPAN, ",,229805362,10,clear\n"],
            at(2, 3),
        ),
        (
            &[HEAD, "basic,1,+24,264,", SPAN, ",,229805362,10,clear\n"],
            at(2, 3),
        ),
        (
            &[HEAD, "basic,1,24,50000001,", SPAN, ",,229805362,10,clear\n"],
            at(2, 4),
        ),
        (
            &[HEAD, "basic,1,25,264,", SPAN, ",,229805362,10,clear\n"],
            at(2, 5),
        ),
        (
            &[
                HEAD,
                "basic,1,24,264,",
                SPAN,
                ",2024-03-01T12:00:10.000000000Z,229805362,10,clear\n",
            ],
            at(2, 7),
        ),
        (
            &[HEAD, "freq,0,10800,22800,", TENS, ",,50000000,499,clear\n"],
            at(2, 7),
        ),
        (
            &[
                HEAD,
                "freq,0,10800,22800,",
                TENS,
                ",2024-02-30T12:00:10.000000000Z,50000000,499,clear\n",
            ],
            at(2, 7),
        ),
        (
            &[
                HEAD,
                "freq,0,10800,22800,",
                TENS,
                ",2024-03-01T12:00:10.000000001Z,50000000,499,clear\n",
            ],
            at(2, 7),
        ),
        (
            &[
                HEAD,
                "freq,0,10800,22800,",
                TENS,
                ",2300-03-01T12:00:10.000000000Z,50000000,499,clear\n",
            ],
            at(2, 7),
        ),
        (
            &[
                HEAD,
                "basic,1,24,264,",
                SPAN,
                ",,18446744073709551616,10,clear\n",
            ],
            at(2, 8),
        ),
        (
            &[HEAD, "basic,1,24,264,", SPAN, ",,229805362,11,clear\n"],
            at(2, 9),
        ),
        (
            &[HEAD, "dip,12,24,264,", SPAN, ",,0,0,flagged\n"],
            at(2, 10),
        ),
        (
            &[HEAD, "basic,1,24,264,", SPAN, ",,229805362,10,closed\n"],
            at(2, 10),
        ),
    ];
    for (pieces, expected) in cases {
        let text = joined(alloc, pieces)?;
        assert!(rt; count(alloc, text.as_slice()) == expected);
    }
    Ok(())
}

// A report cut at each byte: all rows that are whole, or the fault of the last.
#[test]
fn cut_at_each_byte(rt: HostRuntime) -> Result<(), Fail> {
    let alloc = rt.alloc();
    let text = joined(alloc, &[HEAD, FIRST, SECOND])?;
    let text = text.as_slice();
    for end in 0..text.len() {
        let front = &text[..end];
        let rows = front.iter().filter(|byte| **byte == b'\n').count() as u64;
        let expected = if front.last() == Some(&b'\n') {
            Ok(rows.saturating_sub(1) as usize)
        } else {
            at(rows + 1, 0)
        };
        assert!(rt; count(alloc, front) == expected, "at {end}");
    }
    Ok(())
}

// An item of each kind but a second basic interval and a second dip; the fold passes 2^64.
#[test]
fn one_of_each_kind(rt: HostRuntime) -> Result<(), Fail> {
    let alloc = rt.alloc();
    let items = [
        Item::Frequency {
            tick: 1_709_294_410,
            start: 6,
            end: 12_006,
            cycles: 499,
            microhertz: 50_000_000,
            flagged: false,
        },
        basic(24, 264),
        Item::Basic {
            channel: 2,
            start: 264,
            end: 504,
            cycles: 12,
            value: 211_869_380,
            flagged: true,
        },
        Item::Short {
            channel: 1,
            start: 24,
            end: 3_624,
            value: 229_805_362,
            flagged: false,
        },
        Item::Ten {
            channel: 1,
            tick: 1_709_294_400,
            start: 1_200,
            end: 720_720,
            basics: 2_998,
            value: 229_805_362,
            flagged: true,
        },
        Item::TwoHour {
            channel: 1,
            tick: 1_709_294_400,
            start: 0,
            end: 8_640_000,
            value: u64::MAX,
            flagged: true,
        },
        Item::Dip {
            channel: 1,
            start: 252,
            end: 336,
            value: 114_896_273,
            is_open: false,
        },
        Item::Dip {
            channel: 2,
            start: 300,
            end: 400,
            value: 114_896_273,
            is_open: true,
        },
        Item::Swell {
            channel: 3,
            start: 12,
            end: 24,
            value: 253_000_001,
            is_open: false,
        },
        Item::Interruption {
            channel: 1,
            start: 0,
            end: 1_200,
            value: 0,
            is_open: true,
        },
    ];
    let text = summary(alloc, u64::MAX, 722_400, &items)?;
    let wanted = "seed 18446744073709551615\nsamples 722400\n\
        freq 1 flagged 0\nbasic 2 flagged 1\nshort 1 flagged 0\nten 1 flagged 1\ntwo 1 flagged 1\n\
        dip 2 open 1\nswell 1 open 0\ninterruption 1 open 1\nfold 11704348829557553478\n";
    assert!(rt; text.bytes() == wanted.as_bytes());
    Ok(())
}
