use crate::*;
use std::alloc::{AllocError, Global};
use std::test::Fail;

fn file(alloc: Global, name: &str, bytes: &[u8]) -> Result<(String, Vec<u8>), AllocError> {
    let mut content = Vec::new(alloc);
    content.extend_from_slice(bytes)?;
    Ok((String::from_str(alloc, name)?, content))
}

// Seven bytes and, under the same name, two others; and an empty file. At most three bytes a read.
fn shelf(alloc: Global, fails: u64) -> Result<MemShelf, AllocError> {
    let files = vec![in alloc;
        file(alloc, "a", b"abcdefg")?,
        file(alloc, "b", b"")?,
        file(alloc, "a", b"zz")?,
    ]?;
    Ok(MemShelf::new(files, vec![in alloc; fails]?, 3))
}

// The call that fails, the name and the limit; what is read, and how many faults there are then. Each
// call of the whole reading fails in turn.
const READS: [(u64, &str, u64, Result<&[u8], ReadAll>, u64); 13] = [
    (9, "a", 7, Ok(b"abcdefg"), 0),
    (9, "a", 6, Err(ReadAll::Over), 0),
    (9, "b", 0, Ok(b""), 0),
    (9, "c", 7, Err(ReadAll::Missing), 0),
    (0, "a", 7, Err(ReadAll::Failed), 1),
    (0, "c", 7, Err(ReadAll::Missing), 0),
    (1, "a", 7, Err(ReadAll::Failed), 1),
    (2, "a", 7, Err(ReadAll::Failed), 1),
    (3, "a", 7, Err(ReadAll::Failed), 1),
    (4, "a", 7, Err(ReadAll::Failed), 1),
    (3, "a", 6, Err(ReadAll::Failed), 1),
    (4, "a", 6, Err(ReadAll::Over), 0),
    (5, "a", 7, Ok(b"abcdefg"), 0),
];

// The room, the call that fails and what is written at most four bytes a call; whether all of it is
// taken, what was taken and how many faults there are then.
const WRITES: [(u64, u64, &[u8], Result<(), Failed>, &[u8], u64); 6] = [
    (6, 9, b"abcdef", Ok(()), b"abcdef", 0),
    (0, 9, b"", Ok(()), b"", 0),
    (5, 9, b"abcdef", Err(Failed), b"abcde", 1),
    (6, 0, b"abcdef", Err(Failed), b"", 1),
    (6, 1, b"abcdef", Err(Failed), b"abcd", 1),
    (6, 2, b"abcdef", Ok(()), b"abcdef", 0),
];

#[test]
fn failing_calls_in_memory(rt: HostRuntime) -> Result<(), Fail> {
    let alloc = rt.alloc();
    for (fails, name, limit, expected, faults) in READS {
        let mut shelf = shelf(alloc, fails)?;
        let found = read_all(alloc, &mut shelf, name, limit);
        let found = found.as_ref().map(|bytes| bytes.as_slice());
        assert_eq!(rt;
            found,
            expected.as_ref().map(|bytes| *bytes),
            "{name} {limit} {fails}"
        );
        assert_eq!(rt; shelf.faults(), faults, "{name} {limit} {fails}");
    }
    for (room, fails, bytes, expected, taken, faults) in WRITES {
        let Ok(mut sink) = MemSink::new(alloc, room, vec![in alloc; fails]?, 4) else {
            return Err(Fail::from(AllocError));
        };
        assert_eq!(rt; write_all(&mut sink, bytes), expected, "{room} {fails}");
        assert_eq!(rt; sink.taken(), taken, "{room} {fails}");
        assert_eq!(rt; sink.faults(), faults, "{room} {fails}");
    }
    Ok(())
}

const MOST: u128 = 1_000_000_000_000_000_000_000_000_000_000;

// What is written, and its whole picovolts where there are at most so many.
const DECIMALS: [(&[u8], Option<i128>); 13] = [
    (b"0.0325", Some(32_500_000_000)),
    (b"1.525879E-02", Some(15_258_790_000)),
    (b"2.5e-12", Some(3)),
    (b"-2.5e-12", Some(-3)),
    (b"-4.9e-13", Some(0)),
    (b"1e18", Some(1_000_000_000_000_000_000_000_000_000_000)),
    (
        b"1.0000000000000000000000000000004e18",
        Some(1_000_000_000_000_000_000_000_000_000_000),
    ),
    (b"1.0000000000000000000000000000005e18", None),
    (b"9e999", None),
    (b"-0e999", Some(0)),
    (b"9e-999", Some(0)),
    (b"1,5", None),
    (b".", None),
];

// Numbers at the ends of their fields, and the whole of ten to the 12 times them.
const AT_THE_ENDS: [(u128, i32, Option<i128>); 6] = [
    (u128::MAX, -50, Some(3)),
    (u128::MAX, -51, Some(0)),
    (u128::MAX, i32::MIN, Some(0)),
    (1, i32::MAX, None),
    (0, i32::MAX, Some(0)),
    (u128::MAX, -12, None),
];

#[test]
fn decimals_in_picovolts(rt: HostRuntime) -> Result<(), Fail> {
    for (text, expected) in DECIMALS {
        let rounded = match read_decimal(text) {
            Some(number) => number.round(12, MOST),
            None => None,
        };
        assert_eq!(rt; rounded, expected);
    }
    for (digits, exponent, expected) in AT_THE_ENDS {
        let number = Scaled {
            negative: false,
            digits,
            exponent,
        };
        assert_eq!(rt; number.round(12, MOST), expected, "{digits} {exponent}");
    }
    Ok(())
}
