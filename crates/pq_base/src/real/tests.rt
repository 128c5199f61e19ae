// What no clause tells of real files and of what is printed to.
use crate::*;
use std::cell::RefCell;
use std::fmt::Display;
use std::fs;
use std::io::{Error, ErrorKind, Print, Result};
use std::test::Fail;

#[test]
fn whole_real_files(rt: HostRuntime) -> std::result::Result<(), Fail> {
    let alloc = rt.alloc();
    let mut shelf = FileShelf::new(&rt);
    assert_eq!(rt; read_all(alloc, &mut shelf, "/dev/null", 0)?.len(), 0);
    let version = read_all(alloc, &mut shelf, "/proc/version", 10_000)?;
    assert!(rt; version.starts_with(b"Linux version "));
    assert_eq!(rt;
        version.as_slice(),
        fs::read(&rt, "/proc/version")?.as_slice()
    );
    assert_eq!(rt;
        read_all(alloc, &mut shelf, "/dev/zero", 200_000),
        Err(ReadAll::Over)
    );
    assert_eq!(rt; shelf.faults(), 0);
    Ok(())
}

// Names that are there on every Linux, of files that a user or nobody at all may read.
const GUARDED: [&str; 3] = [
    "/etc/shadow",
    "/proc/1/environ",
    "/proc/sys/vm/compact_memory",
];

#[test]
fn refused_real_files(rt: HostRuntime) {
    let mut shelf = FileShelf::new(&rt);
    let mut piece = [1; 4];
    assert_eq!(rt; shelf.open("no such folder/no such file"), Ok(false));
    assert_eq!(rt; shelf.faults(), 0);
    // A directory is opened, and its first read is refused.
    assert_eq!(rt; shelf.open("."), Ok(true));
    assert_eq!(rt; shelf.read(&mut piece), Err(Failed));
    assert_eq!(rt; shelf.faults(), 1);
    // What can't be opened is a fault, and what is there is never told as missing.
    assert_eq!(rt; shelf.open("/dev/null/below"), Err(Failed));
    assert_eq!(rt; shelf.faults(), 2);
    for name in GUARDED {
        if fs::metadata(&rt, name).is_ok() {
            assert_ne!(rt; shelf.open(name), Ok(false), "{name}");
        }
    }
}

#[test]
fn last_real_file_dropped(rt: HostRuntime) {
    let mut shelf = FileShelf::new(&rt);
    let mut piece = [1; 4];
    assert_eq!(rt; shelf.read(&mut piece), Ok(0));
    for name in ["no such file", "/dev/null/below"] {
        assert_eq!(rt; shelf.open("/dev/zero"), Ok(true));
        assert_eq!(rt; shelf.read(&mut piece), Ok(4));
        assert_eq!(rt; piece, [0; 4]);
        assert_ne!(rt; shelf.open(name), Ok(true));
        assert_eq!(rt; shelf.read(&mut piece), Ok(0), "{name}");
    }
}

// What takes at most three bytes a call, and none once it is full.
#[derive(Drop)]
struct Narrow {
    taken: RefCell<Vec<u8>>,
    room: usize,
}

impl Print for Narrow {
    fn print<D: Display + Drop>(&self, _value: D) -> Result<()> {
        Err(Error::from(ErrorKind::Unsupported))
    }

    fn println<D: Display + Drop>(&self, _value: D) -> Result<()> {
        Err(Error::from(ErrorKind::Unsupported))
    }

    fn write_all(&self, _bytes: &[u8]) -> Result<()> {
        Err(Error::from(ErrorKind::Unsupported))
    }

    fn write_some(&self, bytes: &[u8]) -> Result<usize> {
        let Ok(mut taken) = self.taken.try_borrow_mut() else {
            return Err(Error::from(ErrorKind::Other));
        };
        let count = bytes
            .len()
            .min(3)
            .min(self.room.saturating_sub(taken.len()));
        taken.extend_from_slice(&bytes[..count])?;
        Ok(count)
    }
}

// The room; what becomes of eight bytes, which of them are taken, and how many faults there are then.
const PRINTED: [(usize, std::result::Result<(), Failed>, &[u8], u64); 3] = [
    (8, Ok(()), b"abcdefgh", 0),
    (7, Err(Failed), b"abcdefg", 1),
    (0, Err(Failed), b"", 1),
];

#[test]
fn printed_in_pieces(rt: HostRuntime) -> std::result::Result<(), Fail> {
    for (room, expected, front, faults) in PRINTED {
        let narrow = Narrow {
            taken: RefCell::new(Vec::new(rt.alloc())),
            room,
        };
        let mut out = OutSink::new(&narrow);
        assert_eq!(rt; write_all(&mut out, b"abcdefgh"), expected, "{room}");
        assert_eq!(rt; out.faults(), faults, "{room}");
        let taken = narrow.taken.try_borrow();
        assert!(rt;
            taken.is_ok_and(|taken| taken.as_slice() == front),
            "{room}"
        );
    }
    Ok(())
}

#[test]
fn standard_output_and_error(rt: HostRuntime) {
    let mut out = OutSink::new(&rt);
    assert_eq!(rt; write_all(&mut out, b"\n"), Ok(()));
    assert_eq!(rt; out.faults(), 0);
    let stderr = rt.stderr();
    let mut err = ErrSink::new(&stderr);
    assert_eq!(rt; write_all(&mut err, b"\n"), Ok(()));
    assert_eq!(rt; err.faults(), 0);
}
