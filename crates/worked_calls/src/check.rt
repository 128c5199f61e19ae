// The command `check` on a cfg of 2013, on cfgs at fault, and on shelves and sinks that fail.
use comtrade_cfg::{Quantity, Unsupported};
use pq_run::Status;
use std::alloc::{AllocError, Global};
use std::test::Fail;
use worked_signals::{Outside, WHOLE, WORKED, cfg, run};

const WORDS: [&str; 2] = ["check", "a.cfg"];

// The lines of cfg_2013_with_32_states before and after its status channels, as they are written.
const FRONT: &str = "Substation 7 , R-2200 ,2013\r
40,8A,32D\r
1, VA ,A,,V,1.525879E-02,0.000000E+00,0,-32767,32767,400,1,P\r
2, VB ,B,,V,1.525879E-02,0.000000E+00,0,-32767,32767,400,1,P\r
3, VC ,C,,V,1.525879E-02,0.000000E+00,0,-32767,32767,400,1,P\r
4, VN ,N,,v,1.525879E-02,0.000000E+00,0,-32767,32767,400,1,P\r
5, IA ,A,,A,3.051758E-02,0.000000E+00,0,-32767,32767,1000,1,P\r
6, IB ,B,,A,3.051758E-02,0.000000E+00,0,-32767,32767,1000,1,P\r
7, IC ,C,,A,3.051758E-02,0.000000E+00,0,-32767,32767,1000,1,P\r
8, IN ,N,,A,3.051758E-02,0.000000E+00,0,-32767,32767,1000,1,P\r
";

const BACK: &str = "50.00\r
1\r
4800.000,9600\r
01/03/2024,06:30:01.000000\r
01/03/2024,06:30:01.500000\r
binary\r
1.0\r
-5h30,-5h30\r
b,3\r
";

// The same in its canonical text.
const CANONICAL_FRONT: &str = "Substation 7,R-2200,2013\r
40,8A,32D\r
1,VA,A,,V,1.525879E-02,0.000000E+00,0,-32767,32767,400,1,P\r
2,VB,B,,V,1.525879E-02,0.000000E+00,0,-32767,32767,400,1,P\r
3,VC,C,,V,1.525879E-02,0.000000E+00,0,-32767,32767,400,1,P\r
4,VN,N,,v,1.525879E-02,0.000000E+00,0,-32767,32767,400,1,P\r
5,IA,A,,A,3.051758E-02,0.000000E+00,0,-32767,32767,1000,1,P\r
6,IB,B,,A,3.051758E-02,0.000000E+00,0,-32767,32767,1000,1,P\r
7,IC,C,,A,3.051758E-02,0.000000E+00,0,-32767,32767,1000,1,P\r
8,IN,N,,A,3.051758E-02,0.000000E+00,0,-32767,32767,1000,1,P\r
";

const CANONICAL_BACK: &str = "50\r
1\r
4800,9600\r
01/03/2024,06:30:01.000000\r
01/03/2024,06:30:01.500000\r
BINARY\r
1.0\r
-5h30,-5h30\r
B,3\r
";

// The cfg as it is written.
pub fn cfg_2013(alloc: Global) -> Result<Vec<u8>, AllocError> {
    with_32_states(alloc, FRONT, BACK)
}

fn with_32_states(alloc: Global, front: &str, back: &str) -> Result<Vec<u8>, AllocError> {
    let mut text = Vec::new(alloc);
    text.extend_from_slice(front.as_bytes())?;
    for n in 1..=32 {
        let line = format!(in alloc; "{n},IN {n},,,0\r\n")?;
        text.extend_from_slice(line.as_bytes())?;
    }
    text.extend_from_slice(back.as_bytes())?;
    Ok(text)
}

// A good cfg and its canonical text, which is its own; in pieces of every size.
#[test]
fn cfg_2013_with_32_states(rt: HostRuntime) -> Result<(), Fail> {
    let alloc = rt.alloc();
    let written = cfg_2013(alloc)?;
    let canonical = with_32_states(alloc, CANONICAL_FRONT, CANONICAL_BACK)?;
    for cfg in [&written, &canonical] {
        for piece in [1, 100, 1_000_000] {
            let outside = Outside {
                read_piece: piece,
                write_piece: piece,
                ..WHOLE
            };
            let ran = run(alloc, &WORDS, Some(cfg), None, outside)?;
            assert_eq!(rt; ran.status, Status::Done, "{piece}");
            assert_eq!(rt; ran.taken.as_slice(), canonical.as_slice(), "{piece}");
        }
    }
    Ok(())
}

// Cfgs that are refused: nothing is written.
#[test]
fn refused_cfgs(rt: HostRuntime) -> Result<(), Fail> {
    let alloc = rt.alloc();
    let large = vec![in alloc; 0u8; 1_048_577]?;
    let over = Status::Limit {
        what: Quantity::CfgBytes,
        line: 0,
    };
    let revision = Status::Unsupported {
        what: Unsupported::Revision,
        line: 1,
    };
    let analogue = Status::Limit {
        what: Quantity::Analogue,
        line: 2,
    };
    let line = Status::CfgFault { line: 3, field: 0 };
    let field = Status::CfgFault { line: 2, field: 3 };
    for (cfg, status) in [
        (None, Status::NoFile { file: 1 }),
        (Some(large.as_slice()), over),
        (Some(b"demo,pqa".as_slice()), revision),
        (Some(b"demo,pqa,1999\n1000,1000A,0D\n".as_slice()), analogue),
        (Some(b"demo,pqa,1999\n1,1A,0D\n".as_slice()), line),
        (Some(b"demo,pqa,1999\n1,1A,0X\n".as_slice()), field),
    ] {
        let ran = run(alloc, &WORDS, cfg, None, WHOLE)?;
        assert_eq!(rt; ran.status, status);
        assert_eq!(rt; ran.taken.len(), 0);
    }
    Ok(())
}

// A write that fails leaves a front; each call of the shelf that fails leaves nothing.
#[test]
fn failing_calls(rt: HostRuntime) -> Result<(), Fail> {
    let alloc = rt.alloc();
    let cfg = cfg(alloc, WORKED)?;
    let second_write = Outside {
        write_fails: &[1],
        write_piece: 13,
        ..WHOLE
    };
    let ran = run(alloc, &WORDS, Some(&cfg), None, second_write)?;
    assert_eq!(rt; ran.status, Status::WriteFault { faults: 1 });
    assert_eq!(rt; ran.taken.as_slice(), b"demo,pqa,1999".as_slice());

    // open 0, read 1, read 2 at the end
    for call in 0..3 {
        let outside = Outside {
            read_fails: &[call],
            ..WHOLE
        };
        let ran = run(alloc, &WORDS, Some(&cfg), None, outside)?;
        assert_eq!(rt; ran.status, Status::ReadFault { faults: 1 }, "call {call}");
        assert_eq!(rt; ran.taken.len(), 0, "call {call}");
    }
    Ok(())
}
