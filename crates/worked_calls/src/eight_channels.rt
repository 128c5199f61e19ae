// The measurement of a cfg with eight channels, of which four are voltages.
use crate::check::cfg_2013;
use pq_run::Status;
use std::test::Fail;
use worked_signals::{WHOLE, push_head, run};

const WORDS: [&str; 5] = ["intervals", "--udin", "230000", "a.cfg", "a.dat"];

// The two last rows of the measurement of four voltages that are 0 all along: a dip of the first channel,
// and an interruption that begins once the last of them has a value.
const SILENT: &str =
    "dip,1,0,9600,2024-03-01T12:00:01.000000000Z,2024-03-01T12:00:03.000000000Z,,0,0,open
interruption,4,0,9600,2024-03-01T12:00:01.000000000Z,2024-03-01T12:00:03.000000000Z,,0,0,open
";

// cfg_2013_with_32_states, with 9,600 records of 28 bytes whose counts are all 0: nine basic intervals of
// four channels, and both events.
#[test]
fn four_channels_of_eight(rt: HostRuntime) -> Result<(), Fail> {
    let alloc = rt.alloc();
    let mut dat = Vec::new(alloc);
    for i in 0..9600u32 {
        push_head(&mut dat, i + 1)?;
        dat.extend_from_slice(&[0; 20])?;
    }
    let ran = run(alloc, &WORDS, Some(&cfg_2013(alloc)?), Some(&dat), WHOLE)?;
    assert_eq!(rt; ran.status, Status::Done);
    let lines = ran.taken.iter().filter(|byte| **byte == b'\n').count();
    assert_eq!(rt; lines, 1 + 9 * 4 + 2);
    assert!(rt; ran.taken.ends_with(SILENT.as_bytes()));
    Ok(())
}
