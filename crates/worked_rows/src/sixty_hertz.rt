// Recordings at 60 Hz, by hand: at 1440 Hz a sample is taken each 1/1440 s, and 24 of them make a
// cycle, 288 the twelve of a basic interval.
use pq_run::Status;
use std::test::Fail;
use worked_signals::{Signal, WHOLE, WORKED, Written, cfg, dat, run};

const WORDS: [&str; 5] = ["intervals", "--udin", "230000", "a.cfg", "a.dat"];

const AFTER_NOON: &str = "01/03/2024,12:00:01.000000";

const BEFORE_NOON: &str = "01/03/2024,11:59:59.505000";

// The second interval would end with a crossing at place 600, which has no sample among 600.
const ONE_ROW: &str = "kind,channel,start,end,from,to,tick,value,count,mark
basic,1,24,312,2024-03-01T12:00:01.016666666Z,2024-03-01T12:00:01.216666666Z,,229805362,12,clear
";

const TWO_ROWS: &str = "kind,channel,start,end,from,to,tick,value,count,mark
basic,1,24,312,2024-03-01T12:00:01.016666666Z,2024-03-01T12:00:01.216666666Z,,229805362,12,clear
basic,1,312,600,2024-03-01T12:00:01.216666666Z,2024-03-01T12:00:01.416666666Z,,229805362,12,clear
";

// A dip over the seam of two intervals touches both, also the one whose own samples are whole.
const DIPPED: &str = "kind,channel,start,end,from,to,tick,value,count,mark
basic,1,24,312,2024-03-01T12:00:01.016666666Z,2024-03-01T12:00:01.216666666Z,,214962662,12,flagged
dip,1,252,336,2024-03-01T12:00:01.175000000Z,2024-03-01T12:00:01.233333333Z,,114896273,0,closed
basic,1,312,600,2024-03-01T12:00:01.216666666Z,2024-03-01T12:00:01.416666666Z,,229805362,12,flagged
";

// Noon is at place 713; the interval over it is completed, and the next begins at 720.
const OVER_TICK: &str = "kind,channel,start,end,from,to,tick,value,count,mark
basic,1,24,312,2024-03-01T11:59:59.521666666Z,2024-03-01T11:59:59.721666666Z,,229805362,12,clear
basic,1,312,600,2024-03-01T11:59:59.721666666Z,2024-03-01T11:59:59.921666666Z,,229805362,12,clear
basic,1,600,888,2024-03-01T11:59:59.921666666Z,2024-03-01T12:00:00.121666666Z,,229805362,12,clear
basic,1,720,1008,2024-03-01T12:00:00.005000000Z,2024-03-01T12:00:00.205000000Z,,229805362,12,clear
basic,1,1008,1296,2024-03-01T12:00:00.205000000Z,2024-03-01T12:00:00.405000000Z,,229805362,12,clear
";

#[test]
fn recordings_at_sixty_hertz(rt: HostRuntime) -> Result<(), Fail> {
    let alloc = rt.alloc();
    for (signal, first, samples, text) in [
        (Signal::Sine, AFTER_NOON, 600, ONE_ROW),
        (Signal::Sine, AFTER_NOON, 601, TWO_ROWS),
        (Signal::Halved, AFTER_NOON, 648, DIPPED),
        (Signal::Sine, BEFORE_NOON, 1440, OVER_TICK),
    ] {
        let written = Written {
            line: "60",
            rate: "1440",
            first,
            samples,
            ..WORKED
        };
        let cfg = cfg(alloc, written)?;
        let bytes = dat(alloc, &[signal], samples)?;
        let ran = run(alloc, &WORDS, Some(&cfg), Some(&bytes), WHOLE)?;
        assert_eq!(rt; ran.status, Status::Done, "{samples} samples");
        assert_eq!(rt; ran.taken.as_slice(), text.as_bytes(), "{samples} samples");
    }
    Ok(())
}
