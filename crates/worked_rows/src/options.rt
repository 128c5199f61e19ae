// Settings and selections by options: what is refused, in which order, and what is measured.
use crate::reports::TWO_ROWS;
use pq_run::Status;
use std::test::Fail;
use worked_signals::{Outside, Signal, WHOLE, WORKED, Written, cfg, dat, run, run_analyse};

const NINTH: Status = Status::Selection { channel: 9 };

const FIRST: Status = Status::Selection { channel: 1 };

const SECOND: Status = Status::Selection { channel: 2 };

// refused_words_and_settings: thresholds out of order before any file is asked for, a wanted number at fault,
// and a reference that isn't wanted; each by both calls.
#[test]
fn refused_words_and_settings(rt: HostRuntime) -> Result<(), Fail> {
    let alloc = rt.alloc();
    let cfg = cfg(
        alloc,
        Written {
            samples: 552,
            ..WORKED
        },
    )?;
    let bytes = dat(alloc, &[Signal::Sine], 552)?;
    for (option, value, status) in [
        ("--dip", "60", Status::BadLimits),
        ("--dip", "70", Status::BadLimits),
        ("--dip", "71", Status::Done),
        ("--hysteresis", "0", Status::BadLimits),
        ("--swell", "940", Status::BadLimits),
        ("--interruption", "880", Status::BadLimits),
        ("--interruption", "879", Status::Done),
        ("--channels", "9", NINTH),
        ("--channels", "1,1", FIRST),
        ("--channels", "1,9,1", NINTH),
        ("--channels", "1", Status::Done),
        ("--reference", "2", SECOND),
        ("--reference", "1", Status::Done),
        ("--dip", "2001", Status::Usage),
    ] {
        let words = [
            "intervals",
            option,
            value,
            "a.cfg",
            "--udin",
            "230000",
            "a.dat",
        ];
        let ran = run(alloc, &words, Some(&cfg), Some(&bytes), WHOLE)?;
        let text = if status == Status::Done { TWO_ROWS } else { "" };
        assert_eq!(rt; ran.status, status, "{option} {value}");
        assert_eq!(rt; ran.taken.as_slice(), text.as_bytes(), "{option} {value}");

        let words = ["analyse", option, value, "a.cfg", "--udin=230000", "a.dat"];
        let ran = run_analyse(&rt, alloc, &words, Some(&cfg), Some(&bytes), WHOLE)?;
        assert_eq!(rt; ran.status, status, "{option} {value}");
        assert_eq!(rt; ran.taken.as_slice(), text.as_bytes(), "{option} {value}");
    }
    let no_file = Outside {
        read_fails: &[0],
        ..WHOLE
    };
    let words = ["intervals", "--udin=1", "--hysteresis=0", "a.cfg", "a.dat"];
    let ran = run(alloc, &words, None, None, no_file)?;
    assert_eq!(rt; ran.status, Status::BadLimits);
    Ok(())
}
