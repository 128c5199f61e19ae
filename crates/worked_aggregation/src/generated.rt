// The summaries of generated recordings.
use pq_run::Status;
use std::test::Fail;
use worked_signals::{WHOLE, run, run_analyse};

// Of a seed: readings and basic and 150-cycle records that are flagged, dips, swells, and the fold, worked
// out apart from the program (`scripts/generated_summary.py`).
const OF_SEEDS: [(&str, [u32; 5], &str); 3] = [
    ("0", [12, 111, 33, 5, 5], "10750494558176328439"),
    ("1", [11, 138, 36, 6, 4], "7729179716110298820"),
    (
        "18446744073709551615",
        [10, 111, 33, 5, 5],
        "6638035283920090477",
    ),
];

// generated_recording: ten minutes of three channels, ten dips and swells together, no interruption, and each
// ten-minute record flagged.
#[test]
fn generated_recording(rt: HostRuntime) -> Result<(), Fail> {
    let alloc = rt.alloc();
    for (seed, [readings, basics, shorts, dips, swells], fold) in OF_SEEDS {
        let wanted = format!(in alloc;
            "seed {seed}\nsamples 722400\nfreq 60 flagged {readings}\nbasic 9027 flagged {basics}\n"
        )?;
        let records = format!(in alloc;
            "short 603 flagged {shorts}\nten 3 flagged 3\ntwo 0 flagged 0\n"
        )?;
        let events = format!(in alloc;
            "dip {dips} open 0\nswell {swells} open 0\ninterruption 0 open 0\n"
        )?;
        let last = format!(in alloc; "fold {fold}\n")?;
        let mut text = Vec::new(alloc);
        for part in [wanted, records, events, last] {
            text.extend_from_slice(part.as_bytes())?;
        }
        let outcome = run_analyse(&rt, alloc, &["generate", seed], None, None, WHOLE)
            .ok()
            .ok_or("out of memory")?;
        assert_eq!(rt; outcome.status, Status::Done);
        assert_eq!(rt; outcome.taken.as_slice(), text.as_slice());
    }
    Ok(())
}

// It is no command of the other call, and its words are one number.
#[test]
fn generate_is_for_analyse(rt: HostRuntime) -> Result<(), Fail> {
    let alloc = rt.alloc();
    let outcome = run(alloc, &["generate", "1"], None, None, WHOLE)
        .ok()
        .ok_or("out of memory")?;
    assert_eq!(rt; outcome.status, Status::Usage);
    let words: [&[&str]; 4] = [
        &["generate"],
        &["generate", "18446744073709551616"],
        &["generate", "1", "2"],
        &["generate", "--udin", "230000", "1"],
    ];
    for words in words {
        let outcome = run_analyse(&rt, alloc, words, None, None, WHOLE)
            .ok()
            .ok_or("out of memory")?;
        assert_eq!(rt; outcome.status, Status::Usage);
        assert!(rt; outcome.taken.is_empty());
    }
    Ok(())
}
