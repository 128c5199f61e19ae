// Lists of words: which are understood, and what they say.
use crate::{Command, Measuring, Part, WordsFault, read_words};
use event_detect::Settings;
use std::alloc::{AllocError, Global};
use std::test::Fail;

// The name of a command, and words that stand between blanks.
fn strings(alloc: Global, name: &str, words: &str) -> Result<Vec<String>, AllocError> {
    let mut strings = Vec::new(alloc);
    strings.push(String::from_str(alloc, name)?)?;
    for word in words.split_ascii_whitespace() {
        strings.push(String::from_str(alloc, word)?)?;
    }
    Ok(strings)
}

const USUAL: [u32; 4] = [900, 1100, 50, 20];

// A measurement that words say; no number stands for all channels, and 0 for the least as reference.
#[derive(Clone, Copy)]
struct Said {
    udin_mv: u64,
    thresholds: [u32; 4],
    channels: &'static [u32],
    reference: u32,
    cfg: &'static str,
    dat: &'static str,
}

const PLAIN: Said = Said {
    udin_mv: 230_000,
    thresholds: USUAL,
    channels: &[],
    reference: 0,
    cfg: "a.cfg",
    dat: "a.dat",
};

fn is_said(measuring: &Measuring<'_>, said: &Said) -> bool {
    let [dip, swell, interruption, hysteresis] = said.thresholds;
    let settings = Settings {
        udin_mv: said.udin_mv,
        dip,
        swell,
        interruption,
        hysteresis,
    };
    let channels = match &measuring.channels {
        Some(channels) => channels.as_slice(),
        None => &[],
    };
    measuring.settings == settings
        && channels == said.channels
        && measuring.reference.unwrap_or(0) == said.reference
        && measuring.cfg == said.cfg
        && measuring.dat == said.dat
}

// The command of this name, and the measurement.
fn is_measurement(command: &Command<'_>, name: &str, said: &Said) -> bool {
    match command {
        Command::Intervals(measuring) => name == "intervals" && is_said(measuring, said),
        Command::Analyse(measuring) => name == "analyse" && is_said(measuring, said),
        _ => false,
    }
}

// Options before, between and after positionals, as the next word and after `=`; behind `--` every word is a
// positional, and `-` is one anywhere.
#[test]
fn measurements(rt: HostRuntime) -> Result<(), Fail> {
    let alloc = rt.alloc();
    for (words, said) in [
        ("--udin 230000 a.cfg a.dat", PLAIN),
        ("a.cfg --udin 230000 a.dat", PLAIN),
        ("a.cfg a.dat --udin 230000", PLAIN),
        ("--udin=230000 a.cfg a.dat", PLAIN),
        ("--udin 230000 -- a.cfg a.dat", PLAIN),
        ("a.cfg --udin 230000 -- a.dat", PLAIN),
        ("a.cfg a.dat --udin 0000230000 --", PLAIN),
        (
            "--udin 1000000000 --channels 3,1,002 --reference=3 a.cfg --dip 850 --swell=1200 \
             --interruption 100 a.dat --hysteresis 0030",
            Said {
                udin_mv: 1_000_000_000,
                thresholds: [850, 1200, 100, 30],
                channels: &[3, 1, 2],
                reference: 3,
                ..PLAIN
            },
        ),
        (
            "--udin 1 --dip 0 --swell 2000 --interruption 2000 --hysteresis 0 \
             --channels 1,1 --reference 999 a.cfg a.dat",
            Said {
                udin_mv: 1,
                thresholds: [0, 2000, 2000, 0],
                channels: &[1, 1],
                reference: 999,
                ..PLAIN
            },
        ),
        (
            "--udin 230000 -- --dip -",
            Said {
                cfg: "--dip",
                dat: "-",
                ..PLAIN
            },
        ),
        (
            "- --udin=230000 -- --",
            Said {
                cfg: "-",
                dat: "--",
                ..PLAIN
            },
        ),
        (
            "help --udin 230000 version",
            Said {
                cfg: "help",
                dat: "version",
                ..PLAIN
            },
        ),
    ] {
        for name in ["intervals", "analyse"] {
            let words = strings(alloc, name, words)?;
            let understood = match read_words(alloc, &words) {
                Ok(command) => is_measurement(&command, name, &said),
                Err(_why) => false,
            };
            assert!(rt; understood, "{words:?}");
        }
    }
    Ok(())
}

// No option twice, none without a value, none by a part of its name or another name; neither help nor
// version; two positionals, which begin with `-` only behind `--`; each value in its grammar and its range.
#[test]
fn measurements_that_are_not_understood(rt: HostRuntime) -> Result<(), Fail> {
    let alloc = rt.alloc();
    for words in [
        "",
        "a.cfg a.dat",
        "--udin 1 a.cfg",
        "--udin 1 a.cfg a.dat b.dat",
        "--udin 1 --udin 1 a.cfg a.dat",
        "--udin=1 a.cfg a.dat --udin 2",
        "--udin 1 --dip 900 --dip=900 a.cfg a.dat",
        "a.cfg a.dat --udin",
        "--udin -- 1 a.cfg a.dat",
        "--udin 1 a.cfg a.dat --dip",
        "--ud 1 a.cfg a.dat",
        "-udin 1 a.cfg a.dat",
        "-u 1 a.cfg a.dat",
        "--Udin 1 a.cfg a.dat",
        "--udin 1 --limits 5 a.cfg a.dat",
        "--help",
        "-h",
        "--udin 1 a.cfg a.dat --help",
        "--udin 1 a.cfg a.dat -h",
        "--udin 1 a.cfg a.dat --version",
        "--udin 1 a.cfg a.dat -V",
        "--udin 1 -a.cfg a.dat",
        "--udin 1 a.cfg --a.dat",
        "-- --udin 1 a.cfg",
        "--udin= a.cfg a.dat",
        "--udin 0 a.cfg a.dat",
        "--udin 1000000001 a.cfg a.dat",
        "--udin 00000000001 a.cfg a.dat",
        "--udin +5 a.cfg a.dat",
        "--udin -5 a.cfg a.dat",
        "--udin=-5 a.cfg a.dat",
        "--udin - a.cfg a.dat",
        "--udin 2.3 a.cfg a.dat",
        "--udin 1 --dip 2001 a.cfg a.dat",
        "--udin 1 --swell 2001 a.cfg a.dat",
        "--udin 1 --interruption 2001 a.cfg a.dat",
        "--udin 1 --hysteresis 2001 a.cfg a.dat",
        "--udin 1 --dip 00900 a.cfg a.dat",
        "--udin 1 --hysteresis= a.cfg a.dat",
        "--udin 1 --reference 0 a.cfg a.dat",
        "--udin 1 --reference 1000 a.cfg a.dat",
        "--udin 1 --reference 0001 a.cfg a.dat",
        "--udin 1 --reference 1,2 a.cfg a.dat",
        "--udin 1 --channels 0 a.cfg a.dat",
        "--udin 1 --channels 1,1000 a.cfg a.dat",
        "--udin 1 --channels 1,,2 a.cfg a.dat",
        "--udin 1 --channels 1, a.cfg a.dat",
        "--udin 1 --channels ,1 a.cfg a.dat",
        "--udin 1 --channels= a.cfg a.dat",
        "--udin 1 --channels 1;2 a.cfg a.dat",
        "--udin 1 --channels 1, 2 a.dat",
    ] {
        for name in ["intervals", "analyse"] {
            let words = strings(alloc, name, words)?;
            let refused = matches!(read_words(alloc, &words), Err(WordsFault::NotUnderstood));
            assert!(rt; refused, "{name} {words:?}");
        }
    }
    Ok(())
}

// The plain measurement, and a schedule of this name.
fn is_replay(command: &Command<'_>, name: &str) -> bool {
    match command {
        Command::Replay {
            measuring,
            schedule,
        } => is_said(measuring, &PLAIN) && *schedule == name,
        _ => false,
    }
}

// `replay` has the options of a measurement, and a third positional; no name stands for words that are not
// understood.
#[test]
fn replays(rt: HostRuntime) -> Result<(), Fail> {
    let alloc = rt.alloc();
    for (words, schedule) in [
        ("--udin 230000 a.cfg a.dat a.txt", "a.txt"),
        ("a.cfg a.dat - --udin=230000", "-"),
        ("a.cfg --udin 230000 -- a.dat -a.txt", "-a.txt"),
        ("a.cfg a.dat a.txt", ""),
        ("--udin 230000 a.cfg a.dat", ""),
        ("--udin 230000 a.cfg a.dat a.txt b.txt", ""),
        ("--udin 230000 a.cfg a.dat -a.txt", ""),
        ("--udin 0 a.cfg a.dat a.txt", ""),
    ] {
        let words = strings(alloc, "replay", words)?;
        let understood = match read_words(alloc, &words) {
            Ok(command) => is_replay(&command, schedule),
            Err(_why) => schedule.is_empty(),
        };
        assert!(rt; understood, "{words:?}");
    }
    Ok(())
}

// `check` has one positional and no option; other names are no commands.
#[test]
fn names(rt: HostRuntime) -> Result<(), Fail> {
    let alloc = rt.alloc();
    for (name, words, cfg) in [
        ("check", "a.cfg", "a.cfg"),
        ("check", "-- -a.cfg", "-a.cfg"),
        ("check", "-- --", "--"),
        ("check", "-", "-"),
        ("check", "--help", ""),
        ("check", "", ""),
        ("check", "--", ""),
        ("check", "a.cfg a.dat", ""),
        ("check", "-a.cfg", ""),
        ("check", "--udin 1 a.cfg", ""),
        ("Check", "a.cfg", ""),
        ("interval", "--udin 1 a.cfg a.dat", ""),
        ("--udin", "1 intervals a.cfg a.dat", ""),
        ("--", "check a.cfg", ""),
        ("help", "", ""),
        ("--help", "", ""),
        ("", "", ""),
    ] {
        let words = strings(alloc, name, words)?;
        let said = match read_words(alloc, &words) {
            Ok(Command::Check { cfg }) => cfg,
            _ => "",
        };
        assert_eq!(rt; said, cfg, "{words:?}");
    }
    for (name, words, said) in [
        ("emit", "cfg 1", Some((Some(Part::Cfg), 1))),
        (
            "emit",
            "dat 18446744073709551615",
            Some((Some(Part::Dat), 18_446_744_073_709_551_615)),
        ),
        (
            "emit",
            "-- dat 00000000000000000002",
            Some((Some(Part::Dat), 2)),
        ),
        ("generate", "0", Some((None, 0))),
        ("generate", "-- 1", Some((None, 1))),
        ("emit", "1 cfg", None),
        ("emit", "cfg", None),
        ("emit", "CFG 1", None),
        ("emit", "cfg 1 2", None),
        ("emit", "cfg 18446744073709551616", None),
        ("emit", "cfg -1", None),
        ("emit", "--part cfg 1", None),
        ("generate", "", None),
        ("generate", "1 2", None),
        ("generate", "+1", None),
        ("generate", "000000000000000000001", None),
        ("generate", "--help", None),
    ] {
        let words = strings(alloc, name, words)?;
        let found = match read_words(alloc, &words) {
            Ok(Command::Emit { part, seed }) => Some((Some(part), seed)),
            Ok(Command::Generate { seed }) => Some((None, seed)),
            _ => None,
        };
        assert!(rt; found == said, "{words:?}");
    }
    let none = read_words(alloc, &[]);
    assert!(rt; matches!(none, Err(WordsFault::NotUnderstood)));
    Ok(())
}
