// Recordings of several channels, by hand: at 1200 Hz a sample is taken each 1/1200 s, and 24 of them make a
// cycle. Each channel has its own crossings and windows; an event is of all channels together.
use pq_run::Status;
use std::test::Fail;
use worked_signals::{Signal, WHOLE, WORKED, Written, cfg, dat, run};

const WORDS: [&str; 5] = ["intervals", "--udin", "230000", "a.cfg", "a.dat"];

// second_channel_in_hysteresis: the second channel is never low, and never back either, so the dip of the
// first has no end.
const HYSTERESIS: &str = "kind,channel,start,end,from,to,tick,value,count,mark
basic,1,24,264,2024-03-01T12:00:01.020000000Z,2024-03-01T12:00:01.220000000Z,,229805362,10,flagged
basic,2,24,264,2024-03-01T12:00:01.020000000Z,2024-03-01T12:00:01.220000000Z,,209299653,10,flagged
basic,1,264,504,2024-03-01T12:00:01.220000000Z,2024-03-01T12:00:01.420000000Z,,211869380,10,flagged
basic,2,264,504,2024-03-01T12:00:01.220000000Z,2024-03-01T12:00:01.420000000Z,,209299653,10,flagged
dip,1,252,552,2024-03-01T12:00:01.210000000Z,2024-03-01T12:00:01.460000000Z,,114896273,0,open
";

// merged_by_start: the low window of the first channel begins before that of the second has ended the dip.
const MERGED: &str = "kind,channel,start,end,from,to,tick,value,count,mark
basic,1,24,264,2024-03-01T12:00:01.020000000Z,2024-03-01T12:00:01.220000000Z,,225986033,10,flagged
basic,2,24,264,2024-03-01T12:00:01.020000000Z,2024-03-01T12:00:01.220000000Z,,224971062,10,flagged
dip,2,244,288,2024-03-01T12:00:01.203333333Z,2024-03-01T12:00:01.240000000Z,,195000000,0,closed
basic,1,264,504,2024-03-01T12:00:01.220000000Z,2024-03-01T12:00:01.420000000Z,,225986033,10,flagged
basic,2,264,504,2024-03-01T12:00:01.220000000Z,2024-03-01T12:00:01.420000000Z,,227500000,10,flagged
";

// three_channel_interruption: it begins with the last channel that falls, and ends with the first that
// is back.
const INTERRUPTED: &str = "kind,channel,start,end,from,to,tick,value,count,mark
interruption,3,144,228,2024-03-01T12:00:01.120000000Z,2024-03-01T12:00:01.190000000Z,,9750000,0,closed
basic,1,24,264,2024-03-01T12:00:01.020000000Z,2024-03-01T12:00:01.220000000Z,,161014459,10,flagged
basic,2,24,264,2024-03-01T12:00:01.020000000Z,2024-03-01T12:00:01.220000000Z,,168845241,10,flagged
basic,3,24,264,2024-03-01T12:00:01.020000000Z,2024-03-01T12:00:01.220000000Z,,190415056,10,flagged
dip,1,108,264,2024-03-01T12:00:01.090000000Z,2024-03-01T12:00:01.220000000Z,,9750000,0,closed
basic,1,264,504,2024-03-01T12:00:01.220000000Z,2024-03-01T12:00:01.420000000Z,,227500000,10,clear
basic,2,264,504,2024-03-01T12:00:01.220000000Z,2024-03-01T12:00:01.420000000Z,,227500000,10,clear
basic,3,264,504,2024-03-01T12:00:01.220000000Z,2024-03-01T12:00:01.420000000Z,,227500000,10,clear
";

const TWO: &str = "2,2A,0D
1,UA,A,,V,0.0325,0,0,-32767,32767,1,1,P
2,UB,B,,V,0.0325,0,0,-32767,32767,1,1,P
";

const TWO_OF_WHICH_ONE_IS_LOWER: &str = "2,2A,0D
1,UA,A,,V,0.0325,0,0,-32767,32767,1,1,P
2,UB,B,,V,0.0296,0,0,-32767,32767,1,1,P
";

const THREE: &str = "3,3A,0D
1,UA,A,,V,0.0325,0,0,-32767,32767,1,1,P
2,UB,B,,V,0.0325,0,0,-32767,32767,1,1,P
3,UC,C,,V,0.0325,0,0,-32767,32767,1,1,P
";

const HALVED: [Signal; 2] = [Signal::Halved, Signal::Sine];

const SQUARES: [Signal; 2] = [
    Signal::Square {
        period: 24,
        rises: 0,
        low: 6000,
        from: 252,
        until: 276,
    },
    Signal::Square {
        period: 20,
        rises: 4,
        low: 6000,
        from: 244,
        until: 264,
    },
];

const FALLING: [Signal; 3] = [
    Signal::Square {
        period: 24,
        rises: 0,
        low: 300,
        from: 120,
        until: 240,
    },
    Signal::Square {
        period: 24,
        rises: 0,
        low: 300,
        from: 132,
        until: 240,
    },
    Signal::Square {
        period: 24,
        rises: 0,
        low: 300,
        from: 144,
        until: 216,
    },
];

#[test]
fn recordings_of_several_channels(rt: HostRuntime) -> Result<(), Fail> {
    let alloc = rt.alloc();
    let rows: [(&str, &[Signal], &str); 3] = [
        (TWO_OF_WHICH_ONE_IS_LOWER, &HALVED, HYSTERESIS),
        (TWO, &SQUARES, MERGED),
        (THREE, &FALLING, INTERRUPTED),
    ];
    for (channels, signals, text) in rows {
        let written = Written {
            channels,
            samples: 552,
            ..WORKED
        };
        let cfg = cfg(alloc, written)?;
        let bytes = dat(alloc, signals, 552)?;
        let ran = run(alloc, &WORDS, Some(&cfg), Some(&bytes), WHOLE)?;
        assert_eq!(rt; ran.status, Status::Done);
        assert_eq!(rt; ran.taken.as_slice(), text.as_bytes());
    }
    Ok(())
}
