// Worked recordings, read from the files that say them.
use comtrade_cfg::{read_cfg, select};
use comtrade_dat::read_dat;
use pq_base::Recording;
use std::alloc::Global;
use worked_signals::{Signal, WORKED, Written, cfg, dat};

/// What is recorded: the lines of the channels, what each records, the first moment and the number of
/// samples.
#[derive(Clone, Copy)]
pub struct Worked<'a> {
    pub channels: &'a str,
    pub signals: &'a [Signal],
    pub first: &'a str,
    pub samples: u32,
}

/// One sine in 552 samples.
pub const TWO_INTERVALS: Worked<'static> = Worked {
    channels: "1,1A,0D\n1,UA,A,,V,0.0325,0,0,-32767,32767,1,1,P\n",
    signals: &[Signal::Sine],
    first: "01/03/2024,12:00:01.000000",
    samples: 552,
};

/// The sine, halved for a cycle.
pub const HALVED_HALF_CYCLES: Worked<'static> = Worked {
    signals: &[Signal::Halved],
    ..TWO_INTERVALS
};

/// A sine with noon at place 594.
pub const INTERVAL_OVER_TICK: Worked<'static> = Worked {
    first: "01/03/2024,11:59:59.505000",
    samples: 1200,
    ..TWO_INTERVALS
};

/// The halved sine beside a lower one.
pub const SECOND_CHANNEL_IN_HYSTERESIS: Worked<'static> = Worked {
    channels: "2,2A,0D
1,UA,A,,V,0.0325,0,0,-32767,32767,1,1,P
2,UB,B,,V,0.0296,0,0,-32767,32767,1,1,P
",
    signals: &[Signal::Halved, Signal::Sine],
    ..TWO_INTERVALS
};

/// Two squares of different periods, low one after the other.
pub const MERGED_BY_START: Worked<'static> = Worked {
    channels: "2,2A,0D
1,UA,A,,V,0.0325,0,0,-32767,32767,1,1,P
2,UB,B,,V,0.0325,0,0,-32767,32767,1,1,P
",
    signals: &[
        Signal::Square {
            period: 24,
            rises: 0,
            low: 6000,
            from: 252,
            until: 276,
        },
        Signal::Square {
            period: 20,
            rises: 4,
            low: 6000,
            from: 244,
            until: 264,
        },
    ],
    ..TWO_INTERVALS
};

/// Three squares, nearly gone one after the other.
pub const THREE_CHANNEL_INTERRUPTION: Worked<'static> = Worked {
    channels: "3,3A,0D
1,UA,A,,V,0.0325,0,0,-32767,32767,1,1,P
2,UB,B,,V,0.0325,0,0,-32767,32767,1,1,P
3,UC,C,,V,0.0325,0,0,-32767,32767,1,1,P
",
    signals: &[
        Signal::Square {
            period: 24,
            rises: 0,
            low: 300,
            from: 120,
            until: 240,
        },
        Signal::Square {
            period: 24,
            rises: 0,
            low: 300,
            from: 132,
            until: 240,
        },
        Signal::Square {
            period: 24,
            rises: 0,
            low: 300,
            from: 144,
            until: 216,
        },
    ],
    ..TWO_INTERVALS
};

/// The recording that the files say; None where they are refused or memory is short.
pub fn recording(alloc: Global, worked: Worked<'_>) -> Option<Recording> {
    let Worked {
        channels,
        signals,
        first,
        samples,
    } = worked;
    let written = Written {
        channels,
        first,
        samples,
        ..WORKED
    };
    let said = cfg(alloc, written).ok()?;
    let counts = dat(alloc, signals, samples).ok()?;
    read(alloc, &said, &counts)
}

fn read(alloc: Global, said: &[u8], counts: &[u8]) -> Option<Recording> {
    let cfg = read_cfg(alloc, said).ok()?;
    let selection = select(alloc, &cfg, None, None).ok()?;
    read_dat(alloc, &cfg, &selection, counts).ok()
}
