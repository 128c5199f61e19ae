// Worked signals as the bytes of a dat.
use std::alloc::{AllocError, Global};

// A cycle of a sine of 10,000 counts.
const SINE: [i16; 24] = [
    0, 2588, 5000, 7071, 8660, 9659, 10000, 9659, 8660, 7071, 5000, 2588, 0, -2588, -5000, -7071,
    -8660, -9659, -10000, -9659, -8660, -7071, -5000, -2588,
];

/// What a channel records.
#[derive(Clone, Copy)]
pub enum Signal {
    /// A sine of 10,000 counts, 24 samples a cycle.
    Sine,
    /// No voltage.
    Zero,
    /// The sine, halved toward zero from place 264 to place 311.
    Halved,
    /// A square of 11,500 counts, 24 samples a cycle, with other counts in the cycle from place 264 on, and
    /// others after it.
    Stepped {
        then: i16,
        after: i16,
    },
    /// A square of 7,000 counts of so many samples a cycle, that rises at a place, with other counts from a
    /// place up to another.
    Square {
        period: u32,
        rises: u32,
        low: i16,
        from: u32,
        until: u32,
    },
}

impl Signal {
    /// The count of sample `i`.
    pub fn count(self, i: u32) -> i16 {
        let sine = SINE[(i % 24) as usize];
        match self {
            Signal::Sine => sine,
            Signal::Zero => 0,
            Signal::Halved => { if 264 <= i && i < 312 { sine / 2 } else { sine } }
            Signal::Stepped { then, after } => stepped(i, then, after),
            Signal::Square {
                period,
                rises,
                low,
                from,
                until,
            } => {
                let size = if from <= i && i < until { low } else { 7000 };
                square(i, period, rises, size)
            }
        }
    }
}

/// The records of these channels, `n` of them, numbered from 1.
pub fn dat(alloc: Global, signals: &[Signal], n: u32) -> Result<Vec<u8>, AllocError> {
    let mut dat = Vec::new(alloc);
    for i in 0..n {
        push_head(&mut dat, i + 1)?;
        push_counts(&mut dat, signals, i)?;
    }
    Ok(dat)
}

/// Appends a record's number, and its stamp, 0.
pub fn push_head(dat: &mut Vec<u8>, number: u32) -> Result<(), AllocError> {
    dat.extend_from_slice(&number.to_le_bytes())?;
    dat.extend_from_slice(&[0; 4])
}

fn push_counts(dat: &mut Vec<u8>, signals: &[Signal], i: u32) -> Result<(), AllocError> {
    for signal in signals {
        dat.extend_from_slice(&signal.count(i).to_le_bytes())?;
    }
    Ok(())
}

fn stepped(i: u32, then: i16, after: i16) -> i16 {
    let size = if i < 264 {
        11_500
    } else if i < 288 {
        then
    } else {
        after
    };
    square(i, 24, 0, size)
}

// Of a square that rises at a place below its period.
fn square(i: u32, period: u32, rises: u32, size: i16) -> i16 {
    let period = period.max(1);
    let phase = (u64::from(i) + u64::from(period) - u64::from(rises.min(period)))
        % u64::from(period);
    if phase < u64::from(period / 2) {
        size
    } else {
        0i16.saturating_sub(size)
    }
}
