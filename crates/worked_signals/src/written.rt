// Worked cfgs.
use std::alloc::{AllocError, Global};

/// What a cfg says, where it differs from the worked one.
#[derive(Clone, Copy)]
pub struct Written<'a> {
    /// The line of the numbers of channels and the channels' lines, each ended.
    pub channels: &'a str,
    pub line: &'a str,
    pub rate: &'a str,
    pub first: &'a str,
    pub samples: u32,
}

/// One channel in volts at 0.0325 V a count, 1200 samples a second from a second after noon on.
pub const WORKED: Written<'static> = Written {
    channels: "1,1A,0D\n1,UA,A,,V,0.0325,0,0,-32767,32767,1,1,P\n",
    line: "50",
    rate: "1200",
    first: "01/03/2024,12:00:01.000000",
    samples: 0,
};

/// The cfg that says this.
pub fn cfg(alloc: Global, written: Written<'_>) -> Result<Vec<u8>, AllocError> {
    let Written {
        channels,
        line,
        rate,
        first,
        samples,
    } = written;
    let text = format!(in alloc;
        "demo,pqa,1999\n{channels}{line}\n1\n{rate},{samples}\n{first}\n{first}\nBINARY\n1\n"
    )?;
    Ok(text.into_bytes())
}

/// The lines of one channel, with its unit and coefficient.
pub fn one_channel(alloc: Global, unit: &str, coefficient: &str) -> Result<String, AllocError> {
    format!(in alloc; "1,1A,0D\n1,UA,A,,{unit},{coefficient},0,0,-32767,32767,1,1,P\n")
}
