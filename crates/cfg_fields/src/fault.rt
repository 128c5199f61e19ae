// Why a text is no cfg.
ghost use Rattle.std.specs.Prelude.{◌≡◌};
ghost use Rattle.cfg_fields.specs.declared.fault.CfgFault.TheVariants as fault;

use std::alloc::{AllocError, AllocFailed};

/// A value that COMTRADE knows and this program does not support.
#[derive(Clone, Copy, Debug, PartialEq, Eq)]
pub enum Unsupported {
    /// A revision other than 1999 and 2013.
    Revision,
    /// A line frequency other than 50 and 60 Hz.
    Frequency,
    /// A number of sampling rates other than 1.
    Rates,
    /// Samples as ASCII, BINARY32 or FLOAT32.
    FileType,
    /// A recording that announces a leap second.
    LeapSecond,
}

/// What has a limit.
#[derive(Clone, Copy, Debug, PartialEq, Eq)]
pub enum Quantity {
    /// Bytes of a cfg.
    CfgBytes,
    /// Bytes of a dat.
    DatBytes,
    /// Bytes of a schedule.
    ScheduleBytes,
    /// Bytes of a report.
    ReportBytes,
    /// Analogue channels.
    Analogue,
    /// Status channels.
    Status,
    /// Samples.
    Samples,
    /// The sampling rate.
    Rate,
    /// The greatest sample of a channel.
    Value,
    /// Selected channels.
    Channels,
}

/// The first fault of a cfg. Lines and fields count from 1.
#[derive(Clone, Copy, Debug, PartialEq, Eq)]
pub enum CfgFault {
    /// A line is missing, surplus or has a wrong number of fields.
    Line { number: u32 },
    /// A field isn't in its grammar.
    Field { line: u32, field: u32 },
    /// A field has a value that is named as unsupported.
    Unsupported { what: Unsupported, line: u32 },
    /// A quantity passes its limit; line 0 for the bytes of the text.
    Limit { what: Quantity, line: u32 },
    /// There is no memory.
    OutOfMemory,
}

impl From<AllocError> for CfgFault {
    ghost from_gives = { λ _ e. e ≡ fault.OutOfMemory };

    fn from(_error: AllocError) -> CfgFault {
        CfgFault::OutOfMemory
    }
}

impl<T: Drop> From<AllocFailed<T>> for CfgFault {
    ghost from_gives = { λ _ e. e ≡ fault.OutOfMemory };

    fn from(_error: AllocFailed<T>) -> CfgFault {
        CfgFault::OutOfMemory
    }
}
