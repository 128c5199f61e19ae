// What a top call answers, with its exit code.
use comtrade_cfg::{Quantity, Unsupported};
use comtrade_dat::DatFault;

/// The answer of a top call.
#[derive(Clone, Copy, Debug, PartialEq, Eq)]
pub enum Status {
    /// The whole output was taken.
    Done,
    /// The words are not those of a command.
    Usage,
    /// The cfg's first fault is at this line and field; field 0 stands for the whole line.
    CfgFault { line: u32, field: u32 },
    /// The cfg has something that is not supported; line 0 stands for no line.
    Unsupported { what: Unsupported, line: u32 },
    /// A quantity passes its limit; line 0 stands for no line.
    Limit { what: Quantity, line: u32 },
    /// No channel of this number is measured; channel 0 stands for none in V or kV.
    Selection { channel: u32 },
    /// The thresholds of the settings are out of order.
    BadLimits,
    /// The first fault of the dat; never want of memory.
    DatFault { kind: DatFault },
    /// A call of the shelf failed; the shelf counts so many faults.
    ReadFault { faults: u64 },
    /// A call of the sink failed; the sink counts so many faults.
    WriteFault { faults: u64 },
    /// The first line of the schedule that is outside its grammar or not allowed, counted from 1.
    ScheduleFault { line: u64 },
    /// Memory ran out.
    OutOfMemory,
    /// The file that this positional names, counted from 1, is not there.
    NoFile { file: u32 },
}

impl Status {
    ghost use Rattle.std.specs.Prelude.{◌≡◌};
    ghost use Rattle.status_text.specs.StatusText.{code_of};

    /// The exit code of the program.
    pub fn code(&self) -> u8
        ensures { result ≡ code_of self.now }
    {
        match self {
            Status::Done => 0,
            Status::Usage => 1,
            Status::CfgFault { .. } => 2,
            Status::Unsupported { .. } => 3,
            Status::Limit { .. } => 4,
            Status::Selection { .. } => 5,
            Status::BadLimits => 6,
            Status::DatFault { .. } => 7,
            Status::ReadFault { .. } => 8,
            Status::WriteFault { .. } => 9,
            Status::ScheduleFault { .. } => 10,
            Status::OutOfMemory => 11,
            Status::NoFile { .. } => 14,
        }
    }
}
