// The commands, with what their words say.
use event_detect::Settings;
use std::alloc::{AllocError, AllocFailed};

/// A command, with what its words say.
#[derive(Drop)]
pub enum Command<'a> {
    /// The canonical text of a cfg.
    Check {
        cfg: &'a str,
    },
    /// The report of a recording.
    Intervals(Measuring<'a>),
    /// The report of a recording, for the call that may have workers.
    Analyse(Measuring<'a>),
    /// The answers of a schedule over a recording.
    Replay {
        measuring: Measuring<'a>,
        schedule: &'a str,
    },
    /// A file of a generated recording.
    Emit {
        part: Part,
        seed: u64,
    },
    /// The summary of a generated recording, for the call that may have workers.
    Generate {
        seed: u64,
    },
}

/// A file of a generated recording.
#[derive(Clone, Copy, Debug, PartialEq, Eq)]
pub enum Part {
    Cfg,
    Dat,
}

/// What a recording is measured by, and the names of its files.
#[derive(Drop)]
pub struct Measuring<'a> {
    /// The declared voltage in millivolts, and the thresholds in thousandths of it.
    pub settings: Settings,
    /// The numbers of the channels that are wanted, in the order of the words; None for all in V or kV.
    pub channels: Option<Vec<u32>>,
    /// The number of the reference channel; None for the least one that is chosen.
    pub reference: Option<u32>,
    pub cfg: &'a str,
    pub dat: &'a str,
}

/// Why words give no command.
#[derive(Clone, Copy, Debug, PartialEq, Eq)]
pub enum WordsFault {
    /// They are not those of a command.
    NotUnderstood,
    /// There is no memory for what they say.
    OutOfMemory,
}

impl From<AllocError> for WordsFault {
    ghost use Rattle.std.specs.Prelude.{◌≡◌};
    ghost use Rattle.command_words.specs.declared.command.WordsFault.TheVariants as fault;

    ghost from_gives = { λ _ why. why ≡ fault.OutOfMemory };

    fn from(_error: AllocError) -> WordsFault {
        WordsFault::OutOfMemory
    }
}

impl<T: Drop> From<AllocFailed<T>> for WordsFault {
    ghost use Rattle.std.specs.Prelude.{◌≡◌};
    ghost use Rattle.command_words.specs.declared.command.WordsFault.TheVariants as fault;

    ghost from_gives = { λ _ why. why ≡ fault.OutOfMemory };

    fn from(_error: AllocFailed<T>) -> WordsFault {
        WordsFault::OutOfMemory
    }
}
