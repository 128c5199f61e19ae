// How faults of words, settings, cfg, selection and dat are refused. Want of memory is a status by itself.
use crate::status::Status;
use comtrade_cfg::{CfgFault, Quantity, SelectFault};
use comtrade_dat::DatFault;
use event_detect::BadLimits;
use pq_base::OutOfMemory;
use std::alloc::{AllocError, AllocFailed};
use std::io;

impl From<io::Error> for Status {
    ghost use Rattle.std.specs.Prelude.{◌≡◌};
    ghost use Rattle.std.specs.IoError.{error_kind};
    ghost use Rattle.status_text.specs.Refusals.{words_refusal};

    ghost from_gives = { λ error status. status ≡ words_refusal (error_kind error) };

    /// Where words can't be had: want of memory, or else words that aren't UTF-8.
    fn from(error: io::Error) -> Status {
        match error.kind() {
            io::ErrorKind::OutOfMemory => Status::OutOfMemory,
            _ => Status::Usage,
        }
    }
}

impl From<BadLimits> for Status {
    ghost use Rattle.std.specs.Prelude.{◌≡◌};
    ghost use Rattle.status_text.specs.declared.status.Status.TheVariants as variant;

    ghost from_gives = { λ _ status. status ≡ variant.BadLimits };

    fn from(_error: BadLimits) -> Status {
        Status::BadLimits
    }
}

impl From<CfgFault> for Status {
    ghost use Rattle.std.specs.Prelude.{◌≡◌};
    ghost use Rattle.status_text.specs.Refusals.{cfg_refusal};

    ghost from_gives = { λ fault status. status ≡ cfg_refusal fault };

    fn from(fault: CfgFault) -> Status {
        match fault {
            CfgFault::Line { number } => Status::CfgFault {
                line: number,
                field: 0,
            },
            CfgFault::Field { line, field } => Status::CfgFault { line, field },
            CfgFault::Unsupported { what, line } => Status::Unsupported { what, line },
            CfgFault::Limit { what, line } => Status::Limit { what, line },
            CfgFault::OutOfMemory => Status::OutOfMemory,
        }
    }
}

impl From<SelectFault> for Status {
    ghost use Rattle.std.specs.Prelude.{◌≡◌};
    ghost use Rattle.status_text.specs.Refusals.{select_refusal};

    ghost from_gives = { λ fault status. status ≡ select_refusal fault };

    fn from(fault: SelectFault) -> Status {
        match fault {
            SelectFault::Channel { channel } => Status::Selection { channel },
            SelectFault::TooMany => Status::Limit {
                what: Quantity::Channels,
                line: 0,
            },
            SelectFault::Value { line } => Status::Limit {
                what: Quantity::Value,
                line,
            },
            SelectFault::OutOfMemory => Status::OutOfMemory,
        }
    }
}

impl From<DatFault> for Status {
    ghost use Rattle.std.specs.Prelude.{◌≡◌};
    ghost use Rattle.status_text.specs.Refusals.{dat_refusal};

    ghost from_gives = { λ fault status. status ≡ dat_refusal fault };

    fn from(fault: DatFault) -> Status {
        match fault {
            DatFault::OutOfMemory => Status::OutOfMemory,
            kind => Status::DatFault { kind },
        }
    }
}

impl From<OutOfMemory> for Status {
    ghost use Rattle.std.specs.Prelude.{◌≡◌};
    ghost use Rattle.status_text.specs.declared.status.Status.TheVariants as variant;

    ghost from_gives = { λ _ status. status ≡ variant.OutOfMemory };

    fn from(_error: OutOfMemory) -> Status {
        Status::OutOfMemory
    }
}

impl From<AllocError> for Status {
    ghost use Rattle.std.specs.Prelude.{◌≡◌};
    ghost use Rattle.status_text.specs.declared.status.Status.TheVariants as variant;

    ghost from_gives = { λ _ status. status ≡ variant.OutOfMemory };

    fn from(_error: AllocError) -> Status {
        Status::OutOfMemory
    }
}

impl<T: Drop> From<AllocFailed<T>> for Status {
    ghost use Rattle.std.specs.Prelude.{◌≡◌};
    ghost use Rattle.status_text.specs.declared.status.Status.TheVariants as variant;

    ghost from_gives = { λ _ status. status ≡ variant.OutOfMemory };

    fn from(_error: AllocFailed<T>) -> Status {
        Status::OutOfMemory
    }
}
