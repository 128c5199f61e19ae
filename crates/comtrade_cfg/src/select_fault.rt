// Why channels can't be selected.
ghost use Rattle.std.specs.Prelude.{◌≡◌};
ghost use Rattle.comtrade_cfg.specs.declared.select_fault.SelectFault.TheVariants as fault;

use std::alloc::{AllocError, AllocFailed};

/// Why channels can't be selected.
#[derive(Clone, Copy, Debug, PartialEq, Eq)]
pub enum SelectFault {
    /// No channel of this number in V or kV, or it is wanted twice; 0 where none is chosen.
    Channel { channel: u32 },
    /// More than 16 channels are wanted.
    TooMany,
    /// The coefficients of the channel of this line pass the limit.
    Value { line: u32 },
    /// There is no memory.
    OutOfMemory,
}

impl From<AllocError> for SelectFault {
    ghost from_gives = { λ _ e. e ≡ fault.OutOfMemory };

    fn from(_error: AllocError) -> SelectFault {
        SelectFault::OutOfMemory
    }
}

impl<T: Drop> From<AllocFailed<T>> for SelectFault {
    ghost from_gives = { λ _ e. e ≡ fault.OutOfMemory };

    fn from(_error: AllocFailed<T>) -> SelectFault {
        SelectFault::OutOfMemory
    }
}
