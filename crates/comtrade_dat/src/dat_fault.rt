// Why a dat has no samples.
ghost use Rattle.std.specs.Prelude.{◌≡◌};
ghost use Rattle.comtrade_dat.specs.declared.dat_fault.DatFault.TheVariants as fault;

use pq_base::OutOfMemory;
use std::alloc::{AllocError, AllocFailed};

/// The first fault of a dat. Records count from 1.
#[derive(Clone, Copy, Debug, PartialEq, Eq)]
pub enum DatFault {
    /// The bytes of record `at` are not all there.
    Short { at: u64 },
    /// The sample number of record `at` is not that of the record before plus one, modulo 2^32.
    Number { at: u64, found: u32 },
    /// The count of a selected channel is missing in record `at`; channels count from 1.
    Missing { at: u64, channel: u32 },
    /// So many bytes are left after the last record.
    Long { bytes: u64 },
    /// There is no memory.
    OutOfMemory,
}

impl From<AllocError> for DatFault {
    ghost from_gives = { λ _ e. e ≡ fault.OutOfMemory };

    fn from(_error: AllocError) -> DatFault {
        DatFault::OutOfMemory
    }
}

impl<T: Drop> From<AllocFailed<T>> for DatFault {
    ghost from_gives = { λ _ e. e ≡ fault.OutOfMemory };

    fn from(_error: AllocFailed<T>) -> DatFault {
        DatFault::OutOfMemory
    }
}

impl From<OutOfMemory> for DatFault {
    ghost from_gives = { λ _ e. e ≡ fault.OutOfMemory };

    fn from(_error: OutOfMemory) -> DatFault {
        DatFault::OutOfMemory
    }
}
