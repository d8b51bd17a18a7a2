//! Why there is no listing.

use isl_meter::Cut;
use std::alloc::{AllocError, AllocFailed};
use thiserror::Error;

/// Why a value has no listing.
#[derive(Clone, Copy, Debug, PartialEq, Eq, Error)]
pub enum ScanFault {
    #[error("{0}")]
    Cut(Cut),
    #[error("infinitely many elements")]
    Unbounded,
}

impl From<Cut> for ScanFault {
    ghost use Rattle.std.specs.Prelude.{◌≡◌};
    ghost use Rattle.isl_scan.specs.declared.fault.ScanFault.TheVariants as scan_fault;

    ghost from_gives = { λ cut fault. fault ≡ scan_fault.Cut cut };

    fn from(cut: Cut) -> ScanFault {
        ScanFault::Cut(cut)
    }
}

impl From<AllocError> for ScanFault {
    ghost use Rattle.std.specs.Prelude.{◌≡◌};
    ghost use Rattle.isl_meter.specs.declared.Cut.TheVariants.{NoMemory};
    ghost use Rattle.isl_scan.specs.declared.fault.ScanFault.TheVariants as scan_fault;

    ghost from_gives = { λ _ fault. fault ≡ scan_fault.Cut NoMemory };

    fn from(_cause: AllocError) -> ScanFault {
        ScanFault::Cut(Cut::NoMemory)
    }
}

impl<T: Drop> From<AllocFailed<T>> for ScanFault {
    ghost use Rattle.std.specs.Prelude.{◌≡◌};
    ghost use Rattle.isl_meter.specs.declared.Cut.TheVariants.{NoMemory};
    ghost use Rattle.isl_scan.specs.declared.fault.ScanFault.TheVariants as scan_fault;

    ghost from_gives = { λ _ fault. fault ≡ scan_fault.Cut NoMemory };

    fn from(_cause: AllocFailed<T>) -> ScanFault {
        ScanFault::Cut(Cut::NoMemory)
    }
}
