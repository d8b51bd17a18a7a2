//! Why there is no tree.

use isl_meter::Cut;
use std::alloc::{AllocError, AllocFailed};
use thiserror::Error;

/// Why there is no tree.
#[derive(Clone, Copy, Debug, PartialEq, Eq, Error)]
pub enum PipFault {
    #[error("no least or greatest element")]
    NoMinimum,
    #[error("{0}")]
    Cut(Cut),
}

impl From<Cut> for PipFault {
    ghost use Rattle.std.specs.Prelude.{◌≡◌};
    ghost use Rattle.isl_greatest.specs.declared.fault.PipFault.TheVariants as pip_fault;

    ghost from_gives = { λ cut fault. fault ≡ pip_fault.Cut cut };

    fn from(cut: Cut) -> PipFault {
        PipFault::Cut(cut)
    }
}

impl From<AllocError> for PipFault {
    ghost use Rattle.std.specs.Prelude.{◌≡◌};
    ghost use Rattle.isl_meter.specs.declared.Cut.TheVariants.{NoMemory};
    ghost use Rattle.isl_greatest.specs.declared.fault.PipFault.TheVariants as pip_fault;

    ghost from_gives = { λ _ fault. fault ≡ pip_fault.Cut NoMemory };

    fn from(_cause: AllocError) -> PipFault {
        PipFault::Cut(Cut::NoMemory)
    }
}

impl<T: Drop> From<AllocFailed<T>> for PipFault {
    ghost use Rattle.std.specs.Prelude.{◌≡◌};
    ghost use Rattle.isl_meter.specs.declared.Cut.TheVariants.{NoMemory};
    ghost use Rattle.isl_greatest.specs.declared.fault.PipFault.TheVariants as pip_fault;

    ghost from_gives = { λ _ fault. fault ≡ pip_fault.Cut NoMemory };

    fn from(_cause: AllocFailed<T>) -> PipFault {
        PipFault::Cut(Cut::NoMemory)
    }
}
