//! Why a value has no loops.

use isl_meter::Cut;
use std::alloc::{AllocError, AllocFailed};
use thiserror::Error;

/// Why a value has no loops.
#[derive(Clone, Copy, Debug, PartialEq, Eq, Error)]
pub enum GenFault {
    #[error("nested domain")]
    Nested,
    #[error("time shapes differ")]
    TimeShape,
    #[error("infinitely many elements")]
    Unbounded,
    #[error("a point has several times")]
    SeveralTimes,
    #[error("{0}")]
    Cut(Cut),
}

impl From<Cut> for GenFault {
    ghost use Rattle.std.specs.Prelude.{◌≡◌};
    ghost use Rattle.isl_schedule.specs.declared.fault.GenFault.TheVariants as gen_fault;

    ghost from_gives = { λ cut fault. fault ≡ gen_fault.Cut cut };

    fn from(cut: Cut) -> GenFault {
        GenFault::Cut(cut)
    }
}

impl From<AllocError> for GenFault {
    ghost use Rattle.std.specs.Prelude.{◌≡◌};
    ghost use Rattle.isl_meter.specs.declared.Cut.TheVariants.{NoMemory};
    ghost use Rattle.isl_schedule.specs.declared.fault.GenFault.TheVariants as gen_fault;

    ghost from_gives = { λ _ fault. fault ≡ gen_fault.Cut NoMemory };

    fn from(_cause: AllocError) -> GenFault {
        GenFault::Cut(Cut::NoMemory)
    }
}

impl<T: Drop> From<AllocFailed<T>> for GenFault {
    ghost use Rattle.std.specs.Prelude.{◌≡◌};
    ghost use Rattle.isl_meter.specs.declared.Cut.TheVariants.{NoMemory};
    ghost use Rattle.isl_schedule.specs.declared.fault.GenFault.TheVariants as gen_fault;

    ghost from_gives = { λ _ fault. fault ≡ gen_fault.Cut NoMemory };

    fn from(_cause: AllocFailed<T>) -> GenFault {
        GenFault::Cut(Cut::NoMemory)
    }
}
