//! Why an operation on values has no result.

use isl_meter::Cut;
use isl_space::SpaceFault;
use std::alloc::{AllocError, AllocFailed};
use thiserror::Error;

/// Why an operation on values has no result.
#[derive(Clone, Copy, Debug, PartialEq, Eq, Error)]
pub enum OpFault {
    #[error("more parameters than the limit")]
    TooWide,
    #[error("{0}")]
    Cut(Cut),
}

impl From<SpaceFault> for OpFault {
    ghost use Rattle.std.specs.Prelude.{◌≡◌};
    ghost use Rattle.isl_union.specs.Fault.{fault_of};

    ghost from_gives = { λ cause fault. fault ≡ fault_of cause };

    fn from(cause: SpaceFault) -> OpFault {
        match cause {
            SpaceFault::TooWide => OpFault::TooWide,
            SpaceFault::NoMemory => OpFault::Cut(Cut::NoMemory),
        }
    }
}

impl From<Cut> for OpFault {
    ghost use Rattle.std.specs.Prelude.{◌≡◌};
    ghost use Rattle.isl_union.specs.declared.fault.OpFault.TheVariants as op_fault;

    ghost from_gives = { λ cut fault. fault ≡ op_fault.Cut cut };

    fn from(cut: Cut) -> OpFault {
        OpFault::Cut(cut)
    }
}

impl From<AllocError> for OpFault {
    ghost use Rattle.std.specs.Prelude.{◌≡◌};
    ghost use Rattle.isl_meter.specs.declared.Cut.TheVariants.{NoMemory};
    ghost use Rattle.isl_union.specs.declared.fault.OpFault.TheVariants as op_fault;

    ghost from_gives = { λ _ fault. fault ≡ op_fault.Cut NoMemory };

    fn from(_cause: AllocError) -> OpFault {
        OpFault::Cut(Cut::NoMemory)
    }
}

impl<T: Drop> From<AllocFailed<T>> for OpFault {
    ghost use Rattle.std.specs.Prelude.{◌≡◌};
    ghost use Rattle.isl_meter.specs.declared.Cut.TheVariants.{NoMemory};
    ghost use Rattle.isl_union.specs.declared.fault.OpFault.TheVariants as op_fault;

    ghost from_gives = { λ _ fault. fault ≡ op_fault.Cut NoMemory };

    fn from(_cause: AllocFailed<T>) -> OpFault {
        OpFault::Cut(Cut::NoMemory)
    }
}
