//! Why a shape, a space or a list of parameters was not made.

use std::alloc::{AllocError, AllocFailed};
use thiserror::Error;

/// Why a shape, a space or a list of parameters was not made.
#[derive(Clone, Copy, Debug, PartialEq, Eq, Error)]
pub enum SpaceFault {
    #[error("more parameters, coordinates or leaves than the limit")]
    TooWide,
    #[error("out of memory")]
    NoMemory,
}

impl From<AllocError> for SpaceFault {
    ghost use Rattle.std.specs.Prelude.{◌≡◌};
    ghost use Rattle.isl_space.specs.declared.fault.SpaceFault.TheVariants.{NoMemory};

    ghost from_gives = { λ _ fault. fault ≡ NoMemory };

    fn from(_cause: AllocError) -> SpaceFault {
        SpaceFault::NoMemory
    }
}

impl<T: Drop> From<AllocFailed<T>> for SpaceFault {
    ghost use Rattle.std.specs.Prelude.{◌≡◌};
    ghost use Rattle.isl_space.specs.declared.fault.SpaceFault.TheVariants.{NoMemory};

    ghost from_gives = { λ _ fault. fault ≡ NoMemory };

    fn from(_cause: AllocFailed<T>) -> SpaceFault {
        SpaceFault::NoMemory
    }
}
