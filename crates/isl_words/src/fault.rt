//! Why words were not taken.

use std::alloc::{AllocError, AllocFailed};
use thiserror::Error;

/// Why words were not taken.
#[derive(Clone, Copy, Debug, PartialEq, Eq, Error)]
pub enum WordsFault {
    #[error("words outside the option table")]
    Usage,
    #[error("out of memory")]
    NoMemory,
}

impl From<AllocError> for WordsFault {
    ghost use Rattle.std.specs.Prelude.{◌≡◌};
    ghost use Rattle.isl_words.specs.declared.fault.WordsFault.TheVariants.{NoMemory};

    ghost from_gives = { λ _ fault. fault ≡ NoMemory };

    fn from(_cause: AllocError) -> WordsFault {
        WordsFault::NoMemory
    }
}

impl<T: Drop> From<AllocFailed<T>> for WordsFault {
    ghost use Rattle.std.specs.Prelude.{◌≡◌};
    ghost use Rattle.isl_words.specs.declared.fault.WordsFault.TheVariants.{NoMemory};

    ghost from_gives = { λ _ fault. fault ≡ NoMemory };

    fn from(_cause: AllocFailed<T>) -> WordsFault {
        WordsFault::NoMemory
    }
}
