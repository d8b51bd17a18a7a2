//! Why a text is not read.

ghost use Rattle.std.specs.Prelude.{◌≡◌};
ghost use Rattle.isl_token.specs.declared.fault.Fault.TheVariants.{NoMemory};

use isl_refusal::Refusal;
use std::alloc::{AllocError, AllocFailed};

/// Why a text is not read.
#[derive(Clone, Copy, PartialEq, Eq)]
pub enum Fault {
    /// Memory ran out.
    NoMemory,
    /// The text spells nothing of the kind that is asked for.
    Syntax,
}

impl From<AllocError> for Fault {
    ghost from_gives = { λ _ e. e ≡ NoMemory };

    fn from(_e: AllocError) -> Fault {
        Fault::NoMemory
    }
}

impl<T: Drop> From<AllocFailed<T>> for Fault {
    ghost from_gives = { λ _ e. e ≡ NoMemory };

    fn from(_e: AllocFailed<T>) -> Fault {
        Fault::NoMemory
    }
}

impl From<Fault> for Refusal {
    ghost use Rattle.std.specs.Prelude.{◌≡◌};
    ghost use Rattle.isl_token.specs.Fault.{of_fault};

    ghost from_gives = { λ fault refusal. refusal ≡ of_fault fault };

    fn from(fault: Fault) -> Refusal {
        match fault {
            Fault::NoMemory => Refusal::NoMemory,
            Fault::Syntax => Refusal::Syntax,
        }
    }
}
