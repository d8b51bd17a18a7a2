//! Why there are no least or greatest elements.

use isl_meter::Cut;
use std::alloc::{AllocError, AllocFailed};
use thiserror::Error;

/// Why there are no least or greatest elements.
#[derive(Clone, Copy, Debug, PartialEq, Eq, Error)]
pub enum LexFault {
    #[error("no least or greatest element")]
    NoMinimum,
    #[error("{0}")]
    Cut(Cut),
}

impl From<Cut> for LexFault {
    ghost use Rattle.std.specs.Prelude.{◌≡◌};
    ghost use Rattle.isl_extremes.specs.declared.fault.LexFault.TheVariants as lex_fault;

    ghost from_gives = { λ cut fault. fault ≡ lex_fault.Cut cut };

    fn from(cut: Cut) -> LexFault {
        LexFault::Cut(cut)
    }
}

impl From<AllocError> for LexFault {
    ghost use Rattle.std.specs.Prelude.{◌≡◌};
    ghost use Rattle.isl_meter.specs.declared.Cut.TheVariants.{NoMemory};
    ghost use Rattle.isl_extremes.specs.declared.fault.LexFault.TheVariants as lex_fault;

    ghost from_gives = { λ _ fault. fault ≡ lex_fault.Cut NoMemory };

    fn from(_cause: AllocError) -> LexFault {
        LexFault::Cut(Cut::NoMemory)
    }
}

impl<T: Drop> From<AllocFailed<T>> for LexFault {
    ghost use Rattle.std.specs.Prelude.{◌≡◌};
    ghost use Rattle.isl_meter.specs.declared.Cut.TheVariants.{NoMemory};
    ghost use Rattle.isl_extremes.specs.declared.fault.LexFault.TheVariants as lex_fault;

    ghost from_gives = { λ _ fault. fault ≡ lex_fault.Cut NoMemory };

    fn from(_cause: AllocFailed<T>) -> LexFault {
        LexFault::Cut(Cut::NoMemory)
    }
}
