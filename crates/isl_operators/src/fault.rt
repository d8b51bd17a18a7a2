//! Why a word makes no value.

use isl_lex::LexFault;
use isl_meter::Cut;
use isl_union::OpFault;
use thiserror::Error;

/// Why a word makes no value.
#[derive(Clone, Copy, Debug, PartialEq, Eq, Error)]
pub enum WordFault {
    #[error("a space with more coordinates or leaves than the limit")]
    TooWide,
    #[error("no least or greatest element")]
    NoMinimum,
    #[error("{0}")]
    Cut(Cut),
}

impl From<OpFault> for WordFault {
    ghost use Rattle.std.specs.Prelude.{◌≡◌};
    ghost use Rattle.isl_operators.specs.Fault.{word_fault_of};

    ghost from_gives = { λ cause fault. fault ≡ word_fault_of cause };

    fn from(cause: OpFault) -> WordFault {
        match cause {
            OpFault::TooWide => WordFault::TooWide,
            OpFault::Cut(cut) => WordFault::Cut(cut),
        }
    }
}

impl From<LexFault> for WordFault {
    ghost use Rattle.std.specs.Prelude.{◌≡◌};
    ghost use Rattle.isl_operators.specs.Fault.{word_fault_of_lex};

    ghost from_gives = { λ cause fault. fault ≡ word_fault_of_lex cause };

    fn from(cause: LexFault) -> WordFault {
        match cause {
            LexFault::NoMinimum => WordFault::NoMinimum,
            LexFault::Cut(cut) => WordFault::Cut(cut),
        }
    }
}

impl From<Cut> for WordFault {
    ghost use Rattle.std.specs.Prelude.{◌≡◌};
    ghost use Rattle.isl_operators.specs.declared.fault.WordFault.TheVariants as word_fault;

    ghost from_gives = { λ cut fault. fault ≡ word_fault.Cut cut };

    fn from(cut: Cut) -> WordFault {
        WordFault::Cut(cut)
    }
}
