//! What refuses a statement whose work was cut.

ghost use Rattle.std.specs.Prelude.{◌≡◌};
ghost use Rattle.isl_outcome.specs.Why.{refusal_of_cut};

use isl_meter::Cut;
use isl_refusal::Refusal;

/// Why a statement is refused whose work was cut so.
pub fn refusal_of(cut: Cut) -> Refusal
    ensures { result ≡ refusal_of_cut cut }
{
    match cut {
        Cut::Overflow => Refusal::Overflow,
        Cut::Budget => Refusal::Budget,
        Cut::NoMemory => Refusal::NoMemory,
    }
}
