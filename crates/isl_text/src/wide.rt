//! Numbers above a limit.

ghost use Rattle.std.specs.Prelude.{◌≡◌, ◌≤ℤ◌, pos};
ghost use Rattle.std.specs.List.{list_any};
ghost use Rattle.isl_text.specs.Limits as spec;

use isl_token::Rest;
use isl_token::number::is_above;

/// Whether the next token is a number above the limit, which is not negative.
#[tactic(auto, using(crate::proofs::WideLaws::next))]
fn is_wide(rest: &Rest<'_>, limit: i128) -> bool
    requires { pos 0 ≤ℤ limit }
    ensures { result ≡ spec.next_is_wide limit rest.now }
{
    match rest.digits() {
        Some(digits) => is_above(digits, limit),
        None => false,
    }
}

/// Whether some number is above the limit, which is not negative.
#[tactic(auto, using(crate::proofs::WideLaws::turns))]
pub fn has_wide_number(mut rest: Rest<'_>, limit: i128) -> bool
    requires { pos 0 ≤ℤ limit }
    ensures { result ≡ list_any (spec.is_wide limit) rest.entry }
{
    while rest.left() > 0 {
        if is_wide(&rest, limit) {
            return true;
        }
        rest.skip();
    }
    false
}
