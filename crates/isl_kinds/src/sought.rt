//! What is looked for in a whole expression: names that stand for nothing, and elements that no list has.

ghost use Rattle.std.specs.Prelude.{◌≡◌};
ghost use Rattle.isl_kinds.specs.Typed as spec;

use crate::known::is_known;
use crate::{Part, PartTest, Scope, any_part};
use isl_tree::statement::Expr;

// Names that are unbound, and literals with identifiers that are unknown.
#[derive(Drop)]
struct Unknown<'a> {
    scope: &'a Scope,
}

impl PartTest for Unknown<'_> {
    ghost use Rattle.isl_kinds.specs.Typed.{is_unknown};

    ghost passing = { λ test. is_unknown test.scope.now };

    fn passes(&self, part: Part<'_>) -> bool {
        match part {
            Part::Name(name) => self.scope.get(name).is_none(),
            Part::Literal(literal) => !is_known(literal),
            Part::Operator(_)
            | Part::Prefix(_)
            | Part::Any
            | Part::Last
            | Part::Inverse
            | Part::Application
            | Part::Item(_) => false,
        }
    }
}

// Elements that no list has: a list has two.
#[derive(Drop)]
struct NoItem;

impl PartTest for NoItem {
    ghost use Rattle.isl_kinds.specs.Typed.{is_no_item};

    ghost passing = { λ _. is_no_item };

    fn passes(&self, part: Part<'_>) -> bool {
        match part {
            Part::Item(number) => number > 1,
            Part::Name(_)
            | Part::Literal(_)
            | Part::Operator(_)
            | Part::Prefix(_)
            | Part::Any
            | Part::Last
            | Part::Inverse
            | Part::Application => false,
        }
    }
}

/// Whether a name is unbound, or an identifier of a literal is unknown.
pub(crate) fn has_unknown(expr: &Expr, scope: &Scope) -> bool
    ensures { result ≡ spec.has_unknown scope.now expr.now }
{
    any_part(expr, &Unknown { scope })
}

/// Whether an element of a list is asked for that no list has.
pub(crate) fn has_no_item(expr: &Expr) -> bool
    ensures { result ≡ spec.has_no_item expr.now }
{
    any_part(expr, &NoItem)
}
