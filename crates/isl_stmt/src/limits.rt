//! The limits of statements.

ghost use Rattle.std.specs.Prelude.{◌≡◌};
ghost use Rattle.isl_stmt.specs.Limits as spec;

use isl_kinds::{Part, PartTest, any_part};
use isl_text::limits::is_within;
use isl_tree::statement::{Expr, Stmt};

// Literals that are not within their limits.
#[derive(Drop)]
struct TooGreat;

impl PartTest for TooGreat {
    ghost use Rattle.isl_stmt.specs.Limits.{is_too_great};

    ghost passing = { λ _. is_too_great };

    fn passes(&self, part: Part<'_>) -> bool {
        matches!(part, Part::Literal(literal) if !is_within(literal))
    }
}

#[tactic(auto, using(crate::proofs::LimitLaws::none_too_great))]
fn expression_is_within(expr: &Expr) -> bool
    ensures { result ≡ spec.expression_is_within expr.now }
{
    !any_part(expr, &TooGreat)
}

/// Whether each literal of a statement is within its limits.
pub fn statement_is_within(stmt: &Stmt) -> bool
    ensures { result ≡ spec.statement_is_within stmt.now }
{
    match stmt {
        Stmt::Empty => true,
        Stmt::Bind(_, expr) | Stmt::Show(expr) => expression_is_within(expr),
        Stmt::Assume(set) => is_within(set),
    }
}
