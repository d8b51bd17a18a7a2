//! What a bracket begins, as the tokens up to the bracket that closes it tell.

ghost use Rattle.std.specs.Prelude.{◌≡◌};
ghost use Rattle.isl_formula.specs.Ahead as spec;

use isl_token::{Cursor, Kind, Rest};

/// What is looked for in brackets.
#[derive(Clone, Copy)]
pub enum Mark {
    /// A comparison, or a word of formulas.
    Formula,
    Arrow,
}

fn is_mark(mark: Mark, kind: Kind) -> bool
    ensures { result ≡ spec.is_mark mark kind }
{
    match kind {
        Kind::And
        | Kind::Or
        | Kind::Not
        | Kind::Implies
        | Kind::Exists
        | Kind::True
        | Kind::False
        | Kind::Equal
        | Kind::Less
        | Kind::LessEqual
        | Kind::Greater
        | Kind::GreaterEqual
        | Kind::Differs => matches!(mark, Mark::Formula),
        Kind::Arrow => matches!(mark, Mark::Arrow),
        _ => false,
    }
}

/// Whether such a mark stands before the bracket that closes one that is open.
#[tactic(auto, using(crate::proofs::AheadTurns::turns))]
fn holds(mark: Mark, mut rest: Rest<'_>) -> bool
    ensures { result ≡ spec.holds mark rest.entry 0 }
{
    let mut level: usize = 0;
    for _turn in 0..rest.left() {
        let kind = rest.peek();
        rest.skip();
        match kind {
            Kind::Open | Kind::OpenSquare => level += 1,
            Kind::Close | Kind::CloseSquare => {
                if level == 0 {
                    return false;
                }
                level -= 1;
            }
            kind => {
                if is_mark(mark, kind) {
                    return true;
                }
            }
        }
    }
    false
}

/// Whether the bracket comes next and such a mark stands in it.
#[tactic(auto, using(crate::proofs::AheadTurns::begun))]
pub fn begins(tokens: &Cursor<'_>, bracket: Kind, mark: Mark) -> bool
    ensures { result ≡ spec.begins bracket mark tokens.now }
{
    let mut rest = tokens.rest();
    if rest.left() == 0 || rest.peek() != bracket {
        return false;
    }
    rest.skip();
    holds(mark, rest)
}
