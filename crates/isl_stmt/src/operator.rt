//! What joins two operands.

ghost use Rattle.std.specs.Prelude.{◌≡◌};
ghost use Rattle.isl_token.specs.Reading.{Reads, head_kind};
ghost use Rattle.isl_stmt.specs.Word.{head_role};
ghost use Rattle.isl_stmt.specs.Operator as spec;

use crate::word::{Role, next_role};
use isl_token::{Cursor, Fault, Kind};
use isl_tree::statement::Binary;

/// How tightly an operator binds, the loosest first.
#[derive(Clone, Copy, PartialEq, Eq)]
pub enum Precedence {
    Test,
    Universal,
    Sum,
    Product,
    Join,
}

fn operator_sign(kind: Kind) -> Option<Binary>
    ensures { result ≡ spec.operator_sign kind }
{
    match kind {
        Kind::Equal => Some(Binary::Equal),
        Kind::Less => Some(Binary::ProperSubset),
        Kind::LessEqual => Some(Binary::Subset),
        Kind::Greater => Some(Binary::ProperSuperset),
        Kind::GreaterEqual => Some(Binary::Superset),
        Kind::LexLess => Some(Binary::LexLess),
        Kind::LexLessEqual => Some(Binary::LexLessEqual),
        Kind::LexGreater => Some(Binary::LexGreater),
        Kind::LexGreaterEqual => Some(Binary::LexGreaterEqual),
        Kind::Arrow => Some(Binary::Universal),
        Kind::Plus => Some(Binary::Union),
        Kind::Minus => Some(Binary::Difference),
        Kind::ArrowMinus => Some(Binary::RangeDifference),
        Kind::Star => Some(Binary::Intersection),
        Kind::ArrowStar => Some(Binary::RangeIntersection),
        Kind::Mod => Some(Binary::Gist),
        Kind::Dot => Some(Binary::Join),
        _ => None,
    }
}

fn precedence_of(binary: Binary) -> Precedence
    ensures { result ≡ spec.precedence_of binary }
{
    match binary {
        Binary::Equal
        | Binary::ProperSubset
        | Binary::Subset
        | Binary::ProperSuperset
        | Binary::Superset
        | Binary::LexLess
        | Binary::LexLessEqual
        | Binary::LexGreater
        | Binary::LexGreaterEqual => Precedence::Test,
        Binary::Universal => Precedence::Universal,
        Binary::Union | Binary::Difference | Binary::RangeDifference => Precedence::Sum,
        Binary::Intersection | Binary::RangeIntersection | Binary::Gist | Binary::Cross => {
            Precedence::Product
        }
        Binary::Join => Precedence::Join,
    }
}

/// The next token as an operator, if it is one.
fn next_operator(tokens: &Cursor<'_>) -> Option<Binary>
    ensures { result ≡ spec.operator_by (head_role tokens.now) (head_kind tokens.now) }
{
    match next_role(tokens) {
        Role::NoWord => operator_sign(tokens.peek()),
        Role::Cross => Some(Binary::Cross),
        _ => None,
    }
}

/// The next token as an operator of the precedence.
fn head_operator(tokens: &Cursor<'_>, precedence: Precedence) -> Option<Binary>
    ensures { result ≡ spec.head_operator precedence tokens.now }
{
    match next_operator(tokens) {
        Some(binary) if precedence_of(binary) == precedence => Some(binary),
        _ => None,
    }
}

/// Whether an operator of the precedence comes next.
pub fn sees_operator(tokens: &Cursor<'_>, precedence: Precedence) -> bool
    ensures { result ≡ spec.sees_operator precedence tokens.now }
{
    head_operator(tokens, precedence).is_some()
}

/// Reads an operator of the precedence.
///
/// # Errors
/// `Syntax` where another token comes next.
#[tactic(auto, unfolding(crate::specs::Operator::operator))]
pub fn operator(tokens: &mut Cursor<'_>, precedence: Precedence) -> Result<Binary, Fault>
    ensures { Reads (spec.operator precedence tokens.old) result tokens.new }
{
    match head_operator(tokens, precedence) {
        Some(binary) => {
            tokens.skip();
            Ok(binary)
        }
        None => Err(Fault::Syntax),
    }
}
