//! Rows before their numbers are added up.

ghost use Rattle.std.specs.Prelude.{◌≡◌, ◌≤◌, IfSome, Some, None, []};
ghost use Rattle.isl_plain.specs.Code.{remainder_of, written_of};
ghost use Rattle.isl_plain.specs.Rows.{compared, divided, equation, inequality};

use crate::remainder::Remainder;
use isl_piece::RowKind;
use isl_tree::tree::{Compare, Signed};

/// What is asked of a term less another one, and less a one at a column where there is one.
#[derive(Clone, Copy)]
pub struct Written<'a> {
    pub kind: RowKind,
    pub modulus: i128,
    pub greater: &'a [Signed],
    pub less: &'a [Signed],
    pub last: Option<usize>,
}

fn equation<'a>(greater: &'a [Signed], less: &'a [Signed], last: Option<usize>) -> Written<'a>
    ensures { written_of result ≡ equation greater.now less.now last }
{
    Written {
        kind: RowKind::Zero,
        modulus: 1,
        greater,
        less,
        last,
    }
}

fn inequality<'a>(greater: &'a [Signed], less: &'a [Signed], last: Option<usize>) -> Written<'a>
    ensures { written_of result ≡ inequality greater.now less.now last }
{
    Written {
        kind: RowKind::AtLeast,
        modulus: 1,
        greater,
        less,
        last,
    }
}

/// A comparison of two terms over so many columns.
pub(crate) fn compared<'a>(
    columns: usize,
    compare: Compare,
    left: &'a [Signed],
    right: &'a [Signed],
) -> Written<'a>
    ensures row { written_of result ≡ compared columns compare left.now right.now }
    ensures inside { IfSome result.last (λ at. at ≤ columns) }
{
    let constant = Some(columns);
    match compare {
        Compare::Equal => equation(left, right, None),
        Compare::GreaterEqual => inequality(left, right, None),
        Compare::Greater => inequality(left, right, constant),
        Compare::LessEqual => inequality(right, left, None),
        Compare::Less => inequality(right, left, constant),
        Compare::Differs => equation(left, right, None),
    }
}

/// A remainder that is compared with 0.
pub(crate) fn divided(remainder: Remainder<'_>, compare: Compare) -> Written<'_>
    ensures row { written_of result ≡ divided (remainder_of remainder.entry) compare }
    ensures none { result.last ≡ None }
{
    let kind = match compare {
        Compare::Differs => RowKind::NotDivides,
        _ => RowKind::Divides,
    };
    Written {
        kind,
        modulus: remainder.modulus,
        greater: remainder.term,
        less: &[],
        last: None,
    }
}

/// A term that equals the coordinate at a column.
pub(crate) fn coordinate(term: &[Signed], at: usize) -> Written<'_>
    ensures row { written_of result ≡ equation term.now [] (Some at) }
    ensures inside { result.last ≡ Some at }
{
    equation(term, &[], Some(at))
}
