//! The order of rows in printed text.

ghost use Rattle.std.specs.Prelude.{◌≡◌, IfOk, map};
ghost use Rattle.isl_row_text.specs.Ordered.{in_order};
ghost use Rattle.isl_row_text.specs.RowOrder.{rank_of, numbers_cmp, row_cmp, row_before};

use isl_piece::{Row, RowKind};
use std::alloc::{AllocError, Global};
use std::cmp::Ordering;

// The place of a kind in the order of the kinds.
fn rank(kind: RowKind) -> u8
    ensures { result ≡ rank_of kind }
{
    match kind {
        RowKind::Zero => 0,
        RowKind::AtLeast => 1,
        RowKind::Divides => 2,
        RowKind::NotDivides => 3,
    }
}

// By the coefficients, and then the constant.
fn compare_numbers(a: &Row, b: &Row) -> Ordering
    ensures { result ≡ numbers_cmp a.now b.now }
{
    let by_coefs = a.coefs.as_slice().cmp(b.coefs.as_slice());
    by_coefs.then(a.constant().cmp(&b.constant()))
}

fn compare_rows(a: &Row, b: &Row) -> Ordering
    ensures { result ≡ row_cmp a.now b.now }
{
    rank(a.kind)
        .cmp(&rank(b.kind))
        .then(a.modulus().cmp(&b.modulus()))
        .then_with(|| compare_numbers(b, a))
}

/// The rows in order.
///
/// # Errors
///
/// Where memory ends.
pub fn ordered_rows<'a>(alloc: Global, rows: &'a [Row]) -> Result<Vec<&'a Row>, AllocError>
    ensures { IfOk result (λ ordered. map (λ row. row.now) ordered.items ≡ in_order row_before rows.now) }
{
    let mut ordered = Vec::with_capacity(alloc, rows.len())?;
    for row in rows {
        ordered.push(row)?;
    }
    ordered.sort_by(|a, b| compare_rows(a, b))?;
    Ok(ordered)
}
