//! What rows say of one another as they are written. No unit is used, and no memory.

ghost use Rattle.std.specs.Prelude.{◌≡◌, ◌↔◌, ◌+ℤ◌, ◌<ℤ◌, ◌≤ℤ◌, Any, pos, negsuc, neg_ℤ, IsTrue};
ghost use Rattle.isl_math.specs.Dot.{scaled};
ghost use Rattle.isl_piece.specs.declared.row.RowKind.TheVariants.{Zero, AtLeast};
ghost use Rattle.isl_difference.specs.Bounds.{ImplyRow, ImplyRows, AreApartRows};
ghost use Rattle.isl_difference.specs.Told.{ExcludeOne, Excludes, IsAbove, IsBelow, IsBound, IsOpposite, IsParallel, SayAll, Says};

use isl_meter::Int;
use isl_piece::{Row, RowKind};

// ---- forms
// Whether the numbers are the same.
fn are_same(one: &[Int], other: &[Int]) -> bool
    ensures { IsTrue result ↔ (other.now ≡ one.now) }
{
    one == other
}

// Whether the second number is the negative of the first.
fn is_negative_of(a: Int, b: Int) -> bool
    ensures { IsTrue result ↔ (b ≡ neg_ℤ a) }
{
    match a.get().checked_neg() {
        Some(negative) => negative == b.get(),
        None => false,
    }
}

// Whether each number is the negative of the one at its place.
fn are_opposite(one: &[Int], other: &[Int]) -> bool
    ensures { IsTrue result ↔ (other.now ≡ scaled (negsuc 0) one.now) }
{
    if one.len() != other.len() {
        return false;
    }
    for i in 0..one.len() {
        if !is_negative_of(one[i], other[i]) {
            return false;
        }
    }
    true
}

// Whether the sum is below 0.
fn is_sum_negative(a: Int, b: Int) -> bool
    ensures { IsTrue result ↔ ((a +ℤ b) <ℤ pos 0) }
{
    match b.get().checked_neg() {
        Some(opposite) => a.get() < opposite,
        None => true,
    }
}

// ---- rows
// Whether the row is an equality.
fn is_zero(row: &Row) -> bool
    ensures { IsTrue result ↔ (row.now.kind ≡ Zero) }
{
    matches!(row.kind, RowKind::Zero)
}

// Whether the row is an inequality.
fn is_at_least(row: &Row) -> bool
    ensures { IsTrue result ↔ (row.now.kind ≡ AtLeast) }
{
    matches!(row.kind, RowKind::AtLeast)
}

// Whether the row says that its form is at least 0.
fn is_bound(row: &Row) -> bool
    ensures { IsTrue result ↔ IsBound row.now }
{
    is_zero(row) || is_at_least(row)
}

// Whether the rows have the same form but for the constant.
fn is_parallel(row: &Row, other: &Row) -> bool
    ensures { IsTrue result ↔ IsParallel row.now other.now }
{
    are_same(row.coefs.as_slice(), other.coefs.as_slice())
}

// Whether the form of the other row has each coefficient's negative.
fn is_opposite(row: &Row, other: &Row) -> bool
    ensures { IsTrue result ↔ IsOpposite row.now other.now }
{
    are_opposite(row.coefs.as_slice(), other.coefs.as_slice())
}

// Whether the rows are the same.
#[tactic(auto, using(std::proofs::lemmas::Grind::common_steps, crate::proofs::BoundLaws::rows_same))]
fn is_same(row: &Row, other: &Row) -> bool
    ensures { IsTrue result ↔ (other.now ≡ row.now) }
{
    row.kind == other.kind
        && row.constant == other.constant
        && row.k == other.k
        && is_parallel(row, other)
}

// Whether the row bounds the form of the other from below, at least as tightly.
fn is_tighter(row: &Row, other: &Row) -> bool
    ensures { IsTrue result ↔ (IsBound row.now × (other.now.kind ≡ AtLeast)
        × (row.now.constant ≤ℤ other.now.constant) × IsParallel row.now other.now) }
{
    is_bound(row) && is_at_least(other) && row.constant <= other.constant && is_parallel(row, other)
}

// Whether the row is an equality, whose negative bounds the form of the other from below, at least as tightly.
fn is_half(row: &Row, other: &Row) -> bool
    ensures { IsTrue result ↔ ((row.now.kind ≡ Zero) × (other.now.kind ≡ AtLeast)
        × (pos 0 ≤ℤ (row.now.constant +ℤ other.now.constant)) × IsOpposite row.now other.now) }
{
    is_zero(row)
        && is_at_least(other)
        && !is_sum_negative(row.constant(), other.constant())
        && is_opposite(row, other)
}

// Whether the first row says the second.
fn says(row: &Row, other: &Row) -> bool
    ensures { IsTrue result ↔ Says row.now other.now }
{
    is_same(row, other) || is_tighter(row, other) || is_half(row, other)
}

// Whether the row bounds a form from below, and the other from above, by less.
fn is_above(row: &Row, other: &Row) -> bool
    ensures { IsTrue result ↔ IsAbove row.now other.now }
{
    is_bound(row)
        && is_bound(other)
        && is_sum_negative(row.constant(), other.constant())
        && is_opposite(row, other)
}

// Whether the row is an equality, and the other bounds its form from below, by more.
fn is_below(row: &Row, other: &Row) -> bool
    ensures { IsTrue result ↔ IsBelow row.now other.now }
{
    is_zero(row) && is_bound(other) && other.constant < row.constant && is_parallel(row, other)
}

// Whether the rows bound a form from below and from above, with no number between.
fn excludes(row: &Row, other: &Row) -> bool
    ensures { IsTrue result ↔ Excludes row.now other.now }
{
    is_above(row, other) || is_below(row, other) || is_below(other, row)
}

// ---- lists of rows
/// Whether one of the rows says the other row.
#[tactic(auto, using(std::proofs::lemmas::Grind::common_steps, crate::proofs::BoundLaws::list_steps))]
pub(crate) fn is_implied(rows: &[Row], other: &Row) -> bool
    ensures exact { IsTrue result ↔ Any (λ row. Says row other.now) rows.now }
    ensures holds { IsTrue result → ImplyRow rows.now other.now }
{
    for row in rows {
        if says(row, other) {
            return true;
        }
    }
    false
}

/// Whether each of the other rows is said by one of the rows.
#[tactic(auto, using(std::proofs::lemmas::Grind::common_steps, crate::proofs::BoundLaws::list_steps))]
pub(crate) fn are_implied(rows: &[Row], others: &[Row]) -> bool
    ensures exact { IsTrue result ↔ SayAll rows.now others.now }
    ensures hold { IsTrue result → ImplyRows rows.now others.now }
{
    for other in others {
        if !is_implied(rows, other) {
            return false;
        }
    }
    true
}

// Whether one of the rows excludes the other row.
fn is_excluded(rows: &[Row], other: &Row) -> bool
    ensures { IsTrue result ↔ Any (λ row. Excludes row other.now) rows.now }
{
    for row in rows {
        if excludes(row, other) {
            return true;
        }
    }
    false
}

/// Whether one of the rows excludes one of the others.
#[tactic(auto, using(std::proofs::lemmas::Grind::common_steps, crate::proofs::BoundLaws::list_steps))]
pub(crate) fn are_apart(rows: &[Row], others: &[Row]) -> bool
    ensures exact { IsTrue result ↔ ExcludeOne rows.now others.now }
    ensures apart { IsTrue result → AreApartRows rows.now others.now }
{
    for other in others {
        if is_excluded(rows, other) {
            return true;
        }
    }
    false
}
