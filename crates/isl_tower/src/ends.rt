//! Ends of a column: rows that bound it on one side, wherever the other numbers stand.

ghost use Rattle.std.specs.Prelude.{◌↔◌, ◌<◌, length, All, IsTrue};
ghost use Rattle.isl_piece.specs.Row.{coef_at};
ghost use Rattle.isl_tower.specs.Ends.{EndsBelow, EndsAbove, HasLowerEnd, HasUpperEnd};

use isl_piece::{Row, RowKind};

fn ends_below(row: &Row, col: usize) -> bool
    requires { col < length row.now.coefs }
    ensures { IsTrue result ↔ EndsBelow row.now.kind (coef_at row.now col) }
{
    let coef = row.coefs.get(col);
    match row.kind {
        RowKind::Zero => !coef.is_zero(),
        RowKind::AtLeast => coef.is_positive(),
        RowKind::Divides | RowKind::NotDivides => false,
    }
}

fn ends_above(row: &Row, col: usize) -> bool
    requires { col < length row.now.coefs }
    ensures { IsTrue result ↔ EndsAbove row.now.kind (coef_at row.now col) }
{
    let coef = row.coefs.get(col);
    match row.kind {
        RowKind::Zero => !coef.is_zero(),
        RowKind::AtLeast => coef.is_negative(),
        RowKind::Divides | RowKind::NotDivides => false,
    }
}

/// Whether some row bounds the column from below.
#[tactic(auto, using(std::proofs::lemmas::Grind::common_steps, crate::proofs::ClosedLaws::end_steps))]
pub fn has_lower_end(rows: &[Row], col: usize) -> bool
    requires { All (λ r. col < length r.coefs) rows.now }
    ensures { IsTrue result ↔ HasLowerEnd col rows.now }
{
    for row in rows {
        if ends_below(row, col) {
            return true;
        }
    }
    false
}

/// Whether some row bounds the column from above.
#[tactic(auto, using(std::proofs::lemmas::Grind::common_steps, crate::proofs::ClosedLaws::end_steps))]
pub fn has_upper_end(rows: &[Row], col: usize) -> bool
    requires { All (λ r. col < length r.coefs) rows.now }
    ensures { IsTrue result ↔ HasUpperEnd col rows.now }
{
    for row in rows {
        if ends_above(row, col) {
            return true;
        }
    }
    false
}
