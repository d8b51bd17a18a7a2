//! Whether pieces are the same.

ghost use Rattle.std.specs.Prelude.{◌≡◌, ◌↔◌, IsTrue, map};
ghost use Rattle.isl_union.specs.Piece.{kept_piece};

use isl_meter::Int;
use isl_piece::{Piece, Row};

// Whether the numbers are the same.
fn are_same_numbers(numbers: &[Int], others: &[Int]) -> bool
    ensures { IsTrue result ↔ (numbers.now ≡ others.now) }
{
    numbers == others
}

// Whether the rows are the same.
#[tactic(auto, using(std::proofs::lemmas::Grind::common_steps, crate::proofs::SameLaws::rows_same))]
fn is_same_row(row: &Row, other: &Row) -> bool
    ensures { IsTrue result ↔ (row.now ≡ other.now) }
{
    row.kind == other.kind
        && row.constant == other.constant
        && row.k == other.k
        && are_same_numbers(row.coefs.as_slice(), other.coefs.as_slice())
}

// Whether the rows are the same, one by one.
fn are_same_rows(rows: &[Row], others: &[Row]) -> bool
    ensures { IsTrue result ↔ (rows.now ≡ others.now) }
{
    if rows.len() != others.len() {
        return false;
    }
    for i in 0..rows.len() {
        if !is_same_row(&rows[i], &others[i]) {
            return false;
        }
    }
    true
}

// Whether the pieces are the same.
#[tactic(auto, using(std::proofs::lemmas::Grind::common_steps, crate::proofs::SameLaws::pieces_same))]
fn is_same_piece(piece: &Piece, other: &Piece) -> bool
    ensures { IsTrue result ↔ (kept_piece piece.now ≡ kept_piece other.now) }
{
    let system = piece.system();
    let compared = other.system();
    piece.space().same(other.space())
        && system.definitions.same(&compared.definitions)
        && are_same_rows(system.rows.as_slice(), compared.rows.as_slice())
}

/// Whether the pieces are the same, one by one.
pub(crate) fn are_same_pieces(pieces: &[Piece], others: &[Piece]) -> bool
    ensures { IsTrue result ↔ (map kept_piece pieces.now ≡ map kept_piece others.now) }
{
    if pieces.len() != others.len() {
        return false;
    }
    for i in 0..pieces.len() {
        if !is_same_piece(&pieces[i], &others[i]) {
            return false;
        }
    }
    true
}
