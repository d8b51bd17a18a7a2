//! The order of pieces in printed text.

ghost use Rattle.std.specs.Prelude.{◌≡◌, IfOk, map, string_bytes};
ghost use Rattle.isl_space.specs.SpaceForm.{space_text_of};
ghost use Rattle.isl_union.specs.Piece.{kept_piece};
ghost use Rattle.isl_row_text.specs.Ordered.{in_order};
ghost use Rattle.isl_row_text.specs.RowOrder.{row_before};
ghost use Rattle.isl_piece.specs.Piece.{with_rows};
ghost use Rattle.isl_print.specs.OrderedValue.{ordered_view, view_before};
ghost use Rattle.isl_print.specs.PieceOrder.{piece_cmp, piece_before};

use isl_piece::{Piece, Rows, System};
use isl_row_text::{check_length, ordered_rows};
use std::alloc::{AllocError, Global};
use std::cmp::Ordering;

/// A piece, beside the text of its space.
#[derive(Drop)]
pub(crate) struct Titled<'a> {
    title: String,
    pub(crate) piece: &'a Piece,
    ghost is_title: { string_bytes title ≡ space_text_of piece.now.space },
}

fn compare_titled(a: &Titled, b: &Titled) -> Ordering
    ensures { result ≡ piece_cmp (kept_piece a.now.piece.now) (kept_piece b.now.piece.now) }
{
    a.title.cmp(&b.title)
}

/// The pieces in order.
pub(crate) fn ordered_pieces<'a>(
    alloc: Global,
    pieces: &'a [Piece],
) -> Result<Vec<Titled<'a>>, AllocError>
    ensures views { IfOk result (λ ordered. map (λ titled. titled.piece.now) ordered.items ≡ in_order view_before pieces.now) }
    ensures kept { IfOk result
        (λ ordered. map (λ titled. kept_piece titled.piece.now) ordered.items ≡ in_order piece_before (map kept_piece pieces.now)) }
{
    let mut ordered = Vec::with_capacity(alloc, pieces.len())?;
    let mut bytes = 0usize;
    for piece in pieces {
        let title = piece.space().text(alloc)?;
        bytes = bytes.saturating_add(title.len());
        check_length(bytes)?;
        ordered.push(Titled { title, piece })?;
    }
    ordered.sort_by(|a, b| compare_titled(a, b))?;
    Ok(ordered)
}

// The piece with its rows in order.
fn with_ordered_rows(alloc: Global, piece: &Piece) -> Result<Piece, AllocError>
    ensures { IfOk result (λ made. made ≡ with_rows piece.now (in_order row_before piece.now.system.rows)) }
{
    let system = piece.system();
    let ordered = ordered_rows(alloc, system.rows.as_slice())?;
    let mut rows = Rows::with_capacity(alloc, ordered.len())?;
    for row in ordered.as_slice() {
        rows.push(row.copy(alloc)?)?;
    }
    let definitions = system.definitions.copy(alloc)?;
    let made = System::over(system.columns, definitions, rows);
    Piece::new(alloc, piece.space().copy()?, made)
}

/// The pieces in the order in which they are printed, each with its rows in the order in which these are.
///
/// # Errors
///
/// Where memory ends, or the texts of the spaces are too long.
pub fn in_printed_order(alloc: Global, pieces: &[Piece]) -> Result<Vec<Piece>, AllocError>
    ensures { IfOk result (λ made. made.items ≡ map ordered_view (in_order view_before pieces.now)) }
{
    let ordered = ordered_pieces(alloc, pieces)?;
    let mut made = Vec::with_capacity(alloc, ordered.len())?;
    for titled in ordered.as_slice() {
        made.push(with_ordered_rows(alloc, titled.piece)?)?;
    }
    Ok(made)
}
