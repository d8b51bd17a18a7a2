//! Systems of pieces at the elements of formed spaces.

ghost use Rattle.std.specs.Prelude.{◌≤◌, IfOk};
ghost use Rattle.isl_meter.specs.Gauge.{Gauge};
ghost use Rattle.isl_space.specs.Limits.{most_coordinates};
ghost use Rattle.isl_space.specs.Space.{space_form_of};
ghost use Rattle.isl_space.specs.SpaceForm.{coordinates_of};
ghost use Rattle.isl_piece.specs.System.{IsSystemWithin};
ghost use Rattle.isl_union.specs.Piece.{IsPieceOf};
ghost use Rattle.isl_products.specs.Layout.{layout_view, IsPickOf};
ghost use Rattle.isl_products.specs.Made.{IsJoinedAt, IsPlacedAt};

use crate::layout::{Layout, Pick, picked_places};
use isl_piece::{Piece, System, meet};
use isl_space::{Params, Space};
use std::alloc::{AllocError, Global};

/// The system of the piece at the picked part of the elements of the space.
///
/// # Errors
///
/// Where memory ends.
pub(crate) fn placed(
    alloc: Global,
    params: &Params,
    space: &Space,
    pick: Pick,
    piece: &Piece,
) -> Result<System, AllocError>
    requires piece { IsPieceOf params.now piece.now }
    requires narrow { coordinates_of (space_form_of space.now) ≤ most_coordinates }
    requires pick { IsPickOf (space_form_of space.now) pick piece.now.space }
    ensures { (g : Gauge) → IsSystemWithin g piece.now.system
        → IfOk result (IsPlacedAt g params.now (space_form_of space.now) pick piece.now) }
{
    let places = picked_places(alloc, params.len() as u32, pick)?;
    let columns = params.len() + space.width() as usize;
    piece.system().placed(alloc, columns, places.as_slice())
}

/// The system that holds at the elements of the layout's space whose parts the two pieces have.
///
/// # Errors
///
/// Where memory ends.
pub(crate) fn joined(
    alloc: Global,
    params: &Params,
    layout: &Layout,
    a: &Piece,
    b: &Piece,
) -> Result<System, AllocError>
    requires own { IsPieceOf params.now a.now }
    requires other { IsPieceOf params.now b.now }
    requires within { (g : Gauge) × IsSystemWithin g a.now.system × IsSystemWithin g b.now.system }
    requires narrow { coordinates_of (space_form_of layout.now.space) ≤ most_coordinates }
    requires own_pick { IsPickOf (space_form_of layout.now.space) layout.now.own a.now.space }
    requires other_pick { IsPickOf (space_form_of layout.now.space) layout.now.other b.now.space }
    ensures { (g : Gauge) → IsSystemWithin g a.now.system → IsSystemWithin g b.now.system
        → IfOk result (IsJoinedAt g params.now (layout_view layout.now) a.now b.now) }
{
    let own = placed(alloc, params, &layout.space, layout.own, a)?;
    let other = placed(alloc, params, &layout.space, layout.other, b)?;
    meet(alloc, &own, &other)
}
