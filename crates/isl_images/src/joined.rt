//! What maps make of sets, and of maps.

ghost use Rattle.std.specs.Prelude.{◌≡◌, ◌↔◌, All, Any, IfOk, IsTrue};
ghost use Rattle.isl_space.specs.Element.{Element};
ghost use Rattle.isl_space.specs.Names.{joined};
ghost use Rattle.isl_space.specs.Space.{space_form_of};
ghost use Rattle.isl_space.specs.SpaceForm.{IsWellFormedSpace};
ghost use Rattle.isl_space.specs.Valuation.{Valuation};
ghost use Rattle.isl_union.specs.KeptValue.{Has, IsKeptValue};
ghost use Rattle.isl_union.specs.Numbers.{IsWithinLimit};
ghost use Rattle.isl_relation.specs.Formed.{FormsJoin};
ghost use Rattle.isl_relation.specs.Maps.{ApplyHas, JoinHas};
ghost use Rattle.isl_relation.specs.Together.{IsFormedFrom, IsWorkedFrom, are_linked, is_domain, pairs_together};
ghost use Rattle.isl_relation.specs.Wide.{PairsTooWide};
ghost use Rattle.isl_images.specs.Pairing.{IsWideJoin};

use crate::pairing::{Pairing, all_pairs, near};
use isl_index::ShapeIndex;
use isl_meter::Meter;
use isl_piece::Piece;
use isl_space::Space;
use isl_union::{OpFault, Value, aligned_pair};
use std::alloc::{AllocError, Global};

// Whether two maps meet in one shape, and the space from the first shape of the one to the last of the other is too wide.
fn is_wide_join(first: &Space, second: &Space) -> Result<bool, AllocError>
    requires first { IsWellFormedSpace (space_form_of first.now) }
    requires second { IsWellFormedSpace (space_form_of second.now) }
    ensures { IfOk result (λ wide. IsTrue wide ↔ IsWideJoin (space_form_of first.now) (space_form_of second.now)) }
{
    let (Space::Map(from, middle), Space::Map(other, to)) = (first, second) else {
        return Ok(false);
    };
    if !middle.same(other) {
        return Ok(false);
    }
    Ok(Space::map(from.clone()?, to.clone()?).is_err())
}

// Whether the space and that of some of the others form one that is too wide.
fn is_wide_among(space: &Space, others: &[Piece]) -> Result<bool, AllocError>
    requires space { IsWellFormedSpace (space_form_of space.now) }
    requires others { All (λ other. IsWellFormedSpace other.space) others.now }
    ensures { IfOk result (λ wide. IsTrue wide ↔ Any (λ other. IsWideJoin (space_form_of space.now) other.space) others.now) }
{
    for other in others {
        if is_wide_join(space, other.space())? {
            return Ok(true);
        }
    }
    Ok(false)
}

// Whether a space that the piece and some of the others form is too wide.
fn has_wide_join(alloc: Global, piece: &Piece, others: &ShapeIndex) -> Result<bool, AllocError>
    requires piece { IsWellFormedSpace piece.now.space }
    requires others { All (λ other. IsWellFormedSpace other.space) others.now }
    ensures { IfOk result (λ wide. IsTrue wide ↔ Any (λ other. IsWideJoin piece.now.space other.space) others.now) }
{
    let near = near(alloc, Pairing::Join, piece.space(), others)?;
    is_wide_among(piece.space(), near)
}

// Whether a space that some of the pieces and some of the others form is too wide.
fn have_wide_join(alloc: Global, pieces: &[Piece], others: &ShapeIndex) -> Result<bool, AllocError>
    requires pieces { All (λ piece. IsWellFormedSpace piece.space) pieces.now }
    requires others { All (λ other. IsWellFormedSpace other.space) others.now }
    ensures { IfOk result (λ wide. IsTrue wide
        ↔ Any (λ piece. Any (λ other. IsWideJoin piece.space other.space) others.now) pieces.now) }
{
    for piece in pieces {
        if has_wide_join(alloc, piece, others)? {
            return Ok(true);
        }
    }
    Ok(false)
}

/// The y that the value `a` of maps maps some x of the value `b` of sets to, over the joined parameters. Pieces of `a` that are sets,
/// and pieces of `b` that are maps, give none. Each pair of a map and of a set of the shape that it maps from uses a unit. (isl
/// manual, relation operations)
///
/// # Errors
///
/// As every call under a meter; and `TooWide` exactly where the two together declare more than 16 parameters, unless memory ends:
/// no unit is used then.
pub fn apply(alloc: Global, a: &Value, b: &Value, meter: &mut Meter) -> Result<Value, OpFault>
    requires maps { IsWithinLimit meter.old a.now }
    requires sets { IsWithinLimit meter.old b.now }

    // The value, and what it has.
    ensures kept { IfOk result IsKeptValue }
    ensures params { IfOk result (λ value. value.params ≡ joined a.now.params b.now.params) }
    ensures elements { (valuation : Valuation) (element : Element)
        → IfOk result (λ value. Has value valuation element ↔ ApplyHas (Has a.now valuation) (Has b.now valuation) element) }

    // How it is written, and what that cost.
    ensures numbers { IfOk result (IsWithinLimit meter.old) }
    ensures units { IsWorkedFrom (joined a.now.params b.now.params) (pairs_together is_domain a.now b.now)
        meter.old meter.new result }
{
    let pair = aligned_pair(alloc, a, b, meter)?;
    let others = ShapeIndex::new(alloc, pair.others)?;
    let own = pair.own.as_slice();
    let made = all_pairs(alloc, &pair.params, Pairing::Apply, own, &others, meter)?;
    Ok(Value::from_normal(pair.params, made))
}

/// From x to z, where the value `a` of maps maps x to some y, and the value `b` of maps that y to z, over the joined parameters.
/// Pieces that are sets give none. Each pair of maps that meet in one shape uses a unit. (isl manual, relation operations)
///
/// # Errors
///
/// As every call under a meter; and `TooWide` exactly where the two together declare more than 16 parameters, or two of their maps
/// meet in one shape and that from the first x to the last z has more coordinates or leaves than a space may have, unless memory
/// ends: no unit is used then.
pub fn join(alloc: Global, a: &Value, b: &Value, meter: &mut Meter) -> Result<Value, OpFault>
    requires first { IsWithinLimit meter.old a.now }
    requires second { IsWithinLimit meter.old b.now }

    // The value, and what it has.
    ensures kept { IfOk result IsKeptValue }
    ensures params { IfOk result (λ value. value.params ≡ joined a.now.params b.now.params) }
    ensures elements { (valuation : Valuation) (element : Element)
        → IfOk result (λ value. Has value valuation element ↔ JoinHas (Has a.now valuation) (Has b.now valuation) element) }

    // How it is written, and what that cost.
    ensures numbers { IfOk result (IsWithinLimit meter.old) }
    ensures units { IsFormedFrom (joined a.now.params b.now.params) (PairsTooWide FormsJoin a.now b.now)
        (pairs_together are_linked a.now b.now) meter.old meter.new result }
{
    let pair = aligned_pair(alloc, a, b, meter)?;
    let others = ShapeIndex::new(alloc, pair.others)?;
    let own = pair.own.as_slice();
    if have_wide_join(alloc, own, &others)? {
        return Err(OpFault::TooWide);
    }
    let made = all_pairs(alloc, &pair.params, Pairing::Join, own, &others, meter)?;
    Ok(Value::from_normal(pair.params, made))
}
