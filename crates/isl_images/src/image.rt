//! What is made of the pieces of one value.

ghost use Rattle.std.specs.Prelude.{◌≡◌, ◌↔◌, [], All, IfOk};
ghost use Rattle.isl_meter.specs.Gauge.{IsMetered};
ghost use Rattle.isl_space.specs.Element.{Element};
ghost use Rattle.isl_space.specs.Shape.{form_of};
ghost use Rattle.isl_space.specs.SpaceForm.{map_of};
ghost use Rattle.isl_space.specs.Valuation.{Valuation};
ghost use Rattle.isl_piece.specs.System.{IsSystemWithin};
ghost use Rattle.isl_union.specs.Fault.{IsMeteredAnswer};
ghost use Rattle.isl_union.specs.KeptValue.{Has, IsKeptValue};
ghost use Rattle.isl_union.specs.Numbers.{AreWithinLimit, IsWithinLimit};
ghost use Rattle.isl_union.specs.Piece.{IsPieceOf};
ghost use Rattle.isl_relation.specs.Maps.{DeltasHas, DomainHas, RangeHas};
ghost use Rattle.isl_images.specs.Image.{ImageHas};
ghost use Rattle.isl_images.specs.Made.{elements_of, elements_of_all, ArePiecesOf};

use crate::differences::with_differences;
use crate::shadow::{Gap, pieces_without};
use isl_meter::{Cut, Meter};
use isl_piece::Piece;
use isl_space::{Params, Shape, Space};
use isl_union::{OpFault, Value, append};
use std::alloc::Global;
use std::rc::Rc;

/// What is made of the elements of maps.
#[derive(Clone, Copy)]
pub(crate) enum Image {
    /// The x of x → y.
    Domain,
    /// The y of x → y.
    Range,
    /// y - x of x → y in one shape.
    Deltas,
}

// The pieces of the domain of a piece from one shape to another.
fn piece_domain(
    alloc: Global,
    params: &Params,
    piece: &Piece,
    from: &Rc<Shape>,
    to: &Rc<Shape>,
    meter: &mut Meter,
) -> Result<Vec<Piece>, Cut>
    requires piece { IsPieceOf params.now piece.now }
    requires within { IsSystemWithin meter.old piece.now.system }
    requires space { piece.now.space ≡ map_of (form_of from.now.value) (form_of to.now.value) }
    ensures made { IfOk result (λ made. ArePiecesOf meter.old params.now ⊥
        (λ valuation. DomainHas (elements_of params.now piece.now valuation)) made.items) }
    ensures meter { IsMetered meter.old meter.new result }
{
    let space = Space::Set(from.clone()?);
    let gap = Gap {
        from: from.width() as usize,
        count: to.width() as usize,
    };
    pieces_without(alloc, params, &space, piece.system(), gap, meter)
}

// The pieces of the range of a piece from one shape to another.
fn piece_range(
    alloc: Global,
    params: &Params,
    piece: &Piece,
    from: &Rc<Shape>,
    to: &Rc<Shape>,
    meter: &mut Meter,
) -> Result<Vec<Piece>, Cut>
    requires piece { IsPieceOf params.now piece.now }
    requires within { IsSystemWithin meter.old piece.now.system }
    requires space { piece.now.space ≡ map_of (form_of from.now.value) (form_of to.now.value) }
    ensures made { IfOk result (λ made. ArePiecesOf meter.old params.now ⊥
        (λ valuation. RangeHas (elements_of params.now piece.now valuation)) made.items) }
    ensures meter { IsMetered meter.old meter.new result }
{
    let space = Space::Set(to.clone()?);
    let gap = Gap {
        from: 0,
        count: from.width() as usize,
    };
    pieces_without(alloc, params, &space, piece.system(), gap, meter)
}

// The pieces of the differences that a piece from one shape to another has; none where these differ.
#[tactic(auto, using(std::proofs::lemmas::Grind::common_steps, isl_meter::proofs::CutLemmas::charges))]
fn piece_deltas(
    alloc: Global,
    params: &Params,
    piece: &Piece,
    from: &Rc<Shape>,
    to: &Rc<Shape>,
    meter: &mut Meter,
) -> Result<Vec<Piece>, Cut>
    requires piece { IsPieceOf params.now piece.now }
    requires within { IsSystemWithin meter.old piece.now.system }
    requires space { piece.now.space ≡ map_of (form_of from.now.value) (form_of to.now.value) }
    ensures made { IfOk result (λ made. ArePiecesOf meter.old params.now ⊥
        (λ valuation. DeltasHas (elements_of params.now piece.now valuation)) made.items) }
    ensures meter { IsMetered meter.old meter.new result }
{
    if !from.same(to) {
        return Ok(Vec::new(alloc));
    }
    // For what a meter keeps: it has at least 8 bits.
    let _limit = meter.limit();
    let width = from.width() as usize;
    let moved = with_differences(alloc, piece.system(), params.len(), width)?;
    let space = Space::Set(from.clone()?);
    let gap = Gap {
        from: width,
        count: 2 * width,
    };
    pieces_without(alloc, params, &space, &moved, gap, meter)
}

// The pieces of the image of a piece; none of a set.
fn piece_image(
    alloc: Global,
    params: &Params,
    image: Image,
    piece: &Piece,
    meter: &mut Meter,
) -> Result<Vec<Piece>, Cut>
    requires piece { IsPieceOf params.now piece.now }
    requires within { IsSystemWithin meter.old piece.now.system }
    ensures made { IfOk result (λ made. ArePiecesOf meter.old params.now ⊥
        (λ valuation. ImageHas image (elements_of params.now piece.now valuation)) made.items) }
    ensures meter { IsMetered meter.old meter.new result }
{
    let Space::Map(from, to) = piece.space() else {
        return Ok(Vec::new(alloc));
    };
    match image {
        Image::Domain => piece_domain(alloc, params, piece, from, to, meter),
        Image::Range => piece_range(alloc, params, piece, from, to, meter),
        Image::Deltas => piece_deltas(alloc, params, piece, from, to, meter),
    }
}

// The pieces of the images of pieces.
#[tactic(auto, using(std::proofs::lemmas::Grind::common_steps, isl_meter::proofs::CutLemmas::charges))]
fn piece_images(
    alloc: Global,
    params: &Params,
    image: Image,
    pieces: &[Piece],
    meter: &mut Meter,
) -> Result<Vec<Piece>, Cut>
    requires pieces { All (IsPieceOf params.now) pieces.now }
    requires within { AreWithinLimit meter.old pieces.now }
    ensures made { IfOk result (λ made. ArePiecesOf meter.old params.now ⊥
        (λ valuation. ImageHas image (elements_of_all params.now pieces.now valuation)) made.items) }
    ensures meter { IsMetered meter.old meter.new result }
{
    let mut made = Vec::new(alloc);
    for piece in pieces {
        append(&mut made, piece_image(alloc, params, image, piece, meter)?)?;
    }
    Ok(made)
}

/// The image of a value of maps, over the same parameters.
pub(crate) fn image_of(
    alloc: Global,
    image: Image,
    a: &Value,
    meter: &mut Meter,
) -> Result<Value, OpFault>
    requires { IsWithinLimit meter.old a.now }

    // The value, and what it has.
    ensures kept { IfOk result IsKeptValue }
    ensures params { IfOk result (λ value. value.params ≡ a.now.params) }
    ensures elements { (valuation : Valuation) (element : Element)
        → IfOk result (λ value. Has value valuation element ↔ ImageHas image (Has a.now valuation) element) }

    // How it is written, and what that cost.
    ensures numbers { IfOk result (IsWithinLimit meter.old) }
    ensures meter { IsMeteredAnswer meter.old meter.new result }
{
    let params = a.params().copy(alloc)?;
    let made = piece_images(alloc, &params, image, a.pieces(), meter)?;
    Ok(Value::from_normal(params, made))
}
