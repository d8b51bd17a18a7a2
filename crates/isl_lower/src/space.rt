//! The spaces of tuples.

ghost use Rattle.std.specs.Prelude.{◌≡◌, IfOk, MatchResult, length};
ghost use Rattle.isl_meter.specs.declared.Cut.TheVariants.{NoMemory};
ghost use Rattle.isl_space.specs.Form.{leaf, pair, IsWellFormed};
ghost use Rattle.isl_space.specs.Shape.{form_of};
ghost use Rattle.isl_space.specs.Space.{space_form_of};
ghost use Rattle.isl_space.specs.SpaceForm.{IsWellFormedSpace};
ghost use Rattle.isl_tree.specs.Literal.{form_of_tuple, space_of_piece};

use isl_meter::Cut;
use isl_space::{Name, Shape, Space, SpaceFault};
use isl_tree::tree::{Entry, PieceTree, Tuple};
use std::alloc::{AllocError, Global};
use std::rc::Rc;

fn copied_name(name: &Option<Name>) -> Result<Option<Name>, AllocError>
    ensures { IfOk result (λ copy. copy ≡ name.now) }
{
    match name {
        Some(name) => Ok(Some(name.copy()?)),
        None => Ok(None),
    }
}

fn leaf_of(alloc: Global, name: &Option<Name>, entries: &[Entry]) -> Result<Rc<Shape>, Cut>
    requires { IsWellFormed (leaf name.now (length entries.now)) }
    ensures { MatchResult result (λ shape. form_of shape.value ≡ leaf name.now (length entries.now)) (λ cut. cut ≡ NoMemory) }
{
    match Shape::leaf(alloc, copied_name(name)?, entries.len() as u32) {
        Ok(shape) => Ok(shape),
        Err(SpaceFault::NoMemory) => Err(Cut::NoMemory),
        Err(SpaceFault::TooWide) => unreachable!(),
    }
}

fn pair_of(alloc: Global, left: Rc<Shape>, right: Rc<Shape>) -> Result<Rc<Shape>, Cut>
    requires { IsWellFormed (pair (form_of left.value) (form_of right.value)) }
    ensures { MatchResult result
        (λ shape. form_of shape.value ≡ pair (form_of left.value) (form_of right.value)) (λ cut. cut ≡ NoMemory) }
{
    match Shape::pair(alloc, left, right) {
        Ok(shape) => Ok(shape),
        Err(SpaceFault::NoMemory) => Err(Cut::NoMemory),
        Err(SpaceFault::TooWide) => unreachable!(),
    }
}

// The shape of a tuple.
#[tactic(auto, using(std::proofs::lemmas::Grind::common_steps, crate::proofs::SpaceLaws::shapes))]
fn shape_of(alloc: Global, tuple: &Tuple) -> Result<Rc<Shape>, Cut>
    requires { IsWellFormed (form_of_tuple tuple.now) }
    ensures { MatchResult result (λ shape. form_of shape.value ≡ form_of_tuple tuple.now) (λ cut. cut ≡ NoMemory) }
{
    match tuple {
        Tuple::Leaf { name, entries } => leaf_of(alloc, name, entries.as_slice()),
        Tuple::Pair(left, right) => {
            let left = left.get();
            let right = right.get();
            let first = shape_of(alloc, left)?;
            let second = shape_of(alloc, right)?;
            let shape = pair_of(alloc, first, second)?;
            Ok(shape)
        }
    }
}

/// The space of a piece.
///
/// # Errors
///
/// `NoMemory` where memory ends.
#[tactic(auto, using(std::proofs::lemmas::Grind::common_steps, crate::proofs::SpaceLaws::spaces))]
pub fn space_of(alloc: Global, piece: &PieceTree) -> Result<Space, Cut>
    requires { IsWellFormedSpace (space_of_piece piece.now) }
    ensures { MatchResult result (λ space. space_form_of space ≡ space_of_piece piece.now) (λ cut. cut ≡ NoMemory) }
{
    let first = shape_of(alloc, &piece.first)?;
    let made = match &piece.second {
        None => Space::set(first),
        Some(second) => {
            let second = shape_of(alloc, second)?;
            Space::map(first, second)
        }
    };
    match made {
        Ok(space) => Ok(space),
        Err(_) => unreachable!(),
    }
}
