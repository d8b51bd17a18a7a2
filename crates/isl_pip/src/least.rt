//! Least images of a value, as trees.

ghost use Rattle.std.specs.Prelude.{◌≡◌, All, IfOk, map};
ghost use Rattle.isl_union.specs.Numbers.{IsWithinLimit};
ghost use Rattle.isl_relation.specs.Extremes.{HasFirstEverywhere};
ghost use Rattle.isl_relation.specs.Orders.{ComesBefore};
ghost use Rattle.isl_space.specs.Names.{IsParameterList};
ghost use Rattle.isl_space.specs.Space.{space_form_of};
ghost use Rattle.isl_space.specs.SpaceForm.{IsWellFormedSpace};
ghost use Rattle.isl_greatest.specs.Fault.{IsPipAnswer};
ghost use Rattle.isl_pip.specs.Least.{front_width, leaf_width, AreTreesWithin, IsForestOf};
ghost use Rattle.isl_pip.specs.Trees.{ArePlainPieces, IsTreeIn, ThereIsFirst};

use crate::behind::{chosen_of, put_behind};
use crate::greatest::greatest_in;
use crate::order::{Titled, ordered_spaces};
use crate::without::without;
use isl_by_space::systems_in;
use isl_greatest::PipFault;
use isl_meter::Meter;
use isl_piece::Piece;
use isl_quast::{Forest, Quast, SpaceTree};
use isl_space::{Params, Space};
use isl_union::Value;
use std::alloc::Global;

// How many columns stand in front of a tree: the parameters, and those that a map maps from.
fn front_of(params: &Params, space: &Space) -> usize
    requires { IsWellFormedSpace (space_form_of space.now) }
    ensures { result ≡ front_width params.now (space_form_of space.now) }
{
    match space {
        Space::Set(_) => params.len(),
        Space::Map(from, _) => params.len() + from.width() as usize,
    }
}

// How many stand behind them.
fn width_of(space: &Space) -> usize
    requires { IsWellFormedSpace (space_form_of space.now) }
    ensures { result ≡ leaf_width (space_form_of space.now) }
{
    match space {
        Space::Set(shape) => shape.width() as usize,
        Space::Map(_, to) => to.width() as usize,
    }
}

// The tree of the least images in a space.
fn tree_in(
    alloc: Global,
    params: &Params,
    space: &Space,
    pieces: &[Piece],
    meter: &mut Meter,
) -> Result<Quast, PipFault>
    requires names { IsParameterList params.now }
    requires formed { IsWellFormedSpace (space_form_of space.now) }
    requires pieces { ArePlainPieces meter.old params.now pieces.now }
    ensures tree { IfOk result (IsTreeIn meter.old params.now pieces.now (space_form_of space.now)) }
    ensures meter { IsPipAnswer (ThereIsFirst params.now pieces.now (space_form_of space.now)) meter.old meter.new result }
{
    let front = front_of(params, space);
    let width = width_of(space);
    let systems = systems_in(alloc, space, pieces)?;
    let made = put_behind(alloc, systems.as_slice(), front, width, meter)?;
    let chosen = chosen_of(width);
    let tree = greatest_in(alloc, made, front, chosen, chosen, meter)?;
    if width == 0 {
        let bare = without(alloc, tree, 0, 0)?;
        return Ok(bare);
    }
    Ok(tree)
}

// The trees of the spaces.
fn trees_in(
    alloc: Global,
    params: &Params,
    spaces: &[Titled],
    pieces: &[Piece],
    meter: &mut Meter,
) -> Result<Vec<SpaceTree>, PipFault>
    requires names { IsParameterList params.now }
    requires formed { All (λ t. IsWellFormedSpace (space_form_of t.space)) spaces.now }
    requires pieces { ArePlainPieces meter.old params.now pieces.now }
    ensures spaces { IfOk result (λ trees. map (λ t. t.space) trees.items ≡ map (λ t. space_form_of t.space) spaces.now) }
    ensures trees { IfOk result (λ trees. All (λ t. IsTreeIn meter.old params.now pieces.now t.space t.tree) trees.items) }
    ensures meter { IsPipAnswer (All (λ t. ThereIsFirst params.now pieces.now (space_form_of t.space)) spaces.now) meter.old meter.new result }
{
    let mut trees = Vec::new(alloc);
    for titled in spaces {
        let space = titled.space.copy()?;
        let tree = tree_in(alloc, params, &titled.space, pieces, meter)?;
        trees.push(SpaceTree::new(space, tree))?;
    }
    Ok(trees)
}

/// For each space in which the value has elements, ordered by the text of the space, the tree of its least images: at all numbers of the
/// parameters, and of a map of the coordinates that it maps from, it gives the numbers of the first element in the space, or of the first
/// image, and nothing where there is none. (Feautrier, parametric integer programming)
///
/// # Errors
///
/// As every call under a meter; and `NoMinimum` exactly where at some valuation a set has elements in a space, and no least one, or a map
/// images of an x.
pub fn pip(alloc: Global, a: &Value, meter: &mut Meter) -> Result<Forest, PipFault>
    requires { IsWithinLimit meter.old a.now }
    ensures forest { IfOk result (IsForestOf a.now) }
    ensures numbers { IfOk result (AreTreesWithin meter.old) }
    ensures there { IsPipAnswer (HasFirstEverywhere ComesBefore a.now) meter.old meter.new result }
{
    let flat = a.flat(alloc, meter)?;
    let params = flat.params().copy(alloc)?;
    let spaces = ordered_spaces(alloc, a.pieces())?;
    let trees = trees_in(alloc, &params, spaces.as_slice(), flat.pieces(), meter)?;
    Ok(Forest::new(params, trees))
}
