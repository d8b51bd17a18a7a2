//! Spaces, as they are written: `A[2]`, `A[2] -> [1]`, `[A[2] -> B[1]] -> [1]`.

ghost use Rattle.std.specs.Prelude.{All, IfOk, IfSome};
ghost use Rattle.isl_space.specs.Form.{IsNamed};
ghost use Rattle.isl_space.specs.Name.{IsLiteralName};
ghost use Rattle.isl_space.specs.Shape.{form_of};
ghost use Rattle.isl_space.specs.Space.{space_form_of};
ghost use Rattle.isl_space.specs.SpaceForm.{IsWellFormedSpace};

use isl_space::{Name, Shape, Space, SpaceFault};
use std::alloc::{AllocError, Global};
use std::rc::Rc;

// The name, where it is one of five.
fn name_of(alloc: Global, name: &str) -> Result<Option<Name>, AllocError>
    ensures { IfOk result (λ made. IfSome made IsLiteralName) }
{
    match name {
        "A" => Ok(Some(Name::new(alloc, "A")?)),
        "B" => Ok(Some(Name::new(alloc, "B")?)),
        "C" => Ok(Some(Name::new(alloc, "C")?)),
        "S" => Ok(Some(Name::new(alloc, "S")?)),
        "s" => Ok(Some(Name::new(alloc, "s")?)),
        _ => Ok(None),
    }
}

// The leaf of a word such as `A[1]`, `[[A[1]`, `[1]` or `[1]]]`.
fn leaf_of(alloc: Global, word: &str) -> Result<Rc<Shape>, SpaceFault>
    ensures { IfOk result (λ shape. IsNamed (form_of shape.value)) }
{
    let leaf = word.trim_matches(['[', ']']);
    let (name, width) = leaf.split_once('[').unwrap_or(("", leaf));
    Shape::leaf(
        alloc,
        name_of(alloc, name)?,
        width.parse::<u32>().unwrap_or(0),
    )
}

// Makes a pair of the last two shapes.
fn pair_last(alloc: Global, shapes: &mut Vec<Rc<Shape>>) -> Result<(), SpaceFault>
    requires { All (λ shape. IsNamed (form_of shape.value)) shapes.old.items }
    ensures { All (λ shape. IsNamed (form_of shape.value)) shapes.new.items }
{
    let right = shapes.pop();
    let left = shapes.pop();
    if let (Some(left), Some(right)) = (left, right) {
        shapes.push(Shape::pair(alloc, left, right)?)?;
    }
    Ok(())
}

// The shapes between the outermost arrows.
fn shapes_of(alloc: Global, written: &str) -> Result<Vec<Rc<Shape>>, SpaceFault>
    ensures { IfOk result (λ shapes. All (λ shape. IsNamed (form_of shape.value)) shapes.items) }
{
    let mut shapes = Vec::new(alloc);
    for word in written.split(" -> ") {
        shapes.push(leaf_of(alloc, word)?)?;
        for _pair in word.split(']').skip(2) {
            pair_last(alloc, &mut shapes)?;
        }
    }
    Ok(shapes)
}

// The space of a set for one shape, and of a map for two.
fn space_of_shapes(mut shapes: Vec<Rc<Shape>>) -> Result<Option<Space>, SpaceFault>
    requires { All (λ shape. IsNamed (form_of shape.value)) shapes.items }
    ensures { IfOk result (λ made. IfSome made (λ space. IsWellFormedSpace (space_form_of space))) }
{
    let last = shapes.pop();
    match (shapes.pop(), last) {
        (None, Some(shape)) => Ok(Some(Space::set(shape)?)),
        (Some(from), Some(to)) => Ok(Some(Space::map(from, to)?)),
        (_, None) => Ok(None),
    }
}

/// The space with this text, where there is one and its names are among the five.
///
/// # Errors
///
/// Where it is too wide, or memory ends.
pub(crate) fn space_of(alloc: Global, written: &str) -> Result<Option<Space>, SpaceFault>
    ensures { IfOk result (λ made. IfSome made (λ space. IsWellFormedSpace (space_form_of space))) }
{
    let Some(space) = space_of_shapes(shapes_of(alloc, written)?)? else {
        return Ok(None);
    };
    let text = space.text(alloc)?;
    if text.as_str() == written {
        Ok(Some(space))
    } else {
        Ok(None)
    }
}
