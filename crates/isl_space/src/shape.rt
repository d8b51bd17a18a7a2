//! Shapes of elements.

ghost use Rattle.std.specs.Prelude.{◌≡◌, ◌↔◌, ◌<◌, ◌^◌, ◌++◌, min, string_bytes, IsTrue, IfOk, IfSome, OnOk};
ghost use Rattle.isl_space.specs.Limits.{most_coordinates};
ghost use Rattle.isl_space.specs.Name.{IsLiteralName};
ghost use Rattle.isl_space.specs.Form.{width_of, leaves_of, text_of, IsNamed, IsTooWide, IsWellFormed, leaf, pair};
ghost use Rattle.isl_space.specs.Shape.{form_of};

use crate::fault::SpaceFault;
use crate::limits::{MAX_COORDINATES, MAX_LEAVES};
use crate::name::Name;
use std::alloc::{AllocError, Global};
use std::rc::Rc;

/// The shape of a tuple: a leaf of so many coordinates, or a pair of shapes.
///
/// Shapes are compared by content. Contracts see a shape as the `Form` that it has when the sharing of its parts is forgotten.
#[derive(Drop)]
pub enum Shape {
    Leaf { name: Option<Name>, width: u32 },
    Pair(Rc<Shape>, Rc<Shape>),
}

impl Shape {
    /// A leaf of `width` coordinates.
    pub fn leaf(alloc: Global, name: Option<Name>, width: u32) -> Result<Rc<Shape>, SpaceFault>
        requires { IfSome name IsLiteralName }
        ensures made { IfOk result (λ shape. form_of shape.value ≡ leaf name width) }
        ensures well_formed { IfOk result (λ shape. IsWellFormed (form_of shape.value)) }
        ensures too_wide { result ≡ Err SpaceFault.TooWide → most_coordinates < width }
    {
        if width > MAX_COORDINATES {
            return Err(SpaceFault::TooWide);
        }
        Ok(Rc::new(alloc, Shape::Leaf { name, width })?)
    }

    /// The pair of two shapes.
    pub fn pair(alloc: Global, left: Rc<Shape>, right: Rc<Shape>) -> Result<Rc<Shape>, SpaceFault>
        requires left { IsNamed (form_of left.value) }
        requires right { IsNamed (form_of right.value) }
        ensures made { IfOk result (λ shape. form_of shape.value ≡ pair (form_of left.value) (form_of right.value)) }
        ensures well_formed { IfOk result (λ shape. IsWellFormed (form_of shape.value)) }
        ensures too_wide { result ≡ Err SpaceFault.TooWide → IsTooWide (pair (form_of left.value) (form_of right.value)) }
    {
        if are_too_wide(&left, &right) {
            return Err(SpaceFault::TooWide);
        }
        Ok(Rc::new(alloc, Shape::Pair(left, right))?)
    }

    /// The number of coordinates.
    pub fn width(&self) -> u32
        requires { width_of (form_of self.now) < 2 ^ 32 }
        ensures { result ≡ width_of (form_of self.now) }
    {
        match self {
            Shape::Leaf { width, .. } => *width,
            Shape::Pair(left, right) => left.width() + right.width(),
        }
    }

    /// Whether the two are equal: in form, in the names of their leaves and in their widths.
    pub fn same(&self, other: &Shape) -> bool
        ensures { IsTrue result ↔ (form_of self.now ≡ form_of other.now) }
    {
        match (self, other) {
            (Shape::Leaf { name: a, width: m }, Shape::Leaf { name: b, width: n }) => {
                *m == *n && same_names(a, b)
            }
            (Shape::Pair(a, b), Shape::Pair(c, d)) => a.same(c) && b.same(d),
            _ => false,
        }
    }

    /// The text by which shapes are put in order: `S[2]` for a leaf, `[S[2] -> [1]]` for a pair.
    pub fn text(&self, alloc: Global) -> Result<String, AllocError>
        ensures { IfOk result (λ text. string_bytes text ≡ text_of (form_of self.now)) }
    {
        let mut text = String::new(alloc);
        self.write_to(&mut text)?;
        Ok(text)
    }

    // Puts the text behind what stands in `out`.
    pub(crate) fn write_to(&self, out: &mut String) -> Result<(), AllocError>
        ensures { OnOk result (string_bytes out.new ≡ string_bytes out.old ++ text_of (form_of self.now)) }
    {
        match self {
            Shape::Leaf { name, width } => {
                if let Some(name) = name {
                    out.push_str(name.as_str())?;
                }
                let width = *width;
                write!(out, "[{width}]")
            }
            Shape::Pair(left, right) => {
                out.push_str("[")?;
                left.write_to(out)?;
                out.push_str(" -> ")?;
                right.write_to(out)?;
                out.push_str("]")
            }
        }
    }

    // Whether it has more coordinates or leaves than a space may have.
    pub(crate) fn is_too_wide(&self) -> bool
        ensures { IsTrue result ↔ IsTooWide (form_of self.now) }
    {
        self.capped_width() > MAX_COORDINATES || self.capped_leaves() > MAX_LEAVES
    }

    // The number of coordinates, or `u32::MAX` where it is greater.
    fn capped_width(&self) -> u32
        ensures { result ≡ min (width_of (form_of self.now)) u32.MAX }
    {
        match self {
            Shape::Leaf { width, .. } => *width,
            Shape::Pair(left, right) => left.capped_width().saturating_add(right.capped_width()),
        }
    }

    // The number of leaves, or `u32::MAX` where it is greater.
    fn capped_leaves(&self) -> u32
        ensures { result ≡ min (leaves_of (form_of self.now)) u32.MAX }
    {
        match self {
            Shape::Leaf { .. } => 1,
            Shape::Pair(left, right) => left.capped_leaves().saturating_add(right.capped_leaves()),
        }
    }
}

// Whether the two together have more coordinates or leaves than a space may have.
pub(crate) fn are_too_wide(a: &Shape, b: &Shape) -> bool
    ensures { IsTrue result ↔ IsTooWide (pair (form_of a.now) (form_of b.now)) }
{
    a.capped_width().saturating_add(b.capped_width()) > MAX_COORDINATES
        || a.capped_leaves().saturating_add(b.capped_leaves()) > MAX_LEAVES
}

fn same_names(a: &Option<Name>, b: &Option<Name>) -> bool
    ensures { IsTrue result ↔ (a.now ≡ b.now) }
{
    match (a, b) {
        (None, None) => true,
        (Some(a), Some(b)) => a == b,
        _ => false,
    }
}
