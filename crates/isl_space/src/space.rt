//! The spaces of sets and of maps.

ghost use Rattle.std.specs.Prelude.{◌≡◌, ◌↔◌, ◌<◌, ◌^◌, string_bytes, IsTrue, IfOk, IfErr};
ghost use Rattle.isl_space.specs.Form.{IsNamed};
ghost use Rattle.isl_space.specs.SpaceForm.{coordinates_of, space_text_of, IsTooWideSpace, IsWellFormedSpace, set_of, map_of};
ghost use Rattle.isl_space.specs.declared.fault.SpaceFault.TheVariants.{TooWide};
ghost use Rattle.isl_space.specs.Shape.{form_of};
ghost use Rattle.isl_space.specs.Space.{space_form_of};

use crate::fault::SpaceFault;
use crate::shape::{Shape, are_too_wide};
use std::alloc::{AllocError, Global};
use std::rc::Rc;

/// Where elements lie: the one shape of a set's elements, or the two of a map's.
///
/// Spaces are compared by content. Contracts see a space as the `SpaceForm` that it has when the sharing of its parts is forgotten.
#[derive(Drop)]
pub enum Space {
    Set(Rc<Shape>),
    Map(Rc<Shape>, Rc<Shape>),
}

impl Space {
    /// The space of a set. It takes no memory, and the one fault is `TooWide`.
    pub fn set(shape: Rc<Shape>) -> Result<Space, SpaceFault>
        requires { IsNamed (form_of shape.value) }
        ensures made { IfOk result (λ space. space_form_of space ≡ set_of (form_of shape.value)) }
        ensures well_formed { IfOk result (λ space. IsWellFormedSpace (space_form_of space)) }
        ensures too_wide { IfErr result (λ fault. (fault ≡ TooWide) × IsTooWideSpace (set_of (form_of shape.value))) }
    {
        if shape.is_too_wide() {
            return Err(SpaceFault::TooWide);
        }
        Ok(Space::Set(shape))
    }

    /// The space of a map. It takes no memory, and the one fault is `TooWide`.
    pub fn map(from: Rc<Shape>, to: Rc<Shape>) -> Result<Space, SpaceFault>
        requires from { IsNamed (form_of from.value) }
        requires to { IsNamed (form_of to.value) }
        ensures made { IfOk result (λ space. space_form_of space ≡ map_of (form_of from.value) (form_of to.value)) }
        ensures well_formed { IfOk result (λ space. IsWellFormedSpace (space_form_of space)) }
        ensures too_wide { IfErr result (λ fault. (fault ≡ TooWide) × IsTooWideSpace (map_of (form_of from.value) (form_of to.value))) }
    {
        if are_too_wide(&from, &to) {
            return Err(SpaceFault::TooWide);
        }
        Ok(Space::Map(from, to))
    }

    /// The number of coordinates in all.
    pub fn width(&self) -> u32
        requires { coordinates_of (space_form_of self.now) < 2 ^ 32 }
        ensures { result ≡ coordinates_of (space_form_of self.now) }
    {
        match self {
            Space::Set(shape) => shape.width(),
            Space::Map(from, to) => from.width() + to.width(),
        }
    }

    /// Whether the two are equal: both of sets or both of maps, of the same shapes.
    pub fn same(&self, other: &Space) -> bool
        ensures { IsTrue result ↔ (space_form_of self.now ≡ space_form_of other.now) }
    {
        match (self, other) {
            (Space::Set(a), Space::Set(b)) => a.same(b),
            (Space::Map(a, b), Space::Map(c, d)) => a.same(c) && b.same(d),
            _ => false,
        }
    }

    /// The text by which spaces are put in order: that of its shape, or `S[2] -> [1]` for a map.
    pub fn text(&self, alloc: Global) -> Result<String, AllocError>
        ensures { IfOk result (λ text. string_bytes text ≡ space_text_of (space_form_of self.now)) }
    {
        let mut text = String::new(alloc);
        match self {
            Space::Set(shape) => shape.write_to(&mut text)?,
            Space::Map(from, to) => {
                from.write_to(&mut text)?;
                text.push_str(" -> ")?;
                to.write_to(&mut text)?;
            }
        }
        Ok(text)
    }

    /// The same space, with the same shapes in memory.
    pub fn copy(&self) -> Result<Space, AllocError>
        ensures { IfOk result (λ space. space_form_of space ≡ space_form_of self.now) }
    {
        match self {
            Space::Set(shape) => Ok(Space::Set(shape.clone()?)),
            Space::Map(from, to) => Ok(Space::Map(from.clone()?, to.clone()?)),
        }
    }
}
