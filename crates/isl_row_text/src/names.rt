//! The names of columns in printed text.

ghost use Rattle.std.specs.Prelude.{◌≡◌, ◌<◌, ◌^◌, ◌++◌, IfOk, OnOk};
ghost use Rattle.std.specs.Fmt.{decimal};
ghost use Rattle.isl_space.specs.Space.{space_form_of};
ghost use Rattle.isl_space.specs.SpaceForm.{IsNarrowSpace};
ghost use Rattle.isl_row_text.specs.Naming.{free_name, numbered, column_names};

use isl_space::{Name, Params, Space};
use std::alloc::{AllocError, Global};
use std::fmt::Write;

/// A name, with as many primes as make it no parameter.
///
/// # Errors
///
/// Where memory ends.
pub fn free_name(alloc: Global, params: &Params, name: &str) -> Result<Name, AllocError>
    ensures { IfOk result (λ free. free ≡ free_name params.now name.now) }
{
    let mut text = String::from_str(alloc, name)?;
    let mut free = Name::new(alloc, name)?;
    'primes: while params.position(&free).is_some() {
        text.push_str("'")?;
        free = Name::new(alloc, text.as_str())?;
    }
    Ok(free)
}

// A letter and a number, with as many primes as make it no parameter.
fn coordinate_name(
    alloc: Global,
    params: &Params,
    letter: &str,
    number: u32,
) -> Result<Name, AllocError>
    ensures { IfOk result (λ name. name ≡ free_name params.now (letter.now ++ decimal number)) }
{
    let mut text = String::from_str(alloc, letter)?;
    write!(text, "{number}")?;
    free_name(alloc, params, text.as_str())
}

// Puts the names of `count` coordinates, counted from 0, behind the others.
#[tactic(auto, using(std::proofs::lemmas::Grind::common_steps, crate::proofs::NamingLaws::steps))]
fn push_coordinates(
    alloc: Global,
    params: &Params,
    letter: &str,
    count: u32,
    names: &mut Vec<Name>,
) -> Result<(), AllocError>
    ensures { OnOk result (names.new.items ≡ names.old.items ++ numbered params.now letter.now 0 count) }
{
    for number in 0..count {
        names.push(coordinate_name(alloc, params, letter, number)?)?;
    }
    Ok(())
}

/// The names of the parameters.
///
/// # Errors
///
/// Where memory ends.
#[tactic(auto, using(std::proofs::lemmas::Grind::common_steps, crate::proofs::NamingLaws::steps))]
pub fn param_names(alloc: Global, params: &Params) -> Result<Vec<Name>, AllocError>
    ensures { IfOk result (λ names. names.items ≡ params.now) }
{
    let mut names = Vec::with_capacity(alloc, params.len())?;
    for at in 0..params.len() {
        names.push(params.name(at).copy()?)?;
    }
    Ok(names)
}

/// The names of the columns of a space: the parameters, and then the coordinates.
///
/// # Errors
///
/// Where memory ends.
pub fn column_names(alloc: Global, params: &Params, space: &Space) -> Result<Vec<Name>, AllocError>
    requires { IsNarrowSpace (space_form_of space.now) }
    ensures { IfOk result (λ names. names.items ≡ column_names params.now (space_form_of space.now)) }
{
    let mut names = param_names(alloc, params)?;
    match space {
        Space::Set(shape) => push_coordinates(alloc, params, "i", shape.width(), &mut names)?,
        Space::Map(from, to) => {
            push_coordinates(alloc, params, "i", from.width(), &mut names)?;
            push_coordinates(alloc, params, "o", to.width(), &mut names)?;
        }
    }
    Ok(names)
}
