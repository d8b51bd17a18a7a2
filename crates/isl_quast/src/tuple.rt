//! Tuples as text.

ghost use Rattle.std.specs.Prelude.{◌≡◌, ◌<◌, ◌≤◌, ◌^◌, ◌++◌, List, length, codes, OnOk, string_bytes};
ghost use Rattle.isl_space.specs.Form.{width_of, name_text};
ghost use Rattle.isl_space.specs.Shape.{form_of};
ghost use Rattle.isl_space.specs.SpaceForm.{coordinates_of};
ghost use Rattle.isl_space.specs.Space.{space_form_of};
ghost use Rattle.isl_row_text.specs.Joined.{joined_by, each_after};
ghost use Rattle.isl_quast.specs.Tuple.{tuple_text, tuples_text};

use isl_row_text::check_length;
use isl_space::{Name, Shape, Space};
use std::alloc::AllocError;

// Names, with a comma before each.
#[tactic(auto, using(std::proofs::lemmas::Grind::common_steps, isl_row_text::proofs::JoinedLaws::names_steps))]
fn write_more_names(out: &mut String, names: &[Name]) -> Result<(), AllocError>
    ensures { OnOk result (string_bytes out.new ≡ string_bytes out.old ++ each_after (codes ", ") names.now) }
{
    for name in names {
        out.push_str(", ")?;
        out.push_str(name.as_str())?;
    }
    Ok(())
}

/// Writes names, with a comma between them.
pub(crate) fn write_names(out: &mut String, names: &[Name]) -> Result<(), AllocError>
    ensures { OnOk result (string_bytes out.new ≡ string_bytes out.old ++ joined_by (codes ", ") names.now) }
{
    match names {
        [] => Ok(()),
        [first, others @ ..] => {
            out.push_str(first.as_str())?;
            write_more_names(out, others)
        }
    }
}

fn write_name(out: &mut String, name: &Option<Name>) -> Result<(), AllocError>
    ensures { OnOk result (string_bytes out.new ≡ string_bytes out.old ++ name_text name.now) }
{
    match name {
        None => Ok(()),
        Some(name) => out.push_str(name.as_str()),
    }
}

// A tuple of a shape, with the first of the names.
fn write_tuple(out: &mut String, shape: &Shape, names: &[Name]) -> Result<(), AllocError>
    requires enough { width_of (form_of shape.now) ≤ length names.now }
    requires narrow { width_of (form_of shape.now) < 2 ^ 32 }
    ensures { OnOk result (string_bytes out.new ≡ string_bytes out.old ++ tuple_text (form_of shape.now) names.now) }
{
    match shape {
        Shape::Leaf { name, width } => {
            let width = *width as usize;
            write_name(out, name)?;
            out.push_str("[")?;
            write_names(out, &names[..width])?;
            out.push_str("]")
        }
        Shape::Pair(left, right) => {
            let width = left.width() as usize;
            out.push_str("[")?;
            write_tuple(out, left, names)?;
            out.push_str(" -> ")?;
            write_tuple(out, right, &names[width..])?;
            out.push_str("]")
        }
    }
}

/// Writes the tuples of a space, with the first of the names, of which there are enough.
///
/// # Errors
///
/// Where memory ends, or what is written already is too long.
pub(crate) fn write_tuples(
    out: &mut String,
    space: &Space,
    names: &[Name],
) -> Result<(), AllocError>
    requires enough { coordinates_of (space_form_of space.now) ≤ length names.now }
    requires narrow { coordinates_of (space_form_of space.now) < 2 ^ 32 }
    ensures { OnOk result (string_bytes out.new ≡ string_bytes out.old ++ tuples_text (space_form_of space.now) names.now) }
{
    check_length(out.len())?;
    match space {
        Space::Set(shape) => write_tuple(out, shape, names),
        Space::Map(from, to) => {
            let width = from.width() as usize;
            write_tuple(out, from, names)?;
            out.push_str(" -> ")?;
            write_tuple(out, to, &names[width..])
        }
    }
}
