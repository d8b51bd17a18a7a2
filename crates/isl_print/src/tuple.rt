//! Tuples as text.

ghost use Rattle.std.specs.Prelude.{◌≡◌, ◌<◌, ◌≤◌, ◌^◌, ◌++◌, ℕ, List, length, map, codes, OnOk, string_bytes};
ghost use Rattle.std.specs.Fmt.{signed_decimal};
ghost use Rattle.isl_space.specs.Form.{width_of, name_text};
ghost use Rattle.isl_space.specs.Shape.{form_of};
ghost use Rattle.isl_space.specs.SpaceForm.{coordinates_of};
ghost use Rattle.isl_space.specs.Space.{space_form_of};
ghost use Rattle.isl_row_text.specs.Joined.{joined_by, each_after};
ghost use Rattle.isl_print.specs.Tuple.{tuple_text, tuples_text};

use isl_row_text::check_length;
use isl_space::{Name, Shape, Space};
use itoa::Buffer;
use std::alloc::AllocError;

/// What stands at a place of a tuple: the name of a coordinate, or its number.
pub trait Entry {
    /// The bytes of its text.
    ghost text: { Self → List ℕ };

    /// Puts its text behind what is written.
    fn write(&self, out: &mut String) -> Result<(), AllocError>
        ensures { OnOk result (string_bytes out.new ≡ string_bytes out.old ++ text self.now) };
}

impl Entry for Name {
    ghost text = { λ name. name };

    fn write(&self, out: &mut String) -> Result<(), AllocError> {
        out.push_str(self.as_str())
    }
}

impl Entry for i128 {
    ghost text = { signed_decimal };

    fn write(&self, out: &mut String) -> Result<(), AllocError> {
        let mut digits = Buffer::new();
        out.push_str(digits.format(*self))
    }
}

// Entries, with a comma before each.
#[tactic(auto, using(std::proofs::lemmas::Grind::common_steps, isl_row_text::proofs::JoinedLaws::each_steps))]
fn write_more_entries<E: Entry>(out: &mut String, entries: &[E]) -> Result<(), AllocError>
    ensures { OnOk result (string_bytes out.new ≡ string_bytes out.old ++ each_after (codes ", ") (map E.text entries.now)) }
{
    for entry in entries {
        out.push_str(", ")?;
        entry.write(out)?;
    }
    Ok(())
}

/// Writes entries, with a comma between them.
pub(crate) fn write_entries<E: Entry>(out: &mut String, entries: &[E]) -> Result<(), AllocError>
    ensures { OnOk result (string_bytes out.new ≡ string_bytes out.old ++ joined_by (codes ", ") (map E.text entries.now)) }
{
    match entries {
        [] => Ok(()),
        [first, others @ ..] => {
            first.write(out)?;
            write_more_entries(out, others)
        }
    }
}

fn write_name(out: &mut String, name: &Option<Name>) -> Result<(), AllocError>
    ensures { OnOk result (string_bytes out.new ≡ string_bytes out.old ++ name_text name.now) }
{
    match name {
        None => Ok(()),
        Some(name) => out.push_str(name.as_str()),
    }
}

// A tuple of a shape, with the first of the entries.
#[tactic(auto, using(std::proofs::lemmas::Grind::common_steps, crate::proofs::TextLaws::tuple_steps))]
fn write_tuple<E: Entry>(out: &mut String, shape: &Shape, entries: &[E]) -> Result<(), AllocError>
    requires enough { width_of (form_of shape.now) ≤ length entries.now }
    requires narrow { width_of (form_of shape.now) < 2 ^ 32 }
    ensures { OnOk result
        (string_bytes out.new ≡ string_bytes out.old ++ tuple_text (form_of shape.now) (map E.text entries.now)) }
{
    match shape {
        Shape::Leaf { name, width } => {
            let width = *width as usize;
            write_name(out, name)?;
            out.push_str("[")?;
            write_entries(out, &entries[..width])?;
            out.push_str("]")
        }
        Shape::Pair(left, right) => {
            let width = left.width() as usize;
            out.push_str("[")?;
            write_tuple(out, left, entries)?;
            out.push_str(" -> ")?;
            write_tuple(out, right, &entries[width..])?;
            out.push_str("]")
        }
    }
}

/// Writes the tuples of a space, with the first of the entries, of which there are enough.
///
/// # Errors
///
/// Where memory ends, or what is written already is too long.
#[tactic(auto, using(std::proofs::lemmas::Grind::common_steps, crate::proofs::TextLaws::tuple_steps))]
pub fn write_tuples<E: Entry>(
    out: &mut String,
    space: &Space,
    entries: &[E],
) -> Result<(), AllocError>
    requires enough { coordinates_of (space_form_of space.now) ≤ length entries.now }
    requires narrow { coordinates_of (space_form_of space.now) < 2 ^ 32 }
    ensures { OnOk result
        (string_bytes out.new ≡ string_bytes out.old ++ tuples_text (space_form_of space.now) (map E.text entries.now)) }
{
    check_length(out.len())?;
    match space {
        Space::Set(shape) => write_tuple(out, shape, entries),
        Space::Map(from, to) => {
            let width = from.width() as usize;
            write_tuple(out, from, entries)?;
            out.push_str(" -> ")?;
            write_tuple(out, to, &entries[width..])
        }
    }
}
