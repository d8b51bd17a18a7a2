//! Rows as text.

ghost use Rattle.std.specs.Prelude.{◌≡◌, ◌++◌, OnOk, string_bytes};
ghost use Rattle.isl_row_text.specs.RowText.{relation_text, remainder_text, row_text};

use crate::length::check_length;
use crate::sum::{Side, write_side};
use isl_piece::{Row, RowKind};
use isl_space::Name;
use std::alloc::AllocError;
use std::fmt::Write;

// A form that is divided, in brackets, and its modulus.
fn write_remainder(out: &mut String, names: &[Name], row: &Row) -> Result<(), AllocError>
    ensures { OnOk result (string_bytes out.new ≡ string_bytes out.old ++ remainder_text names.now row.now) }
{
    out.push_str("(")?;
    write_side(out, Side::Left, names, row)?;
    let modulus = row.k.unsigned_abs();
    write!(out, ") mod {modulus}")
}

// What a row says of the two sides of its form.
fn write_relation(
    out: &mut String,
    relation: &str,
    names: &[Name],
    row: &Row,
) -> Result<(), AllocError>
    ensures { OnOk result (string_bytes out.new ≡ string_bytes out.old ++ relation_text relation.now names.now row.now) }
{
    write_side(out, Side::Left, names, row)?;
    out.push_str(relation)?;
    write_side(out, Side::Right, names, row)
}

/// Writes a row, with the names of its columns.
///
/// # Errors
///
/// Where memory ends, or what is written already is too long.
pub fn write_row(out: &mut String, names: &[Name], row: &Row) -> Result<(), AllocError>
    ensures { OnOk result (string_bytes out.new ≡ string_bytes out.old ++ row_text names.now row.now) }
{
    check_length(out.len())?;
    match row.kind {
        RowKind::Zero => write_relation(out, " = ", names, row),
        RowKind::AtLeast => write_relation(out, " >= ", names, row),
        RowKind::Divides => {
            write_remainder(out, names, row)?;
            out.push_str(" = 0")
        }
        RowKind::NotDivides => {
            write_remainder(out, names, row)?;
            out.push_str(" != 0")
        }
    }
}
