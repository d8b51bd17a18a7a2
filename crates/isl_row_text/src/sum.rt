//! Linear forms as text.

ghost use Rattle.std.specs.Prelude.{◌≡◌, ◌==◌, ◌&&◌, ◌++◌, [], IfOk, OnOk, string_bytes, if◌then◌else◌};

use isl_meter::Int;
use isl_piece::Row;
use isl_space::Name;
use std::alloc::AllocError;
use std::fmt::Write;

/// A side of a comparison.
#[derive(Clone, Copy, PartialEq, Eq)]
pub enum Side {
    Left,
    Right,
}

impl Side {
    ghost use Rattle.isl_row_text.specs.Sum.{share};

    // How much of a number stands on this side.
    fn share(self, number: Int) -> u128
        ensures { result ≡ share self number }
    {
        match (self, number.is_negative()) {
            (Side::Left, false) | (Side::Right, true) => number.get().unsigned_abs(),
            (Side::Left, true) | (Side::Right, false) => 0,
        }
    }
}

ghost use Rattle.isl_row_text.specs.Sum.{lead_text, term_text, constant_texts, rest_of_sum, side_text};

// What stands before a summand.
fn write_lead(out: &mut String, is_first: bool) -> Result<(), AllocError>
    ensures { OnOk result (string_bytes out.new ≡ string_bytes out.old ++ lead_text is_first) }
{
    if is_first {
        Ok(())
    } else {
        out.push_str(" + ")
    }
}

// A coefficient and the name that it stands before, but nothing for 0. Answers whether the next summand is the first.
fn write_term(
    out: &mut String,
    is_first: bool,
    coefficient: u128,
    name: &Name,
) -> Result<bool, AllocError>
    ensures text { OnOk result (string_bytes out.new ≡ string_bytes out.old ++ (if coefficient == 0 then [] else lead_text is_first ++ term_text (coefficient, name.now))) }
    ensures next { IfOk result (λ next. next ≡ (is_first && coefficient == 0)) }
{
    if coefficient == 0 {
        return Ok(is_first);
    }
    write_lead(out, is_first)?;
    if coefficient != 1 {
        write!(out, "{coefficient}")?;
    }
    out.push_str(name.as_str())?;
    Ok(false)
}

// The constant, which ends a sum.
#[tactic(auto, using(std::proofs::lemmas::Grind::common_steps, crate::proofs::SumLaws::constants))]
fn write_constant(out: &mut String, is_first: bool, constant: u128) -> Result<(), AllocError>
    ensures { OnOk result (string_bytes out.new ≡ string_bytes out.old ++ rest_of_sum is_first (constant_texts constant)) }
{
    if is_first {
        write!(out, "{constant}")
    } else if constant == 0 {
        Ok(())
    } else {
        out.push_str(" + ")?;
        write!(out, "{constant}")
    }
}

/// Writes the part of a row's form that stands on a side.
#[tactic(auto, using(std::proofs::lemmas::Grind::common_steps, crate::proofs::SumLaws::sum_steps))]
pub(crate) fn write_side(
    out: &mut String,
    side: Side,
    names: &[Name],
    row: &Row,
) -> Result<(), AllocError>
    ensures { OnOk result (string_bytes out.new ≡ string_bytes out.old ++ side_text side names.now row.now.coefs row.now.constant) }
{
    let coefs = row.coefs.as_slice();
    let mut is_first = true;
    for column in 0..coefs.len().min(names.len()) {
        let coefficient = side.share(coefs[column]);
        is_first = write_term(out, is_first, coefficient, &names[column])?;
    }
    write_constant(out, is_first, side.share(row.constant()))
}
