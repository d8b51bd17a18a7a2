//! Expressions as text.

ghost use Rattle.std.specs.Prelude.{◌≡◌, ◌++◌, [], codes, map, OnOk, slice_index_or, string_bytes, unsigned_abs};
ghost use Rattle.std.specs.Fmt.{decimal};
ghost use Rattle.isl_row_text.specs.Joined.{each_after, joined_by};
ghost use Rattle.isl_loop_text.specs.ExprText.{sign_text, coefficient_text, constant_text, expr_text, atom_text};

use isl_loop::{Atom, Expr};
use isl_row_text::check_length;
use isl_space::Name;
use std::alloc::AllocError;
use std::fmt::Write;

// What stands before a summand.
fn write_sign(out: &mut String, is_first: bool, is_negative: bool) -> Result<(), AllocError>
    ensures { OnOk result (string_bytes out.new ≡ string_bytes out.old ++ sign_text is_first is_negative) }
{
    match (is_first, is_negative) {
        (true, false) => Ok(()),
        (true, true) => out.push_str("-"),
        (false, false) => out.push_str(" + "),
        (false, true) => out.push_str(" - "),
    }
}

// What stands before an atom.
fn write_coefficient(out: &mut String, is_first: bool, coef: i128) -> Result<(), AllocError>
    ensures { OnOk result (string_bytes out.new ≡ string_bytes out.old ++ coefficient_text is_first coef) }
{
    write_sign(out, is_first, coef < 0)?;
    let magnitude = coef.unsigned_abs();
    if magnitude == 1 {
        return Ok(());
    }
    write!(out, "{magnitude}*")
}

// The constant, which ends a sum.
fn write_constant(out: &mut String, is_first: bool, constant: i128) -> Result<(), AllocError>
    ensures { OnOk result (string_bytes out.new ≡ string_bytes out.old ++ constant_text is_first constant) }
{
    let magnitude = constant.unsigned_abs();
    if magnitude == 0 && !is_first {
        return Ok(());
    }
    write_sign(out, is_first, constant < 0)?;
    write!(out, "{magnitude}")
}

// The name of a column.
fn write_column(out: &mut String, names: &[Name], place: usize) -> Result<(), AllocError>
    ensures { OnOk result (string_bytes out.new ≡ string_bytes out.old ++ slice_index_or names.now place []) }
{
    check_length(out.len())?;
    match names.get(place) {
        Some(name) => out.push_str(name.as_str()),
        None => Ok(()),
    }
}

// What stands behind an expression that is divided.
fn write_divisor(out: &mut String, k: i128) -> Result<(), AllocError>
    ensures { OnOk result (string_bytes out.new ≡ string_bytes out.old ++ codes ", " ++ decimal (unsigned_abs k) ++ codes ")") }
{
    let divisor = k.unsigned_abs();
    write!(out, ", {divisor})")
}

/// Writes an expression, with the names of the columns.
#[cycle(expr)]
#[tactic(auto, using(std::proofs::lemmas::Grind::common_steps, crate::proofs::ExprLaws::sums))]
pub(crate) fn write_expr(out: &mut String, names: &[Name], expr: &Expr) -> Result<(), AllocError>
    ensures { OnOk result (string_bytes out.new ≡ string_bytes out.old ++ expr_text names.now expr.now) }
{
    let items = expr.items.as_slice();
    let mut is_first = true;
    for item in items {
        write_coefficient(out, is_first, item.coef)?;
        write_atom(out, names, &item.atom)?;
        is_first = false;
    }
    write_constant(out, is_first, expr.constant)
}

#[cycle(expr)]
fn write_atom(out: &mut String, names: &[Name], atom: &Atom) -> Result<(), AllocError>
    ensures { OnOk result (string_bytes out.new ≡ string_bytes out.old ++ atom_text names.now atom.now) }
{
    match atom {
        Atom::Column(place) => write_column(out, names, *place),
        Atom::Floor(expr, k) => {
            out.push_str("floord(")?;
            write_expr(out, names, expr.get())?;
            write_divisor(out, *k)
        }
        Atom::Ceil(expr, k) => {
            out.push_str("ceild(")?;
            write_expr(out, names, expr.get())?;
            write_divisor(out, *k)
        }
        Atom::Min(exprs) => {
            out.push_str("min(")?;
            write_exprs(out, names, exprs.as_slice())?;
            out.push_str(")")
        }
        Atom::Max(exprs) => {
            out.push_str("max(")?;
            write_exprs(out, names, exprs.as_slice())?;
            out.push_str(")")
        }
    }
}

/// Writes expressions, with a comma between them.
#[cycle(expr)]
pub(crate) fn write_exprs(
    out: &mut String,
    names: &[Name],
    exprs: &[Expr],
) -> Result<(), AllocError>
    ensures { OnOk result (string_bytes out.new ≡ string_bytes out.old ++ joined_by (codes ", ") (map (expr_text names.now) exprs.now)) }
{
    match exprs {
        [] => Ok(()),
        [first, others @ ..] => {
            write_expr(out, names, first)?;
            write_more_exprs(out, names, others)
        }
    }
}

// Expressions, with a comma before each.
#[cycle(expr)]
#[tactic(auto, using(std::proofs::lemmas::Grind::common_steps, isl_row_text::proofs::JoinedLaws::each_steps))]
fn write_more_exprs(out: &mut String, names: &[Name], exprs: &[Expr]) -> Result<(), AllocError>
    ensures { OnOk result (string_bytes out.new ≡ string_bytes out.old ++ each_after (codes ", ") (map (expr_text names.now) exprs.now)) }
{
    for expr in exprs {
        out.push_str(", ")?;
        write_expr(out, names, expr)?;
    }
    Ok(())
}
