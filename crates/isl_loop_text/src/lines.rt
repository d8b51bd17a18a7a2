//! Loops as text.

ghost use Rattle.std.specs.Prelude.{◌≡◌, ◌++◌, ◌∷◌, [], codes, map, unsigned_abs, IfOk, OnOk, string_bytes};
ghost use Rattle.std.specs.Fmt.{decimal};
ghost use Rattle.isl_space.specs.Form.{name_text};
ghost use Rattle.isl_row_text.specs.Joined.{each_after};
ghost use Rattle.isl_row_text.specs.RowText.{row_text};
ghost use Rattle.isl_loop_text.specs.ExprText.{expr_text};
ghost use Rattle.isl_loop_text.specs.LoopText.{variable, line, range_text, condition_text, if_text, call_text, loop_lines, loop_text};
ghost use Rattle.isl_loop_text.specs.Rest.{depth_of, lines_of, IsScope};

use crate::expr::{write_expr, write_exprs};
use isl_loop::{Expr, Loop};
use isl_piece::Row;
use isl_row_text::{check_length, free_name, param_names, write_row};
use isl_space::{Name, Params};
use std::alloc::{AllocError, Global};
use std::fmt::Write;

// The variable of a loop inside of so many others.
fn variable(alloc: Global, params: &Params, depth: usize) -> Result<Name, AllocError>
    ensures { IfOk result (λ name. name ≡ variable params.now depth) }
{
    let mut name = String::from_str(alloc, "c")?;
    write!(name, "{depth}")?;
    free_name(alloc, params, name.as_str())
}

// What the variable of a loop begins with, and up to where it goes.
fn write_range(
    out: &mut String,
    names: &[Name],
    variable: &Name,
    low: &Expr,
    high: &Expr,
) -> Result<(), AllocError>
    ensures { OnOk result (string_bytes out.new
        ≡ string_bytes out.old ++ range_text variable.now (expr_text names.now low.now) (expr_text names.now high.now)) }
{
    check_length(out.len())?;
    let variable = variable.as_str();
    write!(out, "for ({variable} = ")?;
    write_expr(out, names, low)?;
    write!(out, "; {variable} <= ")?;
    write_expr(out, names, high)?;
    write!(out, "; {variable} += ")
}

// The step of a loop, which ends its first line.
fn write_step(out: &mut String, step: i128) -> Result<(), AllocError>
    ensures { OnOk result (string_bytes out.new ≡ string_bytes out.old ++ decimal (unsigned_abs step) ++ codes ") {" ++ 10 ∷ []) }
{
    let step = step.unsigned_abs();
    write!(out, "{step}")?;
    out.push_str(") {\n")
}

// Rows, with `&&` before each.
#[tactic(auto, using(std::proofs::lemmas::Grind::common_steps, isl_row_text::proofs::JoinedLaws::each_steps))]
fn write_more_rows(out: &mut String, names: &[Name], rows: &[Row]) -> Result<(), AllocError>
    ensures { OnOk result (string_bytes out.new ≡ string_bytes out.old ++ each_after (codes " && ") (map (row_text names.now) rows.now)) }
{
    for row in rows {
        out.push_str(" && ")?;
        write_row(out, names, row)?;
    }
    Ok(())
}

// Rows that are all to hold.
fn write_condition(out: &mut String, names: &[Name], rows: &[Row]) -> Result<(), AllocError>
    ensures { OnOk result (string_bytes out.new ≡ string_bytes out.old ++ condition_text (map (row_text names.now) rows.now)) }
{
    match rows {
        [] => out.push_str("true"),
        [first, others @ ..] => {
            write_row(out, names, first)?;
            write_more_rows(out, names, others)
        }
    }
}

// The first line of what is done under rows.
fn write_if(out: &mut String, names: &[Name], rows: &[Row]) -> Result<(), AllocError>
    ensures { OnOk result (string_bytes out.new ≡ string_bytes out.old ++ if_text names.now rows.now ++ 10 ∷ []) }
{
    out.push_str("if (")?;
    write_condition(out, names, rows)?;
    out.push_str(") {\n")
}

fn write_name(out: &mut String, name: &Option<Name>) -> Result<(), AllocError>
    ensures { OnOk result (string_bytes out.new ≡ string_bytes out.old ++ name_text name.now) }
{
    match name {
        None => Ok(()),
        Some(name) => out.push_str(name.as_str()),
    }
}

// The line of a call.
fn write_call(
    out: &mut String,
    names: &[Name],
    name: &Option<Name>,
    args: &[Expr],
) -> Result<(), AllocError>
    ensures { OnOk result (string_bytes out.new ≡ string_bytes out.old ++ call_text names.now name.now args.now ++ 10 ∷ []) }
{
    check_length(out.len())?;
    write_name(out, name)?;
    out.push_str("(")?;
    write_exprs(out, names, args)?;
    out.push_str(");\n")
}

// The line that closes a body.
fn write_end(out: &mut String, margin: &str) -> Result<(), AllocError>
    ensures { OnOk result (string_bytes out.new ≡ string_bytes out.old ++ line margin.now (codes "}")) }
{
    out.push_str(margin)?;
    out.push_str("}\n")
}

// Writes a loop behind a margin. The names are those of the columns, and so they are again behind it.
#[cycle(lines)]
fn write_loop(
    alloc: Global,
    out: &mut String,
    params: &Params,
    names: &mut Vec<Name>,
    margin: &str,
    tree: &Loop,
) -> Result<(), AllocError>
    requires { IsScope params.now names.old.items }
    ensures text { OnOk result (string_bytes out.new
        ≡ string_bytes out.old ++ loop_lines params.now (depth_of params.now names.old.items) margin.now tree.now) }
    ensures names { OnOk result (names.new.items ≡ names.old.items) }
{
    match tree {
        Loop::Block(parts) => write_parts(alloc, out, params, names, margin, parts.as_slice()),
        Loop::For(low, high, step, body) => {
            let variable = variable(alloc, params, names.len() - params.len())?;
            out.push_str(margin)?;
            write_range(out, names.as_slice(), &variable, low, high)?;
            write_step(out, *step)?;
            names.push(variable)?;
            write_body(alloc, out, params, names, margin, body.get())?;
            names.pop();
            Ok(())
        }
        Loop::If(rows, body) => {
            out.push_str(margin)?;
            write_if(out, names.as_slice(), rows.as_slice())?;
            write_body(alloc, out, params, names, margin, body.get())
        }
        Loop::Call(name, args) => {
            out.push_str(margin)?;
            write_call(out, names.as_slice(), name, args.as_slice())
        }
    }
}

// A body behind a wider margin, and the line that closes it.
#[cycle(lines)]
fn write_body(
    alloc: Global,
    out: &mut String,
    params: &Params,
    names: &mut Vec<Name>,
    margin: &str,
    body: &Loop,
) -> Result<(), AllocError>
    requires { IsScope params.now names.old.items }
    ensures text { OnOk result (string_bytes out.new
        ≡ string_bytes out.old ++ loop_lines params.now (depth_of params.now names.old.items) (margin.now ++ codes "  ") body.now
        ++ line margin.now (codes "}")) }
    ensures names { OnOk result (names.new.items ≡ names.old.items) }
{
    let inner = format!(in alloc; "{margin}  ")?;
    write_loop(alloc, out, params, names, inner.as_str(), body)?;
    write_end(out, margin)
}

// One behind another.
#[cycle(lines)]
#[tactic(auto, using(std::proofs::lemmas::Grind::common_steps, crate::proofs::LineLaws::parts))]
fn write_parts(
    alloc: Global,
    out: &mut String,
    params: &Params,
    names: &mut Vec<Name>,
    margin: &str,
    parts: &[Loop],
) -> Result<(), AllocError>
    requires { IsScope params.now names.old.items }
    ensures text { OnOk result (string_bytes out.new
        ≡ string_bytes out.old ++ lines_of params.now (depth_of params.now names.old.items) margin.now parts.now) }
    ensures names { OnOk result (names.new.items ≡ names.old.items) }
{
    for part in parts {
        write_loop(alloc, out, params, names, margin, part)?;
    }
    Ok(())
}

/// The text of loops: a line for each call, and one before and one behind each body.
///
/// # Errors
///
/// Where memory ends, or the text is too long.
pub fn loop_text(alloc: Global, tree: &Loop, params: &Params) -> Result<String, AllocError>
    ensures { IfOk result (λ text. string_bytes text ≡ loop_text params.now tree.now) }
{
    let mut out = String::new(alloc);
    let mut names = param_names(alloc, params)?;
    write_loop(alloc, &mut out, params, &mut names, "", tree)?;
    Ok(out)
}
