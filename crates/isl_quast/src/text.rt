//! Trees as text.

ghost use Rattle.std.specs.Prelude.{◌≡◌, ◌++◌, [], codes, map, IfOk, OnOk, string_bytes};
ghost use Rattle.isl_space.specs.Space.{space_form_of};
ghost use Rattle.isl_space.specs.SpaceForm.{IsNarrowSpace};
ghost use Rattle.isl_row_text.specs.Joined.{each_after, joined_by};
ghost use Rattle.isl_loop_text.specs.ExprText.{expr_text};
ghost use Rattle.isl_quast.specs.ForestText.{forest_text, front_names, head_text, leaf_text, line, space_lines, test_text, tree_lines};
ghost use Rattle.isl_quast.specs.Tuple.{params_text};

use crate::expr::write_expr;
use crate::tuple::{write_names, write_tuples};
use crate::{Forest, QExpr, Quast, SpaceTree};
use isl_row_text::{check_length, column_names, param_names};
use isl_space::{Name, Params, Space};
use std::alloc::{AllocError, Global};

// Expressions, with a comma before each.
#[tactic(auto, using(std::proofs::lemmas::Grind::common_steps, isl_row_text::proofs::JoinedLaws::each_steps))]
fn write_more_exprs(out: &mut String, names: &[Name], exprs: &[QExpr]) -> Result<(), AllocError>
    ensures { OnOk result (string_bytes out.new ≡ string_bytes out.old ++ each_after (codes ", ") (map (expr_text names.now) exprs.now)) }
{
    for expr in exprs {
        out.push_str(", ")?;
        write_expr(out, names, expr.as_expr())?;
    }
    Ok(())
}

// Expressions, with a comma between them.
fn write_exprs(out: &mut String, names: &[Name], exprs: &[QExpr]) -> Result<(), AllocError>
    ensures { OnOk result (string_bytes out.new ≡ string_bytes out.old ++ joined_by (codes ", ") (map (expr_text names.now) exprs.now)) }
{
    match exprs {
        [] => Ok(()),
        [first, others @ ..] => {
            write_expr(out, names, first.as_expr())?;
            write_more_exprs(out, names, others)
        }
    }
}

// A line behind a margin.
fn write_line(out: &mut String, margin: &str, text: &str) -> Result<(), AllocError>
    ensures { OnOk result (string_bytes out.new ≡ string_bytes out.old ++ line margin.now text.now) }
{
    check_length(out.len())?;
    out.push_str(margin)?;
    out.push_str(text)?;
    out.push_str("\n")
}

// The line of a leaf.
fn write_leaf(
    out: &mut String,
    names: &[Name],
    margin: &str,
    exprs: &[QExpr],
) -> Result<(), AllocError>
    ensures { OnOk result (string_bytes out.new ≡ string_bytes out.old ++ line margin.now (leaf_text names.now exprs.now)) }
{
    check_length(out.len())?;
    out.push_str(margin)?;
    out.push_str("(")?;
    write_exprs(out, names, exprs)?;
    out.push_str(")\n")
}

// The line of a test.
fn write_test(
    out: &mut String,
    names: &[Name],
    margin: &str,
    test: &QExpr,
) -> Result<(), AllocError>
    ensures { OnOk result (string_bytes out.new ≡ string_bytes out.old ++ line margin.now (test_text names.now test.now)) }
{
    check_length(out.len())?;
    out.push_str(margin)?;
    out.push_str("if (")?;
    write_expr(out, names, test.as_expr())?;
    out.push_str(" >= 0) {\n")
}

// The lines of a tree behind a margin.
fn write_tree(
    alloc: Global,
    out: &mut String,
    names: &[Name],
    margin: &str,
    tree: &Quast,
) -> Result<(), AllocError>
    ensures { OnOk result (string_bytes out.new ≡ string_bytes out.old ++ tree_lines names.now margin.now tree.now) }
{
    match tree {
        Quast::Missing => write_line(out, margin, "none"),
        Quast::Leaf(exprs) => write_leaf(out, names, margin, exprs.as_slice()),
        Quast::If { test, yes, no } => {
            let deeper = format!(in alloc; "{margin}  ")?;
            write_test(out, names, margin, test)?;
            write_tree(alloc, out, names, deeper.as_str(), yes.get())?;
            write_line(out, margin, "} else {")?;
            write_tree(alloc, out, names, deeper.as_str(), no.get())?;
            write_line(out, margin, "}")
        }
    }
}

// The declared names, where there are some.
fn write_params(out: &mut String, names: &[Name]) -> Result<(), AllocError>
    ensures { OnOk result (string_bytes out.new ≡ string_bytes out.old ++ params_text names.now) }
{
    if names.is_empty() {
        return Ok(());
    }
    out.push_str("[")?;
    write_names(out, names)?;
    out.push_str("] -> ")
}

// The line of a space: the printed value that has all its points.
fn write_head(
    alloc: Global,
    out: &mut String,
    params: &Params,
    space: &Space,
) -> Result<(), AllocError>
    requires { IsNarrowSpace (space_form_of space.now) }
    ensures { OnOk result (string_bytes out.new ≡ string_bytes out.old ++ line [] (head_text params.now (space_form_of space.now))) }
{
    let names = column_names(alloc, params, space)?;
    let declared = params.len();
    write_params(out, &names.as_slice()[..declared])?;
    out.push_str("{ ")?;
    write_tuples(out, space, &names.as_slice()[declared..])?;
    out.push_str(" }\n")
}

// The names of the columns of a space's tree.
fn fronts(alloc: Global, params: &Params, space: &Space) -> Result<Vec<Name>, AllocError>
    requires { IsNarrowSpace (space_form_of space.now) }
    ensures { IfOk result (λ names. names.items ≡ front_names params.now (space_form_of space.now)) }
{
    match space {
        Space::Set(_shape) => param_names(alloc, params),
        Space::Map(from, _to) => column_names(alloc, params, &Space::Set(from.clone()?)),
    }
}

// The lines of a space and of its tree.
fn write_space(
    alloc: Global,
    out: &mut String,
    params: &Params,
    tree: &SpaceTree,
) -> Result<(), AllocError>
    ensures { OnOk result (string_bytes out.new ≡ string_bytes out.old ++ space_lines params.now tree.now) }
{
    let space = tree.space();
    write_head(alloc, out, params, space)?;
    let names = fronts(alloc, params, space)?;
    write_tree(alloc, out, names.as_slice(), "  ", tree.tree())
}

// The lines of all spaces.
#[tactic(auto, using(std::proofs::lemmas::Grind::common_steps, isl_row_text::proofs::JoinedLaws::each_steps))]
fn write_spaces(
    alloc: Global,
    out: &mut String,
    params: &Params,
    trees: &[SpaceTree],
) -> Result<(), AllocError>
    ensures { OnOk result (string_bytes out.new ≡ string_bytes out.old ++ each_after [] (map (space_lines params.now) trees.now)) }
{
    for tree in trees {
        write_space(alloc, out, params, tree)?;
    }
    Ok(())
}

/// The text of trees: for each a line with its space, as a value is printed that has all points of it, and then the tree's lines, two
/// blanks in; or the line of the printed empty value. A line feed ends each line.
///
/// # Errors
///
/// Where memory ends, or the text is too long.
pub fn forest_text(alloc: Global, forest: &Forest) -> Result<String, AllocError>
    ensures { IfOk result (λ text. string_bytes text ≡ forest_text forest.now) }
{
    let mut out = String::new(alloc);
    let params = forest.params();
    let trees = forest.trees();
    if trees.is_empty() {
        let names = param_names(alloc, params)?;
        write_params(&mut out, names.as_slice())?;
        out.push_str("{ }\n")?;
        return Ok(out);
    }
    write_spaces(alloc, &mut out, params, trees)?;
    Ok(out)
}
