//! The parameters that an expression declares.

ghost use Rattle.std.specs.Prelude.{◌≡◌, IfOk, OnOk};
ghost use Rattle.isl_kinds.specs.Typed as spec;
ghost use Rattle.isl_kinds.specs.Typed.{joined_names};

use crate::Scope;
use indexmap::IndexSet;
use isl_space::Name;
use isl_tree::statement::{Expr, Link, Postfix};
use std::alloc::{AllocError, Global};

// Puts those of the others that are new behind the names.
fn join(names: &mut IndexSet<Name>, others: &[Name]) -> Result<(), AllocError>
    ensures { OnOk result (names.new.keys ≡ joined_names names.old.keys others.now) }
{
    for other in others {
        names.insert_full(other.copy()?)?;
    }
    Ok(())
}

#[cycle(declared)]
#[tactic(auto, using(crate::proofs::DeclaredLaws::leaves))]
fn declare(expr: &Expr, scope: &Scope, names: &mut IndexSet<Name>) -> Result<(), AllocError>
    ensures { OnOk result (names.new.keys ≡ joined_names names.old.keys (spec.declared_of scope.now expr.now)) }
{
    match expr {
        Expr::Name(name) => match scope.get(name) {
            Some(typed) => join(names, typed.params()),
            None => Ok(()),
        },
        Expr::Literal(literal) => join(names, literal.params.as_slice()),
        Expr::Row(first, links) => {
            declare(first.get(), scope, names)?;
            declare_row(links.as_slice(), scope, names)
        }
        Expr::Prefix(_, operand) => declare(operand.get(), scope, names),
        Expr::Any(source, sink, schedule) => {
            declare(source.get(), scope, names)?;
            declare(sink.get(), scope, names)?;
            declare(schedule.get(), scope, names)
        }
        Expr::Last(source, sink, schedule) => {
            declare(source.get(), scope, names)?;
            declare(sink.get(), scope, names)?;
            declare(schedule.get(), scope, names)
        }
        Expr::Post(operand, postfixes) => {
            declare(operand.get(), scope, names)?;
            declare_post(postfixes.as_slice(), scope, names)
        }
    }
}

#[cycle(declared)]
fn declare_row(links: &[Link], scope: &Scope, names: &mut IndexSet<Name>) -> Result<(), AllocError>
    ensures { OnOk result (names.new.keys ≡ spec.declared_of_row scope.now names.old.keys links.now) }
{
    for link in links {
        declare(&link.operand, scope, names)?;
    }
    Ok(())
}

#[cycle(declared)]
fn declare_post(
    postfixes: &[Postfix],
    scope: &Scope,
    names: &mut IndexSet<Name>,
) -> Result<(), AllocError>
    ensures { OnOk result (names.new.keys ≡ spec.declared_of_post scope.now names.old.keys postfixes.now) }
{
    for postfix in postfixes {
        if let Postfix::Apply(argument) = postfix {
            declare(argument, scope, names)?;
        }
    }
    Ok(())
}

/// The parameters that an expression declares, in order.
#[tactic(auto, using(crate::proofs::DeclaredLaws::nothing_before))]
pub(crate) fn declared(
    alloc: Global,
    expr: &Expr,
    scope: &Scope,
) -> Result<IndexSet<Name>, AllocError>
    ensures { IfOk result (λ names. names.keys ≡ spec.declared_of scope.now expr.now) }
{
    let mut names = IndexSet::new(alloc);
    declare(expr, scope, &mut names)?;
    Ok(names)
}
