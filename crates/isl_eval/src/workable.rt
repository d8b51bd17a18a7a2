//! What a statement is refused for before any of it is worked out.

ghost use Rattle.std.specs.Prelude.{◌≡◌, MatchResult, not};
ghost use Rattle.std.specs.List.{list_any};
ghost use Rattle.isl_kinds.specs.Typed.{ScopeView};
ghost use Rattle.isl_flat.specs.Simple.{statement_declared};
ghost use Rattle.isl_eval.specs.Causes as spec;
ghost use Rattle.isl_eval.specs.Asked as asked;
ghost use Rattle.isl_eval.specs.Evaluation.{names_of, IsWorkable, IsWhyUnworkable};

use isl_kinds::{Scope, Typed, typed_statement};
use isl_refusal::Refusal;
use isl_space::Name;
use isl_tree::statement::{Expr, Prefix, Stmt};
use isl_tree::words::{Question, row_of};
use isl_words::Options;
use std::alloc::Global;

fn is_given(at: &[(Name, i128)], name: &Name) -> bool
    ensures { result ≡ spec.is_given at.now name.now }
{
    at.iter().any(|given| given.0 == *name)
}

// Whether some name is given no number.
fn lacks_number(names: &[Name], at: &[(Name, i128)]) -> bool
    ensures { result ≡ list_any (λ name. not (spec.is_given at.now name)) names.now }
{
    names.iter().any(|name| !is_given(at, name))
}

// Whether a word asks for elements, or for loops that are run.
fn is_at_numbers(word: Prefix, run: bool) -> bool
    ensures { result ≡ asked.is_at_numbers run (asked.question_of word) }
{
    match row_of(word).asks {
        Question::Elements => true,
        Question::Loops => run,
        Question::Trees | Question::Value => false,
    }
}

/// Whether what is shown is about certain numbers of the parameters: elements, or loops that are run.
#[tactic(auto, using(crate::proofs::AskedLaws::at_numbers))]
pub(crate) fn shows_at_numbers(expr: &Expr, run: bool) -> bool
    ensures { result ≡ asked.shows_at_numbers run expr.now }
{
    match expr {
        Expr::Prefix(word, _) => is_at_numbers(*word, run),
        Expr::Name(_)
        | Expr::Literal(_)
        | Expr::Row(..)
        | Expr::Any(..)
        | Expr::Last(..)
        | Expr::Post(..) => false,
    }
}

// Whether elements are to be listed, or loops to be run, of what declares a parameter that is given no number.
#[tactic(auto, using(crate::proofs::CheckLaws::parametric))]
fn is_parametric(stmt: &Stmt, declared: &[Name], options: &Options) -> bool
    ensures { (scope : ScopeView) → declared.now ≡ statement_declared scope stmt.now
        → result ≡ spec.is_parametric scope options.now stmt.now }
{
    match stmt {
        Stmt::Show(expr) => {
            shows_at_numbers(expr, options.run()) && lacks_number(declared, options.at())
        }
        Stmt::Empty | Stmt::Bind(..) | Stmt::Assume(_) => false,
    }
}

// The parameters that are declared, where there is a type.
fn declared_by(typed: &Option<Typed>) -> &[Name]
    ensures { result.now ≡ names_of typed.now }
{
    match typed {
        Some(typed) => typed.params(),
        None => &[],
    }
}

/// Looks for the causes that come of what is bound, and of the numbers that parameters are given. Where there is none it gives the type of
/// the statement, if it has one.
pub(crate) fn check(
    alloc: Global,
    stmt: &Stmt,
    scope: &Scope,
    options: &Options,
) -> Result<Option<Typed>, Refusal>
    ensures { MatchResult result (IsWorkable scope.now options.now stmt.now) (IsWhyUnworkable scope.now options.now stmt.now) }
{
    let typed = typed_statement(alloc, stmt, scope)?;
    let declared = declared_by(&typed);
    if is_parametric(stmt, declared, options) {
        return Err(Refusal::Parametric);
    }
    Ok(typed)
}
