//! One walk of an expression, with a test of each of its parts.

ghost use Rattle.std.specs.Prelude.{◌≡◌, Bool};
ghost use Rattle.std.specs.List.{list_any};
ghost use Rattle.isl_kinds.specs.Parts as spec;
ghost use Rattle.isl_kinds.specs.Parts.{parts_of, parts_of_links, parts_of_postfix, parts_of_postfixes};
ghost use Rattle.isl_kinds.specs.Walk.{part_of};

use isl_space::Name;
use isl_tree::statement::{Binary, Expr, Link, Postfix, Prefix};
use isl_tree::tree::Literal;

/// What an expression has beside its operands.
#[derive(Clone, Copy)]
pub enum Part<'a> {
    Name(&'a Name),
    Literal(&'a Literal),
    Operator(Binary),
    Prefix(Prefix),
    Any,
    Last,
    Inverse,
    Application,
    Item(i128),
}

/// A test of parts.
pub trait PartTest {
    /// Which parts pass.
    ghost passing: { Self → spec.Part → Bool };

    fn passes(&self, part: Part<'_>) -> bool
        ensures { result ≡ passing self.now (part_of part.entry) };
}

/// Whether some part of the expression passes the test.
#[cycle(walk)]
#[tactic(auto, using(crate::proofs::WalkLaws::expressions))]
pub fn any_part<T: PartTest>(expr: &Expr, test: &T) -> bool
    ensures { result ≡ list_any (T.passing test.now) (parts_of expr.now) }
{
    match expr {
        Expr::Name(name) => test.passes(Part::Name(name)),
        Expr::Literal(literal) => test.passes(Part::Literal(literal)),
        Expr::Row(first, links) => {
            any_part(first.get(), test) | any_in_links(links.as_slice(), test)
        }
        Expr::Prefix(word, operand) => {
            test.passes(Part::Prefix(*word)) | any_part(operand.get(), test)
        }
        Expr::Any(source, sink, schedule) => {
            test.passes(Part::Any)
                | any_part(source.get(), test)
                | any_part(sink.get(), test)
                | any_part(schedule.get(), test)
        }
        Expr::Last(source, sink, schedule) => {
            test.passes(Part::Last)
                | any_part(source.get(), test)
                | any_part(sink.get(), test)
                | any_part(schedule.get(), test)
        }
        Expr::Post(operand, postfixes) => {
            any_part(operand.get(), test) | any_in_postfixes(postfixes.as_slice(), test)
        }
    }
}

#[cycle(walk)]
#[tactic(auto, using(crate::proofs::WalkLaws::lists))]
fn any_in_links<T: PartTest>(links: &[Link], test: &T) -> bool
    ensures { result ≡ list_any (T.passing test.now) (parts_of_links links.now) }
{
    for link in links {
        if test.passes(Part::Operator(link.operator)) | any_part(&link.operand, test) {
            return true;
        }
    }
    false
}

#[cycle(walk)]
#[tactic(auto, using(crate::proofs::WalkLaws::lists))]
fn any_in_postfixes<T: PartTest>(postfixes: &[Postfix], test: &T) -> bool
    ensures { result ≡ list_any (T.passing test.now) (parts_of_postfixes postfixes.now) }
{
    for postfix in postfixes {
        if any_in_postfix(postfix, test) {
            return true;
        }
    }
    false
}

#[cycle(walk)]
fn any_in_postfix<T: PartTest>(postfix: &Postfix, test: &T) -> bool
    ensures { result ≡ list_any (T.passing test.now) (parts_of_postfix postfix.now) }
{
    match postfix {
        Postfix::Inverse => test.passes(Part::Inverse),
        Postfix::Apply(argument) => { test.passes(Part::Application) | any_part(argument, test) }
        Postfix::Item(number) => test.passes(Part::Item(*number)),
    }
}
