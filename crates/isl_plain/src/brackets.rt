//! Linear terms without round brackets.

ghost use Rattle.std.specs.Prelude.{◌≡◌, ◌++◌, ◌∷◌, [], IfOk, take};
ghost use Rattle.isl_tree.specs.declared.tree.Factor as factors;
ghost use Rattle.isl_tree.specs.declared.tree.Signed.{Signed'};
ghost use Rattle.isl_tree.specs.declared.tree.Product.{Product', None', Some'};
ghost use Rattle.isl_plain.specs.Linear as spec;
ghost use Rattle.isl_plain.specs.Linear.{part_times, factor_times, term_times};

use isl_space::Name;
use isl_tree::tree::{Factor, Modded, Product, Signed, Term};
use sqlite_items::Items;
use std::alloc::{AllocError, Global};

/// Whether a part is taken away in the end.
pub(crate) fn is_taken(takes: bool, negative: bool) -> bool
    ensures { result ≡ spec.is_taken takes negative }
{
    if takes { !negative } else { negative }
}

// Numbers, and more behind them.
fn joined(alloc: Global, numbers: &[i128], more: &[i128]) -> Result<Items<i128>, AllocError>
    ensures { IfOk result (λ joined. joined ≡ numbers.now ++ more.now) }
{
    let mut joined = Items::new(alloc);
    for number in numbers {
        joined.push(*number)?;
    }
    for other in more {
        joined.push(*other)?;
    }
    Ok(joined)
}

fn number_part(negative: bool, numbers: Items<i128>) -> Signed
    ensures { result ≡ Signed' negative (Product' numbers None') }
{
    Signed {
        negative,
        product: Product {
            numbers,
            inner: None,
        },
    }
}

fn named_part(alloc: Global, negative: bool, numbers: Items<i128>, name: Name) -> Signed
    ensures { result ≡ Signed' negative (Product' numbers (Some' (factors.Name name) [])) }
{
    Signed {
        negative,
        product: Product {
            numbers,
            inner: Some(Modded {
                factor: Factor::Name(name),
                moduli: Items::new(alloc),
            }),
        },
    }
}

// Puts the parts of a factor times numbers behind the others.
#[cycle(times)]
fn push_factor(
    alloc: Global,
    factor: &Factor,
    negative: bool,
    numbers: Items<i128>,
    parts: &mut Items<Signed>,
) -> Result<(), AllocError>
    ensures { IfOk result (λ _. parts.new ≡ parts.old ++ factor_times negative numbers factor.now) }
{
    match factor {
        Factor::Name(name) => parts.push(named_part(alloc, negative, numbers, name.copy()?)),
        Factor::Inner(term) => {
            push_term(alloc, term.as_slice(), negative, numbers.as_slice(), parts)
        }
        _ => Ok(()),
    }
}

// Puts what a part times numbers is behind the others.
#[cycle(times)]
fn push_part(
    alloc: Global,
    part: &Signed,
    negative: bool,
    numbers: &[i128],
    parts: &mut Items<Signed>,
) -> Result<(), AllocError>
    ensures { IfOk result (λ _. parts.new ≡ parts.old ++ part_times negative numbers.now part.now) }
{
    let taken = is_taken(negative, part.negative);
    let product = joined(alloc, numbers, part.product.numbers.as_slice())?;
    match &part.product.inner {
        None => parts.push(number_part(taken, product)),
        Some(modded) if modded.moduli.is_empty() => {
            push_factor(alloc, &modded.factor, taken, product, parts)
        }
        Some(_) => Ok(()),
    }
}

// The same of each part of a term.
#[cycle(times)]
fn push_term(
    alloc: Global,
    term: &[Signed],
    negative: bool,
    numbers: &[i128],
    parts: &mut Items<Signed>,
) -> Result<(), AllocError>
    ensures { IfOk result (λ _. parts.new ≡ parts.old ++ term_times negative numbers.now term.now) }
{
    for part in term {
        push_part(alloc, part, negative, numbers, parts)?;
    }
    Ok(())
}

/// The parts of a linear term, where sums in round brackets are multiplied out.
pub(crate) fn multiplied_out(alloc: Global, term: &[Signed]) -> Result<Term, AllocError>
    ensures { IfOk result (λ parts. parts ≡ spec.multiplied_out term.now) }
{
    let mut parts = Items::new(alloc);
    push_term(alloc, term, false, &[], &mut parts)?;
    Ok(parts)
}
