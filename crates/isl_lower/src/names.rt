//! The names of the columns of a piece.

ghost use Rattle.std.specs.Prelude.{◌≡◌, [], ◌∷◌, ◌++◌, IfOk, OnOk};
ghost use Rattle.std.specs.Option.{option_copied};
ghost use Rattle.isl_tree.specs.Literal.{entries_of, lone_name, second_entries};
ghost use Rattle.isl_lower.specs.Names.{is_name_at, names_behind, new_in, parameter_names, piece_names};

use isl_affine::Scope;
use isl_space::Name;
use isl_tree::tree::{Entry, Factor, PieceTree, Signed, Tuple};
use std::alloc::{AllocError, Global};

// The name that a term consists of, where it is a name alone.
fn lone_name(term: &[Signed]) -> Option<&Name>
    ensures { option_copied result ≡ lone_name term.now }
{
    match term {
        [part] if !part.negative && part.product.numbers.is_empty() => match &part.product.inner {
            Some(modded) if modded.moduli.is_empty() => match &modded.factor {
                Factor::Name(name) => Some(name),
                _ => None,
            },
            _ => None,
        },
        _ => None,
    }
}

/// Whether the term is the name of this column alone.
pub(crate) fn is_name_of(scope: &Scope, term: &[Signed], column: usize) -> bool
    ensures { result ≡ is_name_at scope.now (lone_name term.now) column }
{
    match lone_name(term) {
        Some(name) => match scope.column(name) {
            Some(at) => at == column,
            None => false,
        },
        None => false,
    }
}

// The name that an entry brings in behind these columns.
fn new_name<'a>(scope: &Scope, entry: &'a Entry) -> Option<&'a Name>
    ensures { option_copied result ≡ new_in scope.now entry.now }
{
    match entry {
        Entry::Plain(term) => match lone_name(term.as_slice()) {
            Some(name) => match scope.column(name) {
                Some(_) => None,
                None => Some(name),
            },
            None => None,
        },
        Entry::Named(name, _) => Some(name),
    }
}

// Puts the column of an entry behind the others.
fn push_entry(scope: &mut Scope, entry: &Entry) -> Result<(), AllocError>
    ensures { OnOk result (scope.new ≡ scope.old ++ new_in scope.old entry.now ∷ []) }
{
    match new_name(scope, entry) {
        Some(name) => scope.push(Some(name.copy()?)),
        None => scope.push(None),
    }
}

// Puts the columns of entries behind the others.
fn push_entries(scope: &mut Scope, entries: &[Entry]) -> Result<(), AllocError>
    ensures { OnOk result (scope.new ≡ names_behind scope.old entries.now) }
{
    for entry in entries {
        push_entry(scope, entry)?;
    }
    Ok(())
}

// Puts the columns of a tuple behind the others.
#[tactic(auto, using(std::proofs::lemmas::Grind::common_steps, crate::proofs::NameLaws::tuples))]
fn push_tuple(scope: &mut Scope, tuple: &Tuple) -> Result<(), AllocError>
    ensures { OnOk result (scope.new ≡ names_behind scope.old (entries_of tuple.now)) }
{
    match tuple {
        Tuple::Leaf { entries, .. } => push_entries(scope, entries.as_slice()),
        Tuple::Pair(left, right) => {
            push_tuple(scope, left.get())?;
            push_tuple(scope, right.get())
        }
    }
}

// The columns of the parameters.
fn parameters(alloc: Global, params: &[Name]) -> Result<Scope, AllocError>
    ensures { IfOk result (λ scope. scope ≡ parameter_names params.now) }
{
    let mut scope = Scope::new(alloc);
    for name in params {
        scope.push(Some(name.copy()?))?;
    }
    Ok(scope)
}

// Puts the columns of a second tuple behind the others.
fn push_second(scope: &mut Scope, second: &Option<Tuple>) -> Result<(), AllocError>
    ensures { OnOk result (scope.new ≡ names_behind scope.old (second_entries second.now)) }
{
    match second {
        Some(tuple) => push_tuple(scope, tuple),
        None => Ok(()),
    }
}

/// The names of the columns of a piece: those of the parameters, and then those that its entries bring in.
///
/// # Errors
///
/// `AllocError` where memory ends.
#[tactic(auto, using(std::proofs::lemmas::Grind::common_steps, crate::proofs::NameLaws::pieces))]
pub fn scope_of(alloc: Global, params: &[Name], piece: &PieceTree) -> Result<Scope, AllocError>
    ensures { IfOk result (λ scope. scope ≡ piece_names params.now piece.now) }
{
    let mut scope = parameters(alloc, params)?;
    push_tuple(&mut scope, &piece.first)?;
    push_second(&mut scope, &piece.second)?;
    Ok(scope)
}
