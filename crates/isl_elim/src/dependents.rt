//! Defined columns that depend on others, and what is left of the columns without these.

ghost use Rattle.std.specs.Prelude.{◌≡◌, ◌≢◌, ◌<◌, ◌≤◌, ◌+◌, ◌-◌, [], ◌++◌, pos, All, AllPairs, IfOk, length, slice_index_or};
ghost use Rattle.std.specs.Bool.{nat_eq};
ghost use Rattle.std.specs.List.{list_any};
ghost use Rattle.isl_piece.specs.System.{IsSystemWithin, free_columns};
ghost use Rattle.isl_elim.specs.Dependents.{names, with_dependents, kept_definitions};
ghost use Rattle.isl_elim.specs.Elimination.{without};

use isl_meter::{Int, Meter};
use isl_piece::{Definition, System};
use std::alloc::{AllocError, Global};

/// Whether the column is one of these.
pub(crate) fn is_among(column: usize, cols: &[usize]) -> bool
    ensures { result ≡ list_any (λ c. nat_eq c column) cols.now }
{
    cols.iter().any(|&col| col == column)
}

/// The column of the definition at `i`.
pub(crate) fn column_of(system: &System, i: usize) -> usize
    requires count { length system.now.definitions ≤ system.now.columns }
    requires inside { i < length system.now.definitions }
    ensures { result ≡ free_columns system.now + i }
{
    system.columns - (system.definitions.len() - i)
}

// The coefficient at the column; 0 at a column that has none.
fn coefficient(definition: &Definition, col: usize) -> Int
    ensures { result ≡ slice_index_or definition.now.coefs col (pos 0) }
{
    if col < definition.coefs.len() {
        return definition.coefs.get(col);
    }
    Int::ZERO
}

// Whether the definition names one of the columns.
fn names(cols: &[usize], definition: &Definition) -> bool
    ensures { result ≡ names cols.now definition.now }
{
    cols.iter()
        .any(|&col| coefficient(definition, col) != Int::ZERO)
}

/// The columns, and the defined ones that depend on them.
#[tactic(auto, using(std::proofs::lemmas::Grind::common_steps, crate::proofs::LeftLaws::gone_steps))]
pub(crate) fn with_dependents(
    alloc: Global,
    system: &System,
    cols: &[usize],
) -> Result<Vec<usize>, AllocError>
    requires { length system.now.definitions ≤ system.now.columns }
    ensures { IfOk result (λ gone. gone.items ≡ with_dependents system.now cols.now) }
{
    let definitions = system.definitions.as_slice();
    let mut gone = Vec::from_slice(alloc, cols)?;
    for i in 0..definitions.len() {
        if names(gone.as_slice(), &definitions[i]) {
            gone.push(column_of(system, i))?;
        }
    }
    Ok(gone)
}

// The coefficients at the other columns.
#[tactic(auto, using(std::proofs::lemmas::Grind::common_steps, crate::proofs::LeftLaws::gone_steps))]
fn without(alloc: Global, cols: &[usize], coefs: &[Int]) -> Result<Vec<i128>, AllocError>
    ensures { IfOk result (λ left. left.items ≡ without cols.now coefs.now) }
{
    let mut left = Vec::new(alloc);
    for i in 0..coefs.len() {
        if is_among(i, cols) {
            continue;
        }
        left.push(coefs[i].get())?;
    }
    Ok(left)
}

/// The system of the columns that are left without those that are gone, which are `cols` and those that depend on them. It
/// has the definitions that are kept, and no rows.
#[tactic(auto, using(std::proofs::lemmas::Grind::common_steps, crate::proofs::LeftLaws::left_steps))]
pub(crate) fn columns_left(
    alloc: Global,
    system: &System,
    cols: &[usize],
    gone: &[usize],
    _meter: &Meter,
) -> Result<System, AllocError>
    requires well_formed { IsSystemWithin _meter.now system.now }
    requires distinct { AllPairs (λ a b. a ≢ b) cols.now }
    requires cols_in { All (λ col. col < free_columns system.now) cols.now }
    requires gone { gone.now ≡ with_dependents system.now cols.now }
    ensures definitions { IfOk result (λ left. left.definitions ≡ kept_definitions system.now cols.now) }
    ensures columns { IfOk result (λ left. left.columns ≡ system.now.columns - length gone.now) }
    ensures within { IfOk result (IsSystemWithin _meter.now) }
{
    let definitions = system.definitions.as_slice();
    let mut left = System::new(alloc, system.free().saturating_sub(cols.len()));
    for i in 0..definitions.len() {
        if is_among(column_of(system, i), gone) {
            continue;
        }
        let definition = &definitions[i];
        let coefs = without(alloc, gone, definition.coefs.as_slice())?;
        left.define(coefs.as_slice(), definition.constant, definition.k)?;
    }
    Ok(left)
}
