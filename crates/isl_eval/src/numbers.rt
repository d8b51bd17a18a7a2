//! The numbers that parameters are given.

ghost use Rattle.std.specs.Prelude.{◌≡◌, IfOk};
ghost use Rattle.isl_space.specs.Valuation as valuation;

use isl_space::{Name, Params};
use isl_words::Options;
use std::alloc::{AllocError, Global};

// The number that a name is given, or 0.
fn number_of(name: &Name, at: &[(Name, i128)]) -> i128
    ensures { result ≡ valuation.value_at at.now name.now }
{
    for given in at {
        if given.0 == *name {
            return given.1;
        }
    }
    0
}

/// The numbers of these parameters.
pub(crate) fn numbers_of(
    alloc: Global,
    params: &Params,
    options: &Options,
) -> Result<Vec<i128>, AllocError>
    ensures { IfOk result (λ numbers. numbers.items ≡ valuation.values_of params.now options.now.at) }
{
    let mut numbers = Vec::new(alloc);
    for place in 0..params.len() {
        numbers.push(number_of(params.name(place), options.at()))?;
    }
    Ok(numbers)
}
