//! Terms that are remainders.

ghost use Rattle.std.specs.Prelude.{◌≡◌, ◌≤◌, length, pos, slice_index_or};
ghost use Rattle.std.specs.Option.{option_map};
ghost use Rattle.isl_tree.specs.Plain.{remainder_by, lone_remainder};
ghost use Rattle.isl_plain.specs.Code.{remainder_of};

use isl_tree::tree::{Factor, Signed};

/// A term, and the number that it is divided by.
#[derive(Clone, Copy)]
pub struct Remainder<'a> {
    pub term: &'a [Signed],
    pub modulus: i128,
}

fn first_number(numbers: &[i128]) -> i128
    requires { 1 ≤ length numbers.now }
    ensures { result ≡ slice_index_or numbers.now 0 (pos 0) }
{
    numbers[0]
}

// The remainder of a term in brackets by one number.
#[tactic(auto, using(std::proofs::lemmas::Grind::common_steps, crate::proofs::RemainderLaws::remainders))]
fn remainder_by<'a>(factor: &'a Factor, moduli: &[i128]) -> Option<Remainder<'a>>
    ensures { option_map remainder_of result ≡ remainder_by factor.now moduli.now }
{
    match moduli {
        [_] => match factor {
            Factor::Inner(term) => Some(Remainder {
                term: term.as_slice(),
                modulus: first_number(moduli),
            }),
            _ => None,
        },
        _ => None,
    }
}

/// The remainder that a term is, where it is `(term) mod k` alone.
pub(crate) fn lone_remainder(term: &[Signed]) -> Option<Remainder<'_>>
    ensures { option_map remainder_of result ≡ lone_remainder term.now }
{
    match term {
        [part] if !part.negative && part.product.numbers.is_empty() => match &part.product.inner {
            Some(modded) => remainder_by(&modded.factor, modded.moduli.as_slice()),
            None => None,
        },
        _ => None,
    }
}
