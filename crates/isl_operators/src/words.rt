//! What words make of a value.

ghost use Rattle.std.specs.Prelude.{◌≡◌, ◌↔◌, [], false, true, IfOk, MatchResult};
ghost use Rattle.isl_meter.specs.Gauge.{IsMetered};
ghost use Rattle.isl_space.specs.Element.{Element};
ghost use Rattle.isl_space.specs.Valuation.{Valuation};
ghost use Rattle.isl_tree.specs.Words.{word_row};
ghost use Rattle.isl_union.specs.KeptValue.{Has, HasNoDefinitions, IsKeptValue};
ghost use Rattle.isl_union.specs.Numbers.{IsWithinLimit};
ghost use Rattle.isl_operators.specs.Operations.{WordHas, WordMisses, is_operation_word};
ghost use Rattle.isl_operators.specs.Formed.{WordForms, FormsWide};
ghost use Rattle.isl_operators.specs.Made.{IsAnyWordOf, IsCoalescedFlat, IsPaid, IsWhyNone, IsWhyNoWord, IsWordOf, word_works};

use crate::WordFault;
use isl_assumed::Assumed;
use isl_lex::{lexmax, lexmin};
use isl_maps::{deltas, domain, domain_map, identity, range, range_map, unwrap, wrap, zip};
use isl_meter::{Cut, Meter};
use isl_simplify::{affine_hull, coalesce};
use isl_tree::statement::Prefix;
use isl_union::{OpFault, Value};
use std::alloc::Global;

// What a word makes of a value that moves its columns, doubles them or takes them out.
fn moved(alloc: Global, word: Prefix, operand: &Value, meter: &mut Meter) -> Result<Value, OpFault>
    requires moving { (word_row word).moves ≡ true }
    requires within { IsWithinLimit meter.old operand.now }
    ensures written { IfOk result (IsWordOf word operand.now) }
    ensures kept { IfOk result IsKeptValue }
    ensures params { IfOk result (λ value. value.params ≡ operand.now.params) }
    ensures elements { (valuation : Valuation) (element : Element)
        → IfOk result (λ value. Has value valuation element ↔ WordHas word operand.now.params (Has operand.now) valuation element) }
    ensures definitions { word_works word ≡ false → HasNoDefinitions operand.now → IfOk result HasNoDefinitions }
    ensures numbers { IfOk result (IsWithinLimit meter.old) }
    ensures narrow { IfOk result (λ _. ¬ FormsWide (WordForms word) (Has operand.now)) }
    ensures units { MatchResult result (λ _. IsPaid (word_works word) meter.old meter.new)
        (IsWhyNone [] (FormsWide (WordForms word) (Has operand.now)) (word_works word) meter.old meter.new) }
{
    // For what a value keeps.
    let _pieces = operand.pieces();
    match word {
        Prefix::Domain => domain(alloc, operand, meter),
        Prefix::Range => range(alloc, operand, meter),
        Prefix::Deltas => deltas(alloc, operand, meter),
        Prefix::Identity => identity(alloc, operand, meter),
        Prefix::Wrap => wrap(alloc, operand, meter),
        Prefix::Unwrap => unwrap(alloc, operand, meter),
        Prefix::Zip => zip(alloc, operand, meter),
        Prefix::DomainMap => domain_map(alloc, operand, meter),
        Prefix::RangeMap => range_map(alloc, operand, meter),
        _ => unreachable!(),
    }
}

// The value, with its pieces put together.
#[tactic(auto, using(std::proofs::lemmas::Grind::common_steps, isl_meter::proofs::CutLemmas::charges))]
fn put_together(alloc: Global, operand: &Value, meter: &mut Meter) -> Result<Value, Cut>
    requires { IsWithinLimit meter.old operand.now }
    ensures kept { IfOk result IsKeptValue }
    ensures params { IfOk result (λ value. value.params ≡ operand.now.params) }
    ensures elements { (valuation : Valuation) (element : Element)
        → IfOk result (λ value. Has value valuation element ↔ Has operand.now valuation element) }
    ensures coalesced { IfOk result (IsCoalescedFlat operand.now) }
    ensures definitions { IfOk result HasNoDefinitions }
    ensures numbers { IfOk result (IsWithinLimit meter.old) }
    ensures meter { IsMetered meter.old meter.new result }
{
    let flat = operand.flat(alloc, meter)?;
    coalesce(alloc, &flat, &Assumed::all(), meter)
}

/// What a word makes of a value, over its parameters. `id`, `wrap`, `unwrap`, `zip`, `domain_map` and `range_map` use no unit. (the iscc
/// chapter of the barvinok manual)
///
/// # Errors
///
/// As every call under a meter; `TooWide` exactly where a space that is formed of one in which the value has elements is too wide, unless
/// memory ends; and `NoMinimum` only where what `lexmin` or `lexmax` looks for is missing at some valuation.
pub fn transformed(
    alloc: Global,
    word: Prefix,
    operand: &Value,
    meter: &mut Meter,
) -> Result<Value, WordFault>
    requires operation { is_operation_word word ≡ true }
    requires within { IsWithinLimit meter.old operand.now }

    // The value, and what it has.
    ensures written { IfOk result (IsWordOf word operand.now) }
    ensures kept { IfOk result IsKeptValue }
    ensures params { IfOk result (λ value. value.params ≡ operand.now.params) }
    ensures elements { (valuation : Valuation) (element : Element)
        → IfOk result (λ value. Has value valuation element ↔ WordHas word operand.now.params (Has operand.now) valuation element) }

    // How it is written.
    ensures definitions { word_works word ≡ false → HasNoDefinitions operand.now → IfOk result HasNoDefinitions }
    ensures numbers { IfOk result (IsWithinLimit meter.old) }

    // Where there is one, and what that cost.
    ensures narrow { IfOk result (λ _. ¬ FormsWide (WordForms word) (Has operand.now)) }
    ensures there { IfOk result (λ _. ¬ WordMisses word (Has operand.now)) }
    ensures units { MatchResult result (λ _. IsPaid (word_works word) meter.old meter.new)
        (IsWhyNoWord (FormsWide (WordForms word) (Has operand.now)) (WordMisses word (Has operand.now)) (word_works word)
        meter.old meter.new) }
{
    match word {
        Prefix::LexMin => Ok(lexmin(alloc, operand, meter)?),
        Prefix::LexMax => Ok(lexmax(alloc, operand, meter)?),
        Prefix::AffineHull => Ok(affine_hull(alloc, operand, meter)?),
        Prefix::Coalesce => Ok(put_together(alloc, operand, meter)?),
        _ => Ok(moved(alloc, word, operand, meter)?),
    }
}
