//! The affine hull of a value.

ghost use Rattle.std.specs.Prelude.{◌≡◌, ◌≢◌, ◌+◌, ◌*◌, ◌≤◌, ◌∷◌, [], ℕ, ⊤, All, AllPairs, IfOk, map};
ghost use Rattle.isl_meter.specs.Gauge.{IsMetered};
ghost use Rattle.isl_space.specs.Element.{Element};
ghost use Rattle.isl_space.specs.Names.{IsParameterList};
ghost use Rattle.isl_space.specs.Space.{space_form_of};
ghost use Rattle.isl_space.specs.SpaceForm.{IsWellFormedSpace};
ghost use Rattle.isl_space.specs.Valuation.{Valuation};
ghost use Rattle.isl_piece.specs.declared.system.System.{System};
ghost use Rattle.isl_ledger.specs.Answered.{IsTame};
ghost use Rattle.isl_ledger.specs.Work.{Size, allowance, row_limit};
ghost use Rattle.isl_span.specs.Chain.{IsPlainChain};
ghost use Rattle.isl_span.specs.Work.{hull_units};
ghost use Rattle.isl_union.specs.KeptValue.{Has, IsKeptValue, columns_of};
ghost use Rattle.isl_union.specs.Minus.{systems_in};
ghost use Rattle.isl_union.specs.Tame.{IsOfSize};
ghost use Rattle.isl_union.specs.Numbers.{AreWithinLimit, IsWithinLimit};
ghost use Rattle.isl_union.specs.Piece.{kept_piece, IsPieceOf};
ghost use Rattle.isl_hull.specs.Hull.{IsHullOf};
ghost use Rattle.isl_hull.specs.Values.{IsHullIn};

use isl_by_space::{distinct_spaces, systems_in};
use isl_meter::{Cut, Meter};
use isl_piece::Piece;
use isl_space::{Params, Space};
use isl_span::hull_of;
use isl_union::{Value, push_found};
use std::alloc::Global;

// The hull of what the pieces have in the space.
#[tactic(auto, using(std::proofs::lemmas::Grind::common_steps, isl_meter::proofs::CutLemmas::charges))]
fn hull_in(
    alloc: Global,
    params: &Params,
    space: &Space,
    pieces: &[Piece],
    meter: &mut Meter,
) -> Result<Option<Piece>, Cut>
    requires params { IsParameterList params.now }
    requires space { IsWellFormedSpace (space_form_of space.now) }
    requires pieces { All (IsPieceOf params.now) pieces.now }
    requires within { AreWithinLimit meter.old pieces.now }
    ensures exact { IfOk result
        (IsHullIn meter.old (record { params = params.now; pieces = map kept_piece pieces.now }) (space_form_of space.now)) }
    ensures meter { IsMetered meter.old meter.new result }
    ensures tame { (columns bits : ℕ) (s : System) → meter.old.bits ≡ 127 → bits + 1 + columns ≤ 120
        → columns ≡ columns_of params.now (space_form_of space.now) → systems_in (space_form_of space.now) pieces.now ≡ s ∷ []
        → IsPlainChain columns bits s → IsTame (hull_units columns) meter.old meter.new (λ _. ⊤) result }
{
    let systems = systems_in(alloc, space, pieces)?;
    let columns = params.len() + space.width() as usize;
    match hull_of(alloc, systems, columns, meter)? {
        None => Ok(None),
        Some(hull) => Ok(Some(Piece::new(alloc, space.copy()?, hull)?)),
    }
}

/// The affine hull of the value: in each space in which it has elements one piece, of the equations that hold at all of these at every
/// valuation, over parameters and coordinates; none of them is implied by the others. It has the elements at which each form is 0
/// that is 0 at all elements of the value in that space. (isl manual, on affine hulls)
///
/// # Errors
///
/// `Overflow` where a number passes the limit of the meter, `Budget` where its units are used up, and `NoMemory`. Of difference
/// constraints over c columns, in p pieces of different spaces, no error but `NoMemory` comes where 127 bits have room for one bit more with
/// each column, and one more, and `8 * ((c + 1) * (row_limit c * allowance p c))` units are left.
#[tactic(auto, using(std::proofs::lemmas::Grind::common_steps, isl_meter::proofs::CutLemmas::charges))]
pub fn affine_hull(alloc: Global, value: &Value, meter: &mut Meter) -> Result<Value, Cut>
    requires { IsWithinLimit meter.old value.now }
    ensures exact { IfOk result (IsHullOf value.now) }
    ensures contains { (valuation : Valuation) (element : Element) → Has value.now valuation element
        → IfOk result (λ hull. Has hull valuation element) }
    ensures kept { IfOk result IsKeptValue }
    ensures numbers { IfOk result (IsWithinLimit meter.old) }
    ensures meter { IsMetered meter.old meter.new result }
    ensures tame { (size : Size) → meter.old.bits ≡ 127 → size.bits + size.columns ≤ 119 → IsOfSize value.now.params size value.now
        → AllPairs (λ p q. p.space ≢ q.space) value.now.pieces
        → IsTame (8 * ((size.columns + 1) * (row_limit size.columns * allowance size.pieces size.columns))) meter.old meter.new
        (λ _. ⊤) result }
{
    let params = value.params();
    let pieces = value.pieces();
    let spaces = distinct_spaces(alloc, pieces)?;
    let mut hulls = Vec::with_capacity(alloc, spaces.len())?;
    for space in spaces.as_slice() {
        push_found(&mut hulls, hull_in(alloc, params, space, pieces, meter)?)?;
    }
    Ok(Value::from_normal(params.copy(alloc)?, hulls))
}
