//! What one value has and another has not.

ghost use Rattle.std.specs.Prelude.{◌≡◌, ◌↔◌, ◌+◌, ◌*◌, ◌≤◌, ◌∷◌, ℕ, [], All, IfOk, MatchResult, length, map};
ghost use Rattle.isl_meter.specs.Gauge.{IsCharged, IsMetered};
ghost use Rattle.isl_space.specs.Element.{Element};
ghost use Rattle.isl_space.specs.Limits.{most_parameters};
ghost use Rattle.isl_space.specs.Names.{joined};
ghost use Rattle.isl_space.specs.Space.{space_form_of};
ghost use Rattle.isl_space.specs.SpaceForm.{IsWellFormedSpace};
ghost use Rattle.isl_space.specs.Valuation.{Valuation};
ghost use Rattle.isl_piece.specs.System.{IsSystemWithin};
ghost use Rattle.isl_ledger.specs.Answered.{IsTame};
ghost use Rattle.isl_ledger.specs.Difference.{IsDifferenceSystem};
ghost use Rattle.isl_ledger.specs.Work.{AreOfSize};
ghost use Rattle.isl_difference.specs.Tame.{left_size, left_work};
ghost use Rattle.isl_union.specs.Fault.{IsFaultBy};
ghost use Rattle.isl_union.specs.KeptValue.{Has, HasNoDefinitions, IsKeptValue};
ghost use Rattle.isl_union.specs.Minus.{systems_in, AreLeftOf};
ghost use Rattle.isl_union.specs.Numbers.{AreWithinLimit, IsWithinLimit};
ghost use Rattle.isl_union.specs.Piece.{kept_piece, IsPieceOf};
ghost use Rattle.isl_union.specs.Tame.{minus_size, systems_of, AreOfSizes, IsOfSize, IsTameAnswer};

use crate::pair::aligned_pair;
use crate::pieces::{append, pieces_in};
use crate::{OpFault, Value};
use isl_difference::outside;
use isl_index::PieceIndex;
use isl_meter::{Cut, Meter};
use isl_piece::{Piece, System};
use isl_space::{Params, Space};
use std::alloc::{AllocError, Global};

/// The systems of those pieces that lie in the space.
pub(crate) fn systems_in<'a>(
    alloc: Global,
    space: &Space,
    pieces: &'a PieceIndex,
) -> Result<Vec<&'a System>, AllocError>
    requires { IsWellFormedSpace (space_form_of space.now) }
    ensures { IfOk result (λ systems. map (λ system. system.now) systems.items ≡ systems_in (space_form_of space.now) pieces.now) }
{
    let found = pieces.in_space(alloc, space)?;
    let mut systems = Vec::with_capacity(alloc, found.len())?;
    for piece in found {
        systems.push(piece.system())?;
    }
    Ok(systems)
}

// What is left of the piece without the others.
#[tactic(auto, using(std::proofs::lemmas::Grind::common_steps, isl_meter::proofs::CutLemmas::charges))]
fn piece_without(
    alloc: Global,
    params: &Params,
    piece: &Piece,
    others: &PieceIndex,
    meter: &mut Meter,
) -> Result<Vec<Piece>, Cut>
    requires piece { IsPieceOf params.now piece.now }
    requires others { All (IsPieceOf params.now) others.now }
    requires piece_within { IsSystemWithin meter.old piece.now.system }
    requires others_within { AreWithinLimit meter.old others.now }
    ensures exact { IfOk result
        (λ left. AreLeftOf meter.old params.now (kept_piece piece.now ∷ []) (map kept_piece others.now) left.items) }
    ensures alone { systems_in piece.now.space others.now ≡ [] → IfOk result (λ left. left.items ≡ piece.now ∷ []) }
    ensures definitions { piece.now.system.definitions ≡ [] → All (λ other. other.system.definitions ≡ []) others.now
        → IfOk result (λ left. All (λ part. part.system.definitions ≡ []) left.items) }
    ensures counted { IfOk result (λ left. length left.items + meter.old.units ≤ meter.new.units + 1) }
    ensures meter { IsMetered meter.old meter.new result }
    ensures tame { (columns bits : ℕ) → meter.old.bits ≡ 127 → bits + 1 + columns ≤ 120 → IsDifferenceSystem columns bits piece.now.system
        → All (IsDifferenceSystem columns bits) (systems_of others.now)
        → IsTame (left_work columns (length others.now)) meter.old meter.new
        (λ left. AreOfSize (left_size columns bits (length others.now)) (systems_of left.items)) result }
{
    let space = piece.space();
    let systems = systems_in(alloc, space, others)?;
    if systems.is_empty() {
        let mut whole = Vec::new(alloc);
        whole.push(piece.copy()?)?;
        return Ok(whole);
    }
    let left = outside(alloc, piece.system(), systems.as_slice(), meter)?;
    Ok(pieces_in(alloc, space, left)?)
}

// What is left of the pieces without the others.
#[tactic(auto, using(std::proofs::lemmas::Grind::common_steps, isl_meter::proofs::CutLemmas::charges))]
fn pieces_without(
    alloc: Global,
    params: &Params,
    pieces: &[Piece],
    others: &PieceIndex,
    meter: &mut Meter,
) -> Result<Vec<Piece>, Cut>
    requires pieces { All (IsPieceOf params.now) pieces.now }
    requires others { All (IsPieceOf params.now) others.now }
    requires pieces_within { AreWithinLimit meter.old pieces.now }
    requires others_within { AreWithinLimit meter.old others.now }
    ensures exact { IfOk result
        (λ left. AreLeftOf meter.old params.now (map kept_piece pieces.now) (map kept_piece others.now) left.items) }
    ensures definitions { All (λ piece. piece.system.definitions ≡ []) pieces.now → All (λ other. other.system.definitions ≡ []) others.now
        → IfOk result (λ left. All (λ part. part.system.definitions ≡ []) left.items) }
    ensures counted { IfOk result (λ left. length left.items + meter.old.units ≤ meter.new.units + length pieces.now) }
    ensures meter { IsMetered meter.old meter.new result }
    ensures tame { (columns bits : ℕ) → meter.old.bits ≡ 127 → bits + 1 + columns ≤ 120
        → All (IsDifferenceSystem columns bits) (systems_of pieces.now) → All (IsDifferenceSystem columns bits) (systems_of others.now)
        → IsTame (length pieces.now * left_work columns (length others.now)) meter.old meter.new
        (λ left. AreOfSize (minus_size (length pieces.now) (length others.now) columns bits) (systems_of left.items)) result }
{
    let mut left = Vec::new(alloc);
    for piece in pieces {
        let parts = piece_without(alloc, params, piece, others, meter)?;
        append(&mut left, parts)?;
    }
    Ok(left)
}

impl Value {
    /// The elements of this value that the other has not, over the joined parameters: of each piece of this value what is left of
    /// it without the pieces of the other that lie in its space, as pieces that have an element at some valuation. A piece whose
    /// space no piece of the other has stays as it is. There are no more pieces than in this value, but for one for each unit
    /// that was used. (isl manual, on set and relation operations)
    ///
    /// # Errors
    ///
    /// `TooWide` exactly where the two together declare more than 16 parameters, unless memory ends: no unit is used then.
    /// `Overflow` where a number passes the limit of the meter, `Budget` where its units are used up, and `NoMemory`.
    pub fn minus(&self, alloc: Global, other: &Value, meter: &mut Meter) -> Result<Value, OpFault>
        requires own { IsWithinLimit meter.old self.now }
        requires other { IsWithinLimit meter.old other.now }
        ensures kept { IfOk result IsKeptValue }
        ensures params { IfOk result (λ value. value.params ≡ joined self.now.params other.now.params) }
        ensures elements { (valuation : Valuation) (element : Element)
            → IfOk result (λ value. Has value valuation element ↔ (Has self.now valuation element × ¬ Has other.now valuation element)) }
        ensures definitions { HasNoDefinitions self.now → HasNoDefinitions other.now → IfOk result HasNoDefinitions }
        ensures numbers { IfOk result (IsWithinLimit meter.old) }
        ensures counted { IfOk result (λ value. length value.pieces + meter.old.units ≤ meter.new.units + length self.now.pieces) }
        ensures units { MatchResult result
            (λ _. (length (joined self.now.params other.now.params) ≤ most_parameters) × IsCharged meter.old meter.new)
            (IsFaultBy (joined self.now.params other.now.params) meter.old meter.new) }
        ensures tame { (own others columns bits : ℕ) → meter.old.bits ≡ 127 → bits + 1 + columns ≤ 120
            → AreOfSizes own others columns bits self.now other.now
            → IsTameAnswer (own * left_work columns others) meter.old meter.new
            (λ value. IsOfSize value.params (minus_size own others columns bits) value) result }
    {
        let pair = aligned_pair(alloc, self, other, meter)?;
        let others = PieceIndex::new(alloc, pair.others)?;
        let own = pair.own.as_slice();
        let left = pieces_without(alloc, &pair.params, own, &others, meter)?;
        Ok(Value::from_normal(pair.params, left))
    }
}
