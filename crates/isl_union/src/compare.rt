//! What values say of one another.

ghost use Rattle.std.specs.Prelude.{◌≡◌, ◌↔◌, ◌+◌, ◌*◌, ◌≤◌, ◌∷◌, ℕ, ⊤, [], All, IfOk, IsTrue, MatchResult, length, map};
ghost use Rattle.isl_meter.specs.Gauge.{IsCharged, IsMetered};
ghost use Rattle.isl_space.specs.Limits.{most_parameters};
ghost use Rattle.isl_space.specs.Names.{joined, AreDistinct};
ghost use Rattle.isl_piece.specs.System.{IsSystemWithin};
ghost use Rattle.isl_ledger.specs.Answered.{IsTame};
ghost use Rattle.isl_ledger.specs.Difference.{IsDifferenceSystem};
ghost use Rattle.isl_difference.specs.Tame.{left_work};
ghost use Rattle.isl_union.specs.Compare.{AreEqual, IsSubset};
ghost use Rattle.isl_union.specs.Fault.{IsFaultBy};
ghost use Rattle.isl_union.specs.Minus.{AreCovered};
ghost use Rattle.isl_union.specs.Numbers.{AreWithinLimit, IsWithinLimit};
ghost use Rattle.isl_union.specs.Piece.{kept_piece, IsPieceOf};
ghost use Rattle.isl_union.specs.Tame.{systems_of, AreOfSizes, IsTameAnswer};

use crate::minus::systems_in;
use crate::pair::aligned_pair;
use crate::{OpFault, Value};
use isl_difference::is_covered;
use isl_index::PieceIndex;
use isl_meter::{Cut, Meter};
use isl_piece::Piece;
use isl_space::Params;
use std::alloc::Global;

// Whether the others have each element of the piece.
#[tactic(auto, using(std::proofs::lemmas::Grind::common_steps, isl_meter::proofs::CutLemmas::charges))]
fn is_piece_covered(
    alloc: Global,
    params: &Params,
    piece: &Piece,
    others: &PieceIndex,
    meter: &mut Meter,
) -> Result<bool, Cut>
    requires names { AreDistinct params.now }
    requires piece { IsPieceOf params.now piece.now }
    requires others { All (IsPieceOf params.now) others.now }
    requires piece_within { IsSystemWithin meter.old piece.now.system }
    requires others_within { AreWithinLimit meter.old others.now }
    ensures exact { IfOk result
        (λ covered. IsTrue covered ↔ AreCovered params.now (kept_piece piece.now ∷ []) (map kept_piece others.now)) }
    ensures meter { IsMetered meter.old meter.new result }
    ensures tame { (columns bits : ℕ) → meter.old.bits ≡ 127 → bits + 1 + columns ≤ 120 → IsDifferenceSystem columns bits piece.now.system
        → All (IsDifferenceSystem columns bits) (systems_of others.now)
        → IsTame (left_work columns (length others.now)) meter.old meter.new (λ _. ⊤) result }
{
    let systems = systems_in(alloc, piece.space(), others)?;
    is_covered(alloc, piece.system(), systems.as_slice(), meter)
}

// Whether the others have each element of the pieces.
#[tactic(auto, using(std::proofs::lemmas::Grind::common_steps, isl_meter::proofs::CutLemmas::charges))]
fn are_covered(
    alloc: Global,
    params: &Params,
    pieces: &[Piece],
    others: &PieceIndex,
    meter: &mut Meter,
) -> Result<bool, Cut>
    requires names { AreDistinct params.now }
    requires pieces { All (IsPieceOf params.now) pieces.now }
    requires others { All (IsPieceOf params.now) others.now }
    requires pieces_within { AreWithinLimit meter.old pieces.now }
    requires others_within { AreWithinLimit meter.old others.now }
    ensures exact { IfOk result
        (λ covered. IsTrue covered ↔ AreCovered params.now (map kept_piece pieces.now) (map kept_piece others.now)) }
    ensures meter { IsMetered meter.old meter.new result }
    ensures tame { (columns bits : ℕ) → meter.old.bits ≡ 127 → bits + 1 + columns ≤ 120
        → All (IsDifferenceSystem columns bits) (systems_of pieces.now) → All (IsDifferenceSystem columns bits) (systems_of others.now)
        → IsTame (length pieces.now * left_work columns (length others.now)) meter.old meter.new (λ _. ⊤) result }
{
    for piece in pieces {
        if !is_piece_covered(alloc, params, piece, others, meter)? {
            return Ok(false);
        }
    }
    Ok(true)
}

// Whether the pieces and the others have the same elements. First whether the others have those of the pieces.
#[tactic(auto, using(std::proofs::lemmas::Grind::common_steps, isl_meter::proofs::CutLemmas::charges))]
fn are_mutual(
    alloc: Global,
    params: &Params,
    pieces: Vec<Piece>,
    others: Vec<Piece>,
    meter: &mut Meter,
) -> Result<bool, Cut>
    requires names { AreDistinct params.now }
    requires pieces { All (IsPieceOf params.now) pieces.items }
    requires others { All (IsPieceOf params.now) others.items }
    requires pieces_within { AreWithinLimit meter.old pieces.items }
    requires others_within { AreWithinLimit meter.old others.items }
    ensures exact { IfOk result (λ same. IsTrue same ↔ (AreCovered params.now (map kept_piece pieces.items) (map kept_piece others.items)
        × AreCovered params.now (map kept_piece others.items) (map kept_piece pieces.items))) }
    ensures meter { IsMetered meter.old meter.new result }
    ensures tame { (columns bits : ℕ) → meter.old.bits ≡ 127 → bits + 1 + columns ≤ 120
        → All (IsDifferenceSystem columns bits) (systems_of pieces.items) → All (IsDifferenceSystem columns bits) (systems_of others.items)
        → IsTame (length pieces.items * left_work columns (length others.items) + length others.items * left_work columns (length pieces.items))
        meter.old meter.new (λ _. ⊤) result }
{
    let others = PieceIndex::new(alloc, others)?;
    if !are_covered(alloc, params, pieces.as_slice(), &others, meter)? {
        return Ok(false);
    }
    let pieces = PieceIndex::new(alloc, pieces)?;
    are_covered(alloc, params, others.pieces(), &pieces, meter)
}

impl Value {
    /// Whether at every valuation each element of this value is one of the other. (isl manual, on comparing sets and relations)
    ///
    /// # Errors
    ///
    /// `TooWide` exactly where the two together declare more than 16 parameters, unless memory ends: no unit is used then.
    /// `Overflow` where a number passes the limit of the meter, `Budget` where its units are used up, and `NoMemory`.
    pub fn is_subset(
        &self,
        alloc: Global,
        other: &Value,
        meter: &mut Meter,
    ) -> Result<bool, OpFault>
        requires own { IsWithinLimit meter.old self.now }
        requires other { IsWithinLimit meter.old other.now }
        ensures exact { IfOk result (λ subset. IsTrue subset ↔ IsSubset self.now other.now) }
        ensures units { MatchResult result
            (λ _. (length (joined self.now.params other.now.params) ≤ most_parameters) × IsCharged meter.old meter.new)
            (IsFaultBy (joined self.now.params other.now.params) meter.old meter.new) }
        ensures tame { (own others columns bits : ℕ) → meter.old.bits ≡ 127 → bits + 1 + columns ≤ 120
            → AreOfSizes own others columns bits self.now other.now
            → IsTameAnswer (own * left_work columns others) meter.old meter.new (λ _. ⊤) result }
    {
        let pair = aligned_pair(alloc, self, other, meter)?;
        let others = PieceIndex::new(alloc, pair.others)?;
        let own = pair.own.as_slice();
        Ok(are_covered(alloc, &pair.params, own, &others, meter)?)
    }

    /// Whether at every valuation both values have the same elements. The value of more pieces is the first that is asked whether
    /// the other has its elements. (isl manual, on comparing sets and relations)
    ///
    /// # Errors
    ///
    /// As `is_subset`.
    pub fn is_equal(&self, alloc: Global, other: &Value, meter: &mut Meter) -> Result<bool, OpFault>
        requires own { IsWithinLimit meter.old self.now }
        requires other { IsWithinLimit meter.old other.now }
        ensures exact { IfOk result (λ equal. IsTrue equal ↔ AreEqual self.now other.now) }
        ensures units { MatchResult result
            (λ _. (length (joined self.now.params other.now.params) ≤ most_parameters) × IsCharged meter.old meter.new)
            (IsFaultBy (joined self.now.params other.now.params) meter.old meter.new) }
        ensures tame { (own others columns bits : ℕ) → meter.old.bits ≡ 127 → bits + 1 + columns ≤ 120
            → AreOfSizes own others columns bits self.now other.now
            → IsTameAnswer (own * left_work columns others + others * left_work columns own) meter.old meter.new (λ _. ⊤) result }
    {
        let pair = aligned_pair(alloc, self, other, meter)?;
        let (own, others) = (pair.own, pair.others);
        if own.len() < others.len() {
            Ok(are_mutual(alloc, &pair.params, others, own, meter)?)
        } else {
            Ok(are_mutual(alloc, &pair.params, own, others, meter)?)
        }
    }
}
