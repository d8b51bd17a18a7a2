//! What two values have in common.

ghost use Rattle.std.specs.Prelude.{◌≡◌, ◌↔◌, ◌+◌, ◌*◌, ◌≤◌, ℕ, All, IfOk, IfSome, MatchResult, length, map, option_map};
ghost use Rattle.std.specs.Prelude.{sum_by};
ghost use Rattle.isl_space.specs.Element.{Element};
ghost use Rattle.isl_space.specs.Limits.{most_parameters};
ghost use Rattle.isl_space.specs.Names.{joined};
ghost use Rattle.isl_space.specs.Valuation.{Valuation};
ghost use Rattle.isl_piece.specs.System.{IsSystemWithin};
ghost use Rattle.isl_meter.specs.Gauge.{IsCutBy};
ghost use Rattle.isl_ledger.specs.Answered.{IsTame};
ghost use Rattle.isl_ledger.specs.Difference.{IsDifferenceSystem};
ghost use Rattle.isl_ledger.specs.Work.{AreOfSize};
ghost use Rattle.isl_difference.specs.Tame.{test_work};
ghost use Rattle.isl_union.specs.Fault.{IsChargedFrom, IsFaultBy};
ghost use Rattle.isl_union.specs.KeptValue.{Has, HasNoDefinitions, IsKeptValue};
ghost use Rattle.isl_union.specs.Live.{AreLiveOf, IsLiveOf};
ghost use Rattle.isl_union.specs.Meet.{met_piece, met_pieces, met_with, pair_count, pairs_of_one_space, partners, IsMeetOf};
ghost use Rattle.isl_union.specs.Numbers.{AreWithinLimit, HasNumbersUpTo, IsWithinLimit};
ghost use Rattle.isl_union.specs.Piece.{kept_piece, IsPieceOf};
ghost use Rattle.isl_union.specs.Tame.{size_of, systems_of, AreOfSizes, IsOfSize, IsTameAnswer};

use crate::aligned::aligned_pieces;
use crate::live::{live_piece, push_found};
use crate::pieces::append;
use crate::{OpFault, Value};
use isl_index::PieceIndex;
use isl_meter::{Cut, Meter};
use isl_piece::{Piece, meet};
use isl_space::Params;
use std::alloc::Global;

// What two pieces have in common, for a unit where they lie in one space, and those of the question whether it has an element.
#[tactic(auto, using(std::proofs::lemmas::Grind::common_steps, crate::proofs::UnitLaws::unit_steps))]
fn met_piece(
    alloc: Global,
    params: &Params,
    a: &Piece,
    b: &Piece,
    meter: &mut Meter,
) -> Result<Option<Piece>, Cut>
    requires own { IsPieceOf params.now a.now }
    requires other { IsPieceOf params.now b.now }
    requires own_within { IsSystemWithin meter.old a.now.system }
    requires other_within { IsSystemWithin meter.old b.now.system }
    ensures exact { IfOk result
        (λ met. IsLiveOf params.now (met_piece params.now (kept_piece a.now) (kept_piece b.now)) (option_map kept_piece met)) }
    ensures sound { IfOk result (λ met. IfSome met (IsPieceOf params.now)) }
    ensures units { MatchResult result (λ _. IsChargedFrom (pair_count (kept_piece a.now) (kept_piece b.now)) meter.old meter.new)
        (IsCutBy meter.old meter.new) }
    ensures tame { (columns bits : ℕ) → meter.old.bits ≡ 127 → bits + columns ≤ 120
        → IsDifferenceSystem columns bits a.now.system → IsDifferenceSystem columns bits b.now.system
        → IsTame (test_work columns) meter.old meter.new (λ met. IfSome met (λ piece. IsDifferenceSystem columns bits piece.system)) result }
{
    let space = a.space();
    if !space.same(b.space()) {
        return Ok(None);
    }
    meter.unit()?;
    let both = meet(alloc, a.system(), b.system())?;
    live_piece(alloc, space, both, meter)
}

// What the piece has in common with each of the others, which are looked at one by one.
#[tactic(auto, using(std::proofs::lemmas::Grind::common_steps, crate::proofs::UnitLaws::unit_steps))]
fn met_among(
    alloc: Global,
    params: &Params,
    piece: &Piece,
    others: &[Piece],
    meter: &mut Meter,
) -> Result<Vec<Piece>, Cut>
    requires piece { IsPieceOf params.now piece.now }
    requires others { All (IsPieceOf params.now) others.now }
    requires piece_within { IsSystemWithin meter.old piece.now.system }
    requires others_within { AreWithinLimit meter.old others.now }
    ensures exact { IfOk result (λ met.
        AreLiveOf params.now (met_with params.now (map kept_piece others.now) (kept_piece piece.now)) (map kept_piece met.items)) }
    ensures sound { IfOk result (λ met. All (IsPieceOf params.now) met.items) }
    ensures units { MatchResult result
        (λ _. IsChargedFrom (partners (map kept_piece others.now) (kept_piece piece.now)) meter.old meter.new)
        (IsCutBy meter.old meter.new) }
    ensures tame { (columns bits : ℕ) → meter.old.bits ≡ 127 → bits + columns ≤ 120 → IsDifferenceSystem columns bits piece.now.system
        → All (IsDifferenceSystem columns bits) (systems_of others.now)
        → IsTame (length others.now * test_work columns) meter.old meter.new
        (λ met. AreOfSize (size_of (length others.now) columns bits) (systems_of met.items)) result }
{
    let mut met = Vec::new(alloc);
    for other in others {
        push_found(&mut met, met_piece(alloc, params, piece, other, meter)?)?;
    }
    Ok(met)
}

// What the piece has in common with each of the others, of which only those of its space are looked at.
#[tactic(auto, using(std::proofs::lemmas::Grind::common_steps, crate::proofs::UnitLaws::unit_steps))]
fn met_with(
    alloc: Global,
    params: &Params,
    piece: &Piece,
    others: &PieceIndex,
    meter: &mut Meter,
) -> Result<Vec<Piece>, Cut>
    requires piece { IsPieceOf params.now piece.now }
    requires others { All (IsPieceOf params.now) others.now }
    requires piece_within { IsSystemWithin meter.old piece.now.system }
    requires others_within { AreWithinLimit meter.old others.now }
    ensures exact { IfOk result (λ met.
        AreLiveOf params.now (met_with params.now (map kept_piece others.now) (kept_piece piece.now)) (map kept_piece met.items)) }
    ensures sound { IfOk result (λ met. All (IsPieceOf params.now) met.items) }
    ensures units { MatchResult result
        (λ _. IsChargedFrom (partners (map kept_piece others.now) (kept_piece piece.now)) meter.old meter.new)
        (IsCutBy meter.old meter.new) }
    ensures tame { (columns bits : ℕ) → meter.old.bits ≡ 127 → bits + columns ≤ 120 → IsDifferenceSystem columns bits piece.now.system
        → All (IsDifferenceSystem columns bits) (systems_of others.now)
        → IsTame (length others.now * test_work columns) meter.old meter.new
        (λ met. AreOfSize (size_of (length others.now) columns bits) (systems_of met.items)) result }
{
    let near = others.in_space(alloc, piece.space())?;
    met_among(alloc, params, piece, near, meter)
}

// What the pieces have in common with the others.
#[tactic(auto, using(std::proofs::lemmas::Grind::common_steps, crate::proofs::UnitLaws::unit_steps))]
fn met_pieces(
    alloc: Global,
    params: &Params,
    pieces: &[Piece],
    others: &PieceIndex,
    meter: &mut Meter,
) -> Result<Vec<Piece>, Cut>
    requires pieces { All (IsPieceOf params.now) pieces.now }
    requires others { All (IsPieceOf params.now) others.now }
    requires pieces_within { AreWithinLimit meter.old pieces.now }
    requires others_within { AreWithinLimit meter.old others.now }
    ensures exact { IfOk result (λ met. AreLiveOf params.now
        (met_pieces params.now (map kept_piece pieces.now) (map kept_piece others.now)) (map kept_piece met.items)) }
    ensures sound { IfOk result (λ met. All (IsPieceOf params.now) met.items) }
    ensures units { MatchResult result
        (λ _. IsChargedFrom (sum_by (partners (map kept_piece others.now)) (map kept_piece pieces.now)) meter.old meter.new)
        (IsCutBy meter.old meter.new) }
    ensures tame { (columns bits : ℕ) → meter.old.bits ≡ 127 → bits + columns ≤ 120
        → All (IsDifferenceSystem columns bits) (systems_of pieces.now) → All (IsDifferenceSystem columns bits) (systems_of others.now)
        → IsTame (length pieces.now * (length others.now * test_work columns)) meter.old meter.new
        (λ met. AreOfSize (size_of (length pieces.now * length others.now) columns bits) (systems_of met.items)) result }
{
    let mut met = Vec::new(alloc);
    for piece in pieces {
        let more = met_with(alloc, params, piece, others, meter)?;
        append(&mut met, more)?;
    }
    Ok(met)
}

impl Value {
    /// The elements that both values have, over the joined parameters: for each pair of a piece of this value and one of the
    /// other in one space, a piece with the definitions and the rows of both, made normal, where it has an element at some
    /// valuation. Each such pair uses a unit, and so does the question whether it has one. (isl manual, on set and relation
    /// operations)
    ///
    /// # Errors
    ///
    /// `TooWide` exactly where the two together declare more than 16 parameters, unless memory ends: no unit is used then.
    /// `Overflow` where a number passes the limit of the meter, `Budget` where its units are used up, and `NoMemory`.
    pub fn meet(&self, alloc: Global, other: &Value, meter: &mut Meter) -> Result<Value, OpFault>
        requires own { IsWithinLimit meter.old self.now }
        requires other { IsWithinLimit meter.old other.now }
        ensures written { IfOk result (IsMeetOf self.now other.now) }
        ensures kept { IfOk result IsKeptValue }
        ensures params { IfOk result (λ value. value.params ≡ joined self.now.params other.now.params) }
        ensures elements { (valuation : Valuation) (element : Element)
            → IfOk result (λ value. Has value valuation element ↔ (Has self.now valuation element × Has other.now valuation element)) }
        ensures definitions { HasNoDefinitions self.now → HasNoDefinitions other.now → IfOk result HasNoDefinitions }
        ensures numbers { (most : ℕ) → HasNumbersUpTo most self.now → HasNumbersUpTo most other.now → IfOk result (HasNumbersUpTo most) }
        ensures units { MatchResult result
            (λ _. (length (joined self.now.params other.now.params) ≤ most_parameters)
            × IsChargedFrom (pairs_of_one_space self.now other.now) meter.old meter.new)
            (IsFaultBy (joined self.now.params other.now.params) meter.old meter.new) }
        ensures tame { (own others columns bits : ℕ) → meter.old.bits ≡ 127 → bits + columns ≤ 120
            → AreOfSizes own others columns bits self.now other.now
            → IsTameAnswer (own * (others * test_work columns)) meter.old meter.new
            (λ value. IsOfSize value.params (size_of (own * others) columns bits) value) result }
    {
        let (params, _places) = self.params().align(alloc, other.params())?;
        let own = aligned_pieces(alloc, &params, self, meter)?;
        let others = aligned_pieces(alloc, &params, other, meter)?;
        let index = PieceIndex::new(alloc, others)?;
        let met = met_pieces(alloc, &params, own.as_slice(), &index, meter)?;
        Ok(Value::from_normal(params, met))
    }
}
