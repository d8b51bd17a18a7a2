//! Pieces that have elements, and the values that are made of pieces.

ghost use Rattle.std.specs.Prelude.{◌≡◌, ◌↔◌, ◌+◌, ◌*◌, ◌≤◌, ◌++◌, ℕ, List, [], All, Any, Some};
ghost use Rattle.std.specs.Prelude.{IfOk, IfSome, MatchResult, OnOk, length, map, option_map, option_to_list};
ghost use Rattle.isl_meter.specs.Gauge.{IsCharged, IsCutBy, IsMetered};
ghost use Rattle.isl_space.specs.Element.{Element};
ghost use Rattle.isl_space.specs.Name.{Name};
ghost use Rattle.isl_space.specs.Names.{IsParameterList};
ghost use Rattle.isl_space.specs.Space.{space_form_of};
ghost use Rattle.isl_space.specs.SpaceForm.{IsWellFormedSpace};
ghost use Rattle.isl_space.specs.Valuation.{Valuation};
ghost use Rattle.isl_piece.specs.declared.system.System.{System};
ghost use Rattle.isl_piece.specs.Normal.{normal_system};
ghost use Rattle.isl_piece.specs.System.{HoldsSystem, IsSystemWithin, free_columns};
ghost use Rattle.isl_piece.specs.Formed.{IsSystemUpTo};
ghost use Rattle.std.specs.List.{filter_map};
ghost use Rattle.isl_ledger.specs.Answered.{IsTame};
ghost use Rattle.isl_ledger.specs.Difference.{IsDifferenceSystem};
ghost use Rattle.isl_ledger.specs.Work.{AreOfSize};
ghost use Rattle.isl_elim.specs.Sample.{IsNowhere};
ghost use Rattle.isl_elim.specs.Spent.{IsSpentOn};
ghost use Rattle.isl_difference.specs.Tame.{HasNormalDifferences};
ghost use Rattle.isl_union.specs.KeptValue.{columns_of, Has, HasElement, IsKeptValue};
ghost use Rattle.isl_union.specs.Live.{normal_of, settled, AreLiveOf, IsLiveForm, IsLiveOf};
ghost use Rattle.isl_union.specs.Numbers.{HasNumbersUpTo};
ghost use Rattle.isl_union.specs.Piece.{kept_piece, piece_of, IsPieceOf, IsPieceOver};
ghost use Rattle.isl_union.specs.Tame.{size_of, systems_of, IsOfSize};

use crate::Value;
use isl_difference::are_too_many;
use isl_elim::is_normal_empty;
use isl_meter::{Cut, Meter};
use isl_piece::{Piece, System, normalise};
use isl_space::{Params, Space};
use std::alloc::{AllocError, Global};

// The system with its normal rows; none where it holds at no point.
#[tactic(auto, using(std::proofs::lemmas::Grind::common_steps, isl_meter::proofs::CutLemmas::charges))]
fn live_system(alloc: Global, system: System, meter: &mut Meter) -> Result<Option<System>, Cut>
    requires { IsSystemWithin meter.old system }
    ensures exact { MatchResult result
        (λ found. IsLiveForm system found × IsCharged meter.old meter.new)
        (IsCutBy meter.old meter.new) }
    ensures one { (normal : System) → normal_system system ≡ Some normal → system.definitions ≡ [] → system.columns ≡ 1
        → IsSpentOn normal.rows 0 meter.old meter.new result }
    ensures tame { (columns bits : ℕ) → meter.old.bits ≡ 127 → bits + columns ≤ 120 → HasNormalDifferences columns bits system
        → IsTame (columns * (columns * columns)) meter.old meter.new (λ found. IfSome found (IsDifferenceSystem columns bits)) result }
{
    let Some(normal) = normalise(alloc, system, meter)? else {
        return Ok(None);
    };
    if is_normal_empty(alloc, &normal, meter)? {
        return Ok(None);
    }
    Ok(Some(normal))
}

/// The piece of the space with the system's normal rows; none where the system holds at no point. Of one column the normal rows cost what
/// elimination of it does.
///
/// # Errors
///
/// `Overflow` where a number passes the limit of the meter, `Budget` where its units are used up, and `NoMemory`.
#[tactic(auto, using(std::proofs::lemmas::Grind::common_steps, isl_meter::proofs::CutLemmas::charges))]
pub fn live_piece(
    alloc: Global,
    space: &Space,
    system: System,
    meter: &mut Meter,
) -> Result<Option<Piece>, Cut>
    requires { IsSystemWithin meter.old system }
    ensures found { (params : List Name) → IsWellFormedSpace (space_form_of space.now)
        → free_columns system ≡ columns_of params (space_form_of space.now)
        → IfOk result (λ found. IsLiveOf params (normal_of (piece_of (space_form_of space.now) system)) (option_map kept_piece found)
        × IfSome found (IsPieceOf params)) }
    ensures meter { IsMetered meter.old meter.new result }
    ensures one { (normal : System) → normal_system system ≡ Some normal → system.definitions ≡ [] → system.columns ≡ 1
        → IsSpentOn normal.rows 0 meter.old meter.new result }
    ensures tame { (columns bits : ℕ) → meter.old.bits ≡ 127 → bits + columns ≤ 120 → HasNormalDifferences columns bits system
        → IsTame (columns * (columns * columns)) meter.old meter.new
        (λ found. IfSome found (λ piece. IsDifferenceSystem columns bits piece.system)) result }
{
    match live_system(alloc, system, meter)? {
        None => Ok(None),
        Some(live) => Ok(Some(Piece::new(alloc, space.copy()?, live)?)),
    }
}

/// The piece of the space with the system's normal rows. The system has a point, so none of its rows holds nowhere.
///
/// # Errors
///
/// `AllocError` where memory ends.
pub fn settled_piece(
    alloc: Global,
    space: &Space,
    system: System,
    meter: &Meter,
) -> Result<Piece, AllocError>
    requires within { IsSystemWithin meter.now system }
    requires live { ¬ IsNowhere (free_columns system) (HoldsSystem system) }
    ensures exact { IfOk result (λ piece. kept_piece piece ≡ settled (piece_of (space_form_of space.now) system)) }
    ensures sound { (params : List Name) → IsWellFormedSpace (space_form_of space.now)
        → free_columns system ≡ columns_of params (space_form_of space.now) → IfOk result (IsPieceOf params) }
{
    match system.rows.normalise(alloc, meter)? {
        None => unreachable!(),
        Some(rows) => Piece::new(
            alloc,
            space.copy()?,
            System::over(system.columns, system.definitions, rows),
        ),
    }
}

/// Puts a piece that is there behind the others.
///
/// # Errors
///
/// Where memory ends, or they are too many together.
pub fn push_found(kept: &mut Vec<Piece>, found: Option<Piece>) -> Result<(), AllocError>
    ensures { OnOk result (kept.new.items ≡ kept.old.items ++ option_to_list found) }
{
    if let Some(piece) = found {
        if are_too_many(kept.len(), piece.system()) {
            return Err(AllocError);
        }
        kept.push(piece)?;
    }
    Ok(())
}

// The pieces that have elements, with normal rows.
#[tactic(auto, using(std::proofs::lemmas::Grind::common_steps, isl_meter::proofs::CutLemmas::charges))]
fn live_pieces(
    alloc: Global,
    params: &Params,
    pieces: &[Piece],
    meter: &mut Meter,
) -> Result<Vec<Piece>, Cut>
    requires { All (IsPieceOver meter.old params.now) pieces.now }
    ensures exact { IfOk result
        (λ kept. AreLiveOf params.now (filter_map normal_of (map kept_piece pieces.now)) (map kept_piece kept.items)) }
    ensures sound { IfOk result (λ kept. All (IsPieceOf params.now) kept.items) }
    ensures meter { IsMetered meter.old meter.new result }
    ensures tame { (columns bits : ℕ) → meter.old.bits ≡ 127 → bits + columns ≤ 120
        → All (λ piece. HasNormalDifferences columns bits piece.system) pieces.now
        → IsTame (length pieces.now * (columns * (columns * columns))) meter.old meter.new
        (λ kept. AreOfSize (size_of (length pieces.now) columns bits) (systems_of kept.items)) result }
{
    let mut kept = Vec::with_capacity(alloc, pieces.len())?;
    for piece in pieces {
        let system = piece.system().copy(alloc)?;
        push_found(&mut kept, live_piece(alloc, piece.space(), system, meter)?)?;
    }
    Ok(kept)
}

// The pieces, which have elements, with normal rows.
fn settled_pieces(
    alloc: Global,
    params: &Params,
    pieces: &[Piece],
    meter: &Meter,
) -> Result<Vec<Piece>, AllocError>
    requires pieces { All (IsPieceOver meter.now params.now) pieces.now }
    requires live { All (λ piece. ¬ IsNowhere (free_columns piece.system) (HoldsSystem piece.system)) pieces.now }
    ensures exact { IfOk result (λ kept. map kept_piece kept.items ≡ map settled (map kept_piece pieces.now)) }
    ensures sound { IfOk result (λ kept. All (IsPieceOf params.now) kept.items) }
{
    let mut kept = Vec::with_capacity(alloc, pieces.len())?;
    for piece in pieces {
        let system = piece.system().copy(alloc)?;
        kept.push(settled_piece(alloc, piece.space(), system, meter)?)?;
    }
    Ok(kept)
}

impl Value {
    /// The value of those of the pieces that have an element at some valuation, in order, each with its normal rows.
    ///
    /// # Errors
    ///
    /// `Overflow` where a number passes the limit of the meter, `Budget` where its units are used up, and `NoMemory`.
    pub fn from_pieces(
        alloc: Global,
        params: Params,
        pieces: Vec<Piece>,
        meter: &mut Meter,
    ) -> Result<Value, Cut>
        requires params { IsParameterList params }
        requires pieces { All (IsPieceOver meter.old params) pieces.items }
        ensures params { IfOk result (λ value. value.params ≡ params) }
        ensures pieces { IfOk result (λ value. AreLiveOf params (filter_map normal_of (map kept_piece pieces.items)) value.pieces) }
        ensures kept { IfOk result IsKeptValue }
        ensures elements { (valuation : Valuation) (element : Element)
            → IfOk result (λ value. Has value valuation element ↔ Any (HasElement params valuation element) (map kept_piece pieces.items)) }
        ensures numbers { (most : ℕ) → All (λ piece. IsSystemUpTo most piece.system) pieces.items → IfOk result (HasNumbersUpTo most) }
        ensures meter { IsMetered meter.old meter.new result }
        ensures tame { (columns bits : ℕ) → meter.old.bits ≡ 127 → bits + columns ≤ 120
            → All (λ piece. HasNormalDifferences columns bits piece.system) pieces.items
            → IsTame (length pieces.items * (columns * (columns * columns))) meter.old meter.new
            (λ value. IsOfSize value.params (size_of (length pieces.items) columns bits) value) result }
    {
        let kept = live_pieces(alloc, &params, pieces.as_slice(), meter)?;
        Ok(Value::from_normal(params, kept))
    }

    /// The value of the pieces, each of which has an element at some valuation, in order, each with its normal rows. No unit is
    /// used.
    ///
    /// # Errors
    ///
    /// `AllocError` where memory ends.
    pub fn from_live(
        alloc: Global,
        params: Params,
        pieces: Vec<Piece>,
        meter: &mut Meter,
    ) -> Result<Value, AllocError>
        requires params { IsParameterList params }
        requires pieces { All (IsPieceOver meter.old params) pieces.items }
        requires live { All (λ piece. ¬ IsNowhere (free_columns piece.system) (HoldsSystem piece.system)) pieces.items }
        ensures written { IfOk result (λ value. value ≡ record { params = params; pieces = map settled (map kept_piece pieces.items) }) }
        ensures kept { IfOk result IsKeptValue }
        ensures elements { (valuation : Valuation) (element : Element)
            → IfOk result (λ value. Has value valuation element ↔ Any (HasElement params valuation element) (map kept_piece pieces.items)) }
        ensures numbers { (most : ℕ) → All (λ piece. IsSystemUpTo most piece.system) pieces.items → IfOk result (HasNumbersUpTo most) }
        ensures meter { meter.new ≡ meter.old }
    {
        let kept = settled_pieces(alloc, &params, pieces.as_slice(), meter)?;
        Ok(Value::from_normal(params, kept))
    }
}
