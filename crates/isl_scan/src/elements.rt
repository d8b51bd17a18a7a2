//! The elements of a value at one valuation.

ghost use Rattle.std.specs.Prelude.{◌≡◌, ◌+◌, ◌≤◌, ◌∷◌, [], ℤ, List, All, IfOk, MatchOption, MatchResult, length};
ghost use Rattle.isl_meter.specs.Gauge.{IsCharged, IsMetered};
ghost use Rattle.isl_space.specs.SpaceForm.{IsWellFormedSpace};
ghost use Rattle.isl_space.specs.Valuation.{Valuation, values_of};
ghost use Rattle.isl_tower.specs.Bounded.{IsBoundedAt};
ghost use Rattle.isl_points.specs.Fibre.{IsFibre, IsFibreOf};
ghost use Rattle.isl_union.specs.Finite.{IsFiniteAt};
ghost use Rattle.isl_union.specs.Numbers.{IsWithinLimit};
ghost use Rattle.isl_scan.specs.Fault.{IsScanFault};
ghost use Rattle.isl_scan.specs.Gathered.{AreFibresOf, AreGathered, IsGroupOf, IsListable};
ghost use Rattle.isl_scan.specs.Groups.{elements_of, AreGroups};
ghost use Rattle.isl_scan.specs.Listing.{IsListingOf};

use crate::group::{Group, merged_groups, weight_of};
use crate::{Listing, ScanFault};
use isl_column::are_too_many;
use isl_meter::{Cut, Meter};
use isl_piece::Piece;
use isl_points::{Fibre, check_count};
use isl_union::Value;
use std::alloc::Global;

// The fibres of the pieces over these numbers for the parameters; none where one of the pieces has infinitely many elements there.
#[tactic(auto, using(std::proofs::lemmas::Grind::common_steps, isl_meter::proofs::CutLemmas::charges))]
fn fibres_over(
    alloc: Global,
    pieces: &[Piece],
    at: &[i128],
    meter: &mut Meter,
) -> Result<Option<Vec<Fibre>>, Cut>
    requires { All (IsListable meter.old at.now) pieces.now }
    ensures exact { IfOk result (λ found. MatchOption found (¬ All (λ piece. IsBoundedAt piece.system at.now) pieces.now)
        (λ fibres. AreFibresOf meter.old at.now pieces.now fibres.items)) }
    ensures meter { IsMetered meter.old meter.new result }
{
    let mut fibres = Vec::with_capacity(alloc, pieces.len())?;
    let mut weight = 0usize;
    for piece in pieces {
        let system = piece.system();
        if are_too_many(weight, &[], system.columns) {
            return Err(Cut::NoMemory);
        }
        match Fibre::over(alloc, system, at, meter)? {
            Some(fibre) => {
                weight = weight.saturating_add(fibre.weight());
                fibres.push(fibre)?;
            }
            None => return Ok(None),
        }
    }
    Ok(Some(fibres))
}

// The elements of the piece whose fibre this is.
#[tactic(auto, using(std::proofs::lemmas::Grind::common_steps, isl_meter::proofs::CutLemmas::charges))]
fn group_of(alloc: Global, piece: &Piece, fibre: &Fibre, meter: &mut Meter) -> Result<Group, Cut>
    requires space { IsWellFormedSpace piece.now.space }
    requires fibre { IsFibre meter.old fibre.now }
    ensures exact { (numbers : List ℤ) → IsListable meter.old numbers piece.now → IsFibreOf meter.old piece.now.system numbers fibre.now
        → IfOk result (IsGroupOf numbers piece.now) }
    ensures counted { IfOk result (λ group. length group.points + meter.old.units ≤ meter.new.units) }
    ensures meter { IsMetered meter.old meter.new result }
{
    let space = piece.space().copy()?;
    let title = space.text(alloc)?;
    let points = fibre.points(alloc, meter)?;
    Ok(Group {
        title,
        space,
        points,
    })
}

// The same as the only group, beside others of this weight.
#[tactic(auto, using(std::proofs::lemmas::Grind::common_steps, isl_meter::proofs::CutLemmas::charges))]
fn one_group(
    alloc: Global,
    piece: &Piece,
    fibre: &Fibre,
    kept: usize,
    meter: &mut Meter,
) -> Result<Vec<Group>, Cut>
    requires { (numbers : List ℤ) × IsListable meter.old numbers piece.now × IsFibreOf meter.old piece.now.system numbers fibre.now }
    ensures exact { (numbers : List ℤ) → IsListable meter.old numbers piece.now → IsFibreOf meter.old piece.now.system numbers fibre.now
        → IfOk result (λ groups. AreGathered numbers (piece.now ∷ []) groups.items) }
    ensures counted { IfOk result (λ groups. length (elements_of groups.items) + meter.old.units ≤ meter.new.units) }
    ensures meter { IsMetered meter.old meter.new result }
{
    let group = group_of(alloc, piece, fibre, meter)?;
    check_count(kept.saturating_add(group.weight()))?;
    let mut groups = Vec::new(alloc);
    groups.push(group)?;
    Ok(groups)
}

// The elements of the pieces whose fibres these are, beside others of this weight: of one half of them, and of the other.
#[tactic(auto, using(std::proofs::lemmas::Grind::common_steps, isl_meter::proofs::CutLemmas::charges))]
fn groups_of(
    alloc: Global,
    pieces: &[Piece],
    fibres: &[Fibre],
    kept: usize,
    meter: &mut Meter,
) -> Result<Vec<Group>, Cut>
    requires { (numbers : List ℤ) × AreFibresOf meter.old numbers pieces.now fibres.now }
    ensures sound { IfOk result (λ groups. AreGroups groups.items) }
    ensures exact { (numbers : List ℤ) → AreFibresOf meter.old numbers pieces.now fibres.now
        → IfOk result (λ groups. AreGathered numbers pieces.now groups.items) }
    ensures counted { IfOk result (λ groups. length (elements_of groups.items) + meter.old.units ≤ meter.new.units) }
    ensures meter { IsMetered meter.old meter.new result }
{
    match pieces {
        [] => Ok(Vec::new(alloc)),
        [piece] => one_group(alloc, piece, &fibres[0], kept, meter),
        _ => {
            let half = pieces.len() / 2;
            let (first_pieces, other_pieces) = pieces.split_at(half);
            let (first_fibres, other_fibres) = fibres.split_at(half);
            let firsts = groups_of(alloc, first_pieces, first_fibres, kept, meter)?;
            let more = kept.saturating_add(weight_of(firsts.as_slice()));
            let seconds = groups_of(alloc, other_pieces, other_fibres, more, meter)?;
            // There are no more elements than units, which 64 bits hold.
            let _units = meter.units();
            Ok(merged_groups(alloc, firsts, seconds)?)
        }
    }
}

/// The elements that the value has where its parameters have these numbers, in their order. Each uses a unit or more. (the iscc
/// chapter of the barvinok manual, on `scan`)
///
/// # Errors
///
/// `Unbounded` where there are infinitely many, which is found out before any is listed; and `Cut` by `Overflow` where a number passes
/// the limit of the meter, by `Budget` where its units are used up, and by `NoMemory`.
#[tactic(auto, using(std::proofs::lemmas::Grind::common_steps, isl_meter::proofs::CutLemmas::charges))]
pub fn scan(
    alloc: Global,
    value: &Value,
    at: &[i128],
    meter: &mut Meter,
) -> Result<Listing, ScanFault>
    requires within { IsWithinLimit meter.old value.now }
    requires numbers { length at.now ≡ length value.now.params }
    ensures listed { (valuation : Valuation) → values_of value.now.params valuation ≡ at.now
        → IfOk result (IsListingOf value.now valuation) }
    ensures unbounded { (valuation : Valuation) → values_of value.now.params valuation ≡ at.now
        → result ≡ Err ScanFault.Unbounded → ¬ IsFiniteAt value.now valuation }
    ensures counted { IfOk result (λ listing. length listing + meter.old.units ≤ meter.new.units) }
    ensures meter { MatchResult result (λ _. IsCharged meter.old meter.new) (IsScanFault meter.old meter.new) }
{
    let flat = value.flat(alloc, meter)?;
    let pieces = flat.pieces();
    let fibres = match fibres_over(alloc, pieces, at, meter)? {
        Some(fibres) => fibres,
        None => return Err(ScanFault::Unbounded),
    };
    let groups = groups_of(alloc, pieces, fibres.as_slice(), 0, meter)?;
    // There are no more elements than units, which 64 bits hold.
    let _units = meter.units();
    Ok(Listing { groups })
}
