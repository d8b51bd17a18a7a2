//! The union of two values.

ghost use Rattle.std.specs.Prelude.{◌≡◌, ◌↔◌, ◌⊎◌, ◌+◌, ◌≤◌, ℕ, List, All, Contains, IfOk, MatchResult, length, map};
ghost use Rattle.isl_space.specs.Element.{Element};
ghost use Rattle.isl_space.specs.Limits.{most_parameters};
ghost use Rattle.isl_space.specs.Name.{Name};
ghost use Rattle.isl_space.specs.Names.{joined};
ghost use Rattle.isl_space.specs.Valuation.{Valuation};
ghost use Rattle.isl_union.specs.Fault.{IsPlainFault};
ghost use Rattle.isl_union.specs.KeptValue.{Has, HasNoDefinitions, IsKeptValue};
ghost use Rattle.isl_union.specs.Moved.{aligned_pieces};
ghost use Rattle.isl_union.specs.Numbers.{HasNumbersUpTo, IsWithinLimit};
ghost use Rattle.isl_union.specs.Piece.{kept_piece, IsPieceOf};
ghost use Rattle.isl_union.specs.Tame.{size_of, AreOfSizes, IsOfSize};
ghost use Rattle.isl_union.specs.Union.{AreOfBoth, IsUnionOf};

use crate::aligned::{aligned_pieces, taken_pieces};
use crate::pieces::append;
use crate::same::are_same_pieces;
use crate::{OpFault, Value};
use isl_meter::Meter;
use isl_piece::Piece;
use isl_space::Params;
use std::alloc::{AllocError, Global};
use std::rc::Rc;

// The pieces of both lists: where they are equal, those of one of them.
fn of_both(own: Vec<Piece>, others: Vec<Piece>) -> Result<Vec<Piece>, AllocError>
    ensures both { IfOk result
        (λ pieces. AreOfBoth (map kept_piece own.items) (map kept_piece others.items) (map kept_piece pieces.items)) }
    ensures sound { (params : List Name) → All (IsPieceOf params) own.items → All (IsPieceOf params) others.items
        → IfOk result (λ pieces. All (IsPieceOf params) pieces.items) }
{
    if are_same_pieces(own.as_slice(), others.as_slice()) {
        return Ok(own);
    }
    let mut pieces = own;
    append(&mut pieces, others)?;
    Ok(pieces)
}

// The pieces of the value over all parameters. Where it declares these, and nothing else holds it, they are taken and not copied.
fn own_pieces(
    alloc: Global,
    all: &Params,
    value: Rc<Value>,
    meter: &Meter,
) -> Result<Vec<Piece>, AllocError>
    requires among { All (Contains all.now) value.value.params }
    requires within { IsWithinLimit meter.now value.value }
    ensures kept { IsKeptValue value.value }
    ensures exact { IfOk result (λ pieces. map kept_piece pieces.items ≡ aligned_pieces all.now value.value) }
    ensures sound { IfOk result (λ pieces. All (IsPieceOf all.now) pieces.items) }
{
    match Rc::try_unwrap(value) {
        Ok(own) => taken_pieces(alloc, all, own, meter),
        Err(shared) => aligned_pieces(alloc, all, &shared, meter),
    }
}

impl Value {
    /// The elements of both values, over the joined parameters: the pieces of this value, and then those of the other; where the two
    /// lists are equal, the pieces of one of them. Where a value declares all of the parameters in their order, its pieces stay, with
    /// their systems; else the columns of its rows stand at other places, and the rows are made normal. No unit is used. (isl manual, on
    /// set and relation operations)
    ///
    /// # Errors
    ///
    /// `TooWide` exactly where the two together declare more than 16 parameters, unless memory ends; and `NoMemory`.
    pub fn union(&self, alloc: Global, other: &Value, meter: &mut Meter) -> Result<Value, OpFault>
        requires own { IsWithinLimit meter.old self.now }
        requires other { IsWithinLimit meter.old other.now }
        ensures written { IfOk result (IsUnionOf self.now other.now) }
        ensures kept { IfOk result IsKeptValue }
        ensures params { IfOk result (λ value. value.params ≡ joined self.now.params other.now.params) }
        ensures same_params { self.now.params ≡ other.now.params
            → IfOk result (λ value. AreOfBoth self.now.pieces other.now.pieces value.pieces) }
        ensures elements { (valuation : Valuation) (element : Element)
            → IfOk result (λ value. Has value valuation element ↔ (Has self.now valuation element ⊎ Has other.now valuation element)) }
        ensures definitions { HasNoDefinitions self.now → HasNoDefinitions other.now → IfOk result HasNoDefinitions }
        ensures numbers { (most : ℕ) → HasNumbersUpTo most self.now → HasNumbersUpTo most other.now → IfOk result (HasNumbersUpTo most) }
        ensures sizes { (own others columns bits : ℕ) → AreOfSizes own others columns bits self.now other.now
            → IfOk result (λ value. IsOfSize value.params (size_of (own + others) columns bits) value) }
        ensures faults { MatchResult result (λ _. length (joined self.now.params other.now.params) ≤ most_parameters)
            (IsPlainFault (joined self.now.params other.now.params)) }
        ensures meter { meter.new ≡ meter.old }
    {
        let (params, _places) = self.params().align(alloc, other.params())?;
        let own = aligned_pieces(alloc, &params, self, meter)?;
        let others = aligned_pieces(alloc, &params, other, meter)?;
        let pieces = of_both(own, others)?;
        Ok(Value::from_normal(params, pieces))
    }
}

/// `Value::union` of a value that may be shared. Where it is not, and declares all of the parameters in their order, its pieces are taken:
/// what that costs does not grow with their number, unless the other value has as many.
///
/// # Errors
///
/// As `Value::union`.
pub fn extended(
    alloc: Global,
    left: Rc<Value>,
    other: &Value,
    meter: &mut Meter,
) -> Result<Value, OpFault>
    requires own { IsWithinLimit meter.old left.value }
    requires other { IsWithinLimit meter.old other.now }
    ensures written { IfOk result (IsUnionOf left.value other.now) }
    ensures kept { IfOk result IsKeptValue }
    ensures params { IfOk result (λ value. value.params ≡ joined left.value.params other.now.params) }
    ensures same_params { left.value.params ≡ other.now.params
        → IfOk result (λ value. AreOfBoth left.value.pieces other.now.pieces value.pieces) }
    ensures elements { (valuation : Valuation) (element : Element)
        → IfOk result (λ value. Has value valuation element ↔ (Has left.value valuation element ⊎ Has other.now valuation element)) }
    ensures definitions { HasNoDefinitions left.value → HasNoDefinitions other.now → IfOk result HasNoDefinitions }
    ensures numbers { (most : ℕ) → HasNumbersUpTo most left.value → HasNumbersUpTo most other.now → IfOk result (HasNumbersUpTo most) }
    ensures sizes { (own others columns bits : ℕ) → AreOfSizes own others columns bits left.value other.now
        → IfOk result (λ value. IsOfSize value.params (size_of (own + others) columns bits) value) }
    ensures faults { MatchResult result (λ _. length (joined left.value.params other.now.params) ≤ most_parameters)
        (IsPlainFault (joined left.value.params other.now.params)) }
    ensures meter { meter.new ≡ meter.old }
{
    let (params, _places) = left.params().align(alloc, other.params())?;
    let own = own_pieces(alloc, &params, left, meter)?;
    let others = aligned_pieces(alloc, &params, other, meter)?;
    let pieces = of_both(own, others)?;
    Ok(Value::from_normal(params, pieces))
}
