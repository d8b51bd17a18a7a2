//! What is done to each piece of a value: of each is made one piece or none, in their order.

ghost use Rattle.std.specs.Prelude.{◌≡◌, ◌↔◌, ◌≤◌, [], ◌∷◌, ℕ, List, All, Any, map};
ghost use Rattle.std.specs.Prelude.{IfOk, IfErr, IfSome, IsTrue, option_map, option_to_list};
ghost use Rattle.isl_space.specs.Element.{Element};
ghost use Rattle.isl_space.specs.Name.{Name};
ghost use Rattle.isl_space.specs.Space.{space_form_of};
ghost use Rattle.isl_space.specs.SpaceForm.{IsWellFormedSpace};
ghost use Rattle.isl_space.specs.Valuation.{Valuation};
ghost use Rattle.isl_piece.specs.Normal.{IsNormal};
ghost use Rattle.isl_piece.specs.System.{HoldsSystem, IsSystemWithin, free_columns};
ghost use Rattle.isl_elim.specs.Sample.{IsNowhere};
ghost use Rattle.isl_union.specs.KeptValue.{Has, HasNoDefinitions, IsKeptValue, columns_of};
ghost use Rattle.isl_union.specs.Live.{settled};
ghost use Rattle.isl_union.specs.Numbers.{AreWithinLimit, HasNumbersUpTo, IsWithinLimit};
ghost use Rattle.isl_union.specs.Piece.{kept_piece, piece_of, IsPieceOf};
ghost use Rattle.isl_maps.specs.Change.{added_number, formed_space, selects, AddsColumns, AreImages, FormsWide, KeepsColumns};
ghost use Rattle.isl_maps.specs.Change.{IsChangedSystem, IsChangeFault, IsSpaceFault};

use crate::copied::{
    domain_map_space, domain_map_system, identity_space, identity_system, range_map_space,
    range_map_system,
};
use crate::wrapped::{unwrapped_space, wrapped_space};
use crate::zipped::{zipped_space, zipped_system};
use isl_meter::Meter;
use isl_piece::{Piece, System};
use isl_space::{Params, Space, SpaceFault};
use isl_union::{OpFault, Value, push_found, settled_piece};
use std::alloc::{AllocError, Global};

// The operations.
#[derive(Clone, Copy)]
pub(crate) enum Change {
    Wrap,
    Unwrap,
    Zip,
    Identity,
    DomainMap,
    RangeMap,
}

impl Change {
    // Whether the columns stay where they are, and there are no others.
    fn keeps_columns(self) -> bool
        ensures { IsTrue result ↔ KeepsColumns self }
    {
        match self {
            Change::Wrap | Change::Unwrap => true,
            Change::Zip | Change::Identity | Change::DomainMap | Change::RangeMap => false,
        }
    }

    // Whether there are more columns than before.
    fn adds_columns(self) -> bool
        ensures { IsTrue result ↔ AddsColumns self }
    {
        match self {
            Change::Wrap | Change::Unwrap | Change::Zip => false,
            Change::Identity | Change::DomainMap | Change::RangeMap => true,
        }
    }

    // The space that it forms of this one; none where an element of this one gives none.
    fn formed_space(self, alloc: Global, space: &Space) -> Result<Option<Space>, SpaceFault>
        requires { IsWellFormedSpace (space_form_of space.now) }
        ensures made { IfOk result (λ found. option_map space_form_of found ≡ formed_space self (space_form_of space.now)) }
        ensures well_formed { IfOk result (λ found. IfSome found (λ formed. IsWellFormedSpace (space_form_of formed))) }
        ensures faults { IfErr result (IsSpaceFault (FormsWide self (space_form_of space.now))) }
    {
        match self {
            Change::Wrap => wrapped_space(alloc, space),
            Change::Unwrap => unwrapped_space(space),
            Change::Zip => zipped_space(alloc, space),
            Change::Identity => identity_space(space),
            Change::DomainMap => domain_map_space(alloc, space),
            Change::RangeMap => range_map_space(alloc, space),
        }
    }

    // The system over the formed space.
    fn system(self, alloc: Global, params: &Params, piece: &Piece) -> Result<System, AllocError>
        requires { IsPieceOf params.now piece.now }
        ensures { IfOk result (IsChangedSystem self params.now piece.now) }
    {
        match self {
            Change::Wrap | Change::Unwrap => piece.system().copy(alloc),
            Change::Zip => zipped_system(alloc, params, piece),
            Change::Identity => identity_system(alloc, params, piece),
            Change::DomainMap => domain_map_system(alloc, params, piece),
            Change::RangeMap => range_map_system(alloc, params, piece),
        }
    }

    // The piece of the space with the system's normal rows, which are its own if its columns are those of a piece.
    fn piece(
        self,
        alloc: Global,
        space: Space,
        system: System,
        meter: &Meter,
    ) -> Result<Piece, AllocError>
        requires within { IsSystemWithin meter.now system }
        requires live { ¬ IsNowhere (free_columns system) (HoldsSystem system) }
        requires normal { KeepsColumns self → IsNormal system.rows }
        ensures exact { IfOk result (λ piece. kept_piece piece ≡ settled (piece_of (space_form_of space) system)) }
        ensures sound { (params : List Name) → IsWellFormedSpace (space_form_of space)
            → free_columns system ≡ columns_of params (space_form_of space) → IfOk result (IsPieceOf params) }
    {
        if self.keeps_columns() {
            return Piece::new(alloc, space, system);
        }
        settled_piece(alloc, &space, system, meter)
    }

    // What is made of a piece.
    fn image(
        self,
        alloc: Global,
        params: &Params,
        piece: &Piece,
        meter: &Meter,
    ) -> Result<Option<Piece>, OpFault>
        requires bits { 8 ≤ meter.now.bits }
        requires piece { IsPieceOf params.now piece.now }
        requires within { IsSystemWithin meter.now piece.now.system }
        ensures image { IfOk result
            (λ found. AreImages self params.now (kept_piece piece.now ∷ []) (option_to_list (option_map kept_piece found))) }
        ensures sound { IfOk result (λ found. IfSome found (IsPieceOf params.now)) }
        ensures faults { IfErr result (IsChangeFault (FormsWide self piece.now.space)) }
    {
        let Some(space) = self.formed_space(alloc, piece.space())? else {
            return Ok(None);
        };
        let system = self.system(alloc, params, piece)?;
        Ok(Some(self.piece(alloc, space, system, meter)?))
    }

    // What is made of the pieces.
    fn images(
        self,
        alloc: Global,
        params: &Params,
        pieces: &[Piece],
        meter: &Meter,
    ) -> Result<Vec<Piece>, OpFault>
        requires bits { 8 ≤ meter.now.bits }
        requires pieces { All (IsPieceOf params.now) pieces.now }
        requires within { AreWithinLimit meter.now pieces.now }
        ensures images { IfOk result (λ made. AreImages self params.now (map kept_piece pieces.now) (map kept_piece made.items)) }
        ensures sound { IfOk result (λ made. All (IsPieceOf params.now) made.items) }
        ensures faults { IfErr result (IsChangeFault (Any (λ piece. FormsWide self piece.space) pieces.now)) }
    {
        let mut made = Vec::with_capacity(alloc, pieces.len())?;
        for piece in pieces {
            push_found(&mut made, self.image(alloc, params, piece, meter)?)?;
        }
        Ok(made)
    }

    // Asks whether a space that it forms of one of the pieces' is too wide, which none is where it adds no column.
    fn ask_spaces(self, alloc: Global, pieces: &[Piece]) -> Result<(), OpFault>
        requires { All (λ piece. IsWellFormedSpace piece.space) pieces.now }
        ensures ok { IfOk result (λ _. All (λ piece. ¬ FormsWide self piece.space) pieces.now) }
        ensures faults { IfErr result (IsChangeFault (Any (λ piece. FormsWide self piece.space) pieces.now)) }
    {
        if !self.adds_columns() {
            return Ok(());
        }
        for piece in pieces {
            self.formed_space(alloc, piece.space())?;
        }
        Ok(())
    }

    // What is made of the pieces of a value. Spaces that are too wide are asked for first.
    pub(crate) fn apply(self, alloc: Global, a: &Value, meter: &Meter) -> Result<Value, OpFault>
        requires { IsWithinLimit meter.now a.now }

        // The value, and what it has.
        ensures kept { IfOk result IsKeptValue }
        ensures params { IfOk result (λ value. value.params ≡ a.now.params) }
        ensures elements { (valuation : Valuation) (element : Element)
            → IfOk result (λ value. Has value valuation element ↔ selects self (Has a.now valuation) element) }

        // How it is written.
        ensures definitions { HasNoDefinitions a.now → IfOk result HasNoDefinitions }
        ensures numbers { (most : ℕ) → added_number self ≤ most → HasNumbersUpTo most a.now → IfOk result (HasNumbersUpTo most) }

        // What the call learned, and why there is no value.
        ensures operand { IsKeptValue a.now }
        ensures bits { 8 ≤ meter.now.bits }
        ensures ok { IfOk result (λ _. All (λ piece. ¬ FormsWide self piece.space) a.now.pieces) }
        ensures faults { IfErr result (IsChangeFault (Any (λ piece. FormsWide self piece.space) a.now.pieces)) }
    {
        // For what a meter keeps: it has at least 8 bits.
        let _limit = meter.limit();
        let params = a.params();
        self.ask_spaces(alloc, a.pieces())?;
        let pieces = self.images(alloc, params, a.pieces(), meter)?;
        Ok(Value::from_normal(params.copy(alloc)?, pieces))
    }
}
