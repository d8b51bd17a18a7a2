//! Pieces that are kept until they are put together with others, each found by its space.

ghost use Rattle.std.specs.Prelude.{◌≡◌, ◌<◌, ◌++◌, ◌∷◌, [], ℕ, List, All, IfOk, OnOk, MatchOption, if◌then◌else◌, get_or, length, map};
ghost use Rattle.std.specs.List.{remove};
ghost use Rattle.std.specs.Str.{bytes_eq};
ghost use Rattle.isl_meter.specs.Gauge.{IsMetered};
ghost use Rattle.isl_space.specs.Names.{AreDistinct};
ghost use Rattle.isl_space.specs.Space.{space_form_of};
ghost use Rattle.isl_space.specs.SpaceForm.{space_text_of};
ghost use Rattle.isl_union.specs.Piece.{kept_piece};
ghost use Rattle.isl_assumed.specs.Assumed.{Assumes};
ghost use Rattle.isl_coalesce.specs.Found.{IsJointPiece, IsKnownFor, IsPlainPiece};
ghost use Rattle.isl_coalesce.specs.Joint.{AreUnjoined, IsJointAt};
ghost use Rattle.isl_coalesce.specs.Slots.{places_of, present};

use crate::candidate::Candidate;
use crate::joint::{Peers, first_joint};
use indexmap::IndexMap;
use isl_assumed::Assumed;
use isl_meter::{Cut, Meter};
use isl_piece::Piece;
use isl_space::{Name, Params, Space};
use std::alloc::{AllocError, Global};
use std::marker::Model;

/// The places of the pieces of one space.
#[derive(Drop)]
struct Places {
    places: Vec<usize>,
}

impl Model for Places {
    ghost use Rattle.std.specs.Prelude.{List, ℕ};
    ghost use Rattle.isl_coalesce.specs.Stored.{places_code};

    ghost Value = { List ℕ };

    ghost coded = { places_code };

    ghost view = { λ p. p.places.items };
}

impl Places {
    fn new(alloc: Global) -> Places
        ensures { result ≡ [] }
    {
        Places {
            places: Vec::new(alloc),
        }
    }

    fn push(&mut self, place: usize) -> Result<(), AllocError>
        ensures { OnOk result (self.new ≡ self.old ++ place ∷ []) }
    {
        self.places.push(place)?;
        Ok(())
    }

    fn remove(&mut self, index: usize)
        requires { index < length self.old }
        ensures { self.new ≡ remove self.old index }
    {
        self.places.remove(index);
    }

    fn as_slice(&self) -> &[usize]
        ensures { result.now ≡ self.now }
    {
        self.places.as_slice()
    }
}

// The text of a space, under which its places are found.
fn title_of(alloc: Global, space: &Space) -> Result<Name, AllocError>
    ensures { IfOk result (λ title. title ≡ space_text_of (space_form_of space.now)) }
{
    let text = space.text(alloc)?;
    Name::new(alloc, text.as_str())
}

// Puts a place behind those of its title.
fn put_place(
    alloc: Global,
    groups: &mut IndexMap<Name, Places>,
    title: Name,
    place: usize,
) -> Result<(), AllocError>
    ensures { OnOk result ((other : List ℕ) → places_of other groups.new.entries
        ≡ places_of other groups.old.entries ++ (if bytes_eq title other then place ∷ [] else [])) }
{
    let mut places = match groups.swap_remove(&title) {
        Some(places) => places,
        None => Places::new(alloc),
    };
    places.push(place)?;
    groups.insert(title, places)?;
    Ok(())
}

// Takes one of the places of the title away.
fn forget_place(groups: &mut IndexMap<Name, Places>, title: &Name, index: usize)
    requires { index < length (places_of title.now groups.old.entries) }
    ensures { (other : List ℕ) → places_of other groups.new.entries
        ≡ (if bytes_eq title.now other then remove (places_of other groups.old.entries) index else places_of other groups.old.entries) }
{
    if let Some(places) = groups.get_mut(title) {
        places.remove(index);
    }
}

// The pieces of the slots.
fn pieces_of(alloc: Global, slots: &[Option<Candidate>]) -> Result<Vec<Piece>, AllocError>
    ensures { IfOk result (λ pieces. pieces.items ≡ present slots.now) }
{
    let mut pieces = Vec::with_capacity(alloc, slots.len())?;
    for slot in slots {
        if let Some(candidate) = slot {
            pieces.push(candidate.piece().copy()?)?;
        }
    }
    Ok(pieces)
}

/// Pieces in order, found by their spaces without a look at the others. Contracts see the list of the pieces.
#[derive(Drop)]
pub(crate) struct Kept {
    slots: Vec<Option<Candidate>>,
    groups: IndexMap<Name, Places>,
}

impl Model for Kept {
    ghost use Rattle.std.specs.Prelude.{List};
    ghost use Rattle.isl_piece.specs.Piece.{PieceView};
    ghost use Rattle.isl_coalesce.specs.Slots.{AreGrouped, present};
    ghost use Rattle.isl_coalesce.specs.Stored.{pieces_code};

    ghost Value = { List PieceView };

    ghost coded = { pieces_code };

    ghost view = { λ k. present k.slots.items };

    ghost invariant = { λ k. AreGrouped k.slots.items k.groups.entries };
}

impl Kept {
    /// No piece.
    pub(crate) fn new(alloc: Global) -> Kept
        ensures { result ≡ [] }
    {
        Kept {
            slots: Vec::new(alloc),
            groups: IndexMap::new(alloc),
        }
    }

    /// The pieces, with another one behind them.
    ///
    /// # Errors
    ///
    /// Where memory ends.
    pub(crate) fn pushed(self, alloc: Global, piece: Candidate) -> Result<Kept, AllocError>
        ensures { IfOk result (λ kept. kept ≡ self ++ piece ∷ []) }
    {
        let mut kept = self;
        let title = title_of(alloc, piece.space())?;
        put_place(alloc, &mut kept.groups, title, kept.slots.len())?;
        kept.slots.push(Some(piece))?;
        Ok(kept)
    }

    /// Takes out the first of the pieces that has a joint piece with this one, and gives that. Pieces of other spaces are not looked at.
    ///
    /// # Errors
    ///
    /// As every call under a meter.
    pub(crate) fn take_joint(
        &mut self,
        alloc: Global,
        params: &Params,
        known: &Assumed,
        piece: &Candidate,
        meter: &mut Meter,
    ) -> Result<Option<Piece>, Cut>
        requires names { AreDistinct params.now }
        requires known { IsKnownFor meter.old params.now known.now }
        requires pieces { All (IsPlainPiece meter.old params.now) self.old }
        requires piece { IsPlainPiece meter.old params.now piece.now }
        ensures exact { IfOk result (λ found. MatchOption found
            ((self.new ≡ self.old)
            × All (λ other. AreUnjoined (IsJointAt (Assumes known.now) params.now) other (kept_piece piece.now)) (map kept_piece self.old))
            (λ joint. (at : ℕ) × (at < length self.old) × (self.new ≡ remove self.old at)
            × IsJointPiece meter.old (Assumes known.now) params.now (get_or self.old at piece.now) piece.now joint)) }
        ensures meter { IsMetered meter.old meter.new result }
    {
        let title = title_of(alloc, piece.space())?;
        let Some(places) = self.groups.get(&title) else {
            return Ok(None);
        };
        let peers = Peers {
            slots: self.slots.as_slice(),
            places: places.as_slice(),
        };
        match first_joint(alloc, params, known, peers, piece, meter)? {
            Some(found) => {
                self.slots[found.place] = None;
                forget_place(&mut self.groups, &title, found.index);
                Ok(Some(found.joint))
            }
            None => Ok(None),
        }
    }

    /// The pieces.
    ///
    /// # Errors
    ///
    /// Where memory ends.
    pub(crate) fn pieces(&self, alloc: Global) -> Result<Vec<Piece>, AllocError>
        ensures { IfOk result (λ pieces. pieces.items ≡ self.now) }
    {
        pieces_of(alloc, self.slots.as_slice())
    }
}
