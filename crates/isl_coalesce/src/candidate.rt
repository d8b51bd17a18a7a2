//! Pieces with guessed points.

ghost use Rattle.std.specs.Prelude.{◌≡◌, IfOk};
ghost use Rattle.isl_space.specs.Space.{space_form_of};
ghost use Rattle.isl_coalesce.specs.Found.{IsPlain};

use isl_elim::sample_point;
use isl_meter::{Cut, Meter};
use isl_piece::{Piece, System};
use isl_space::Space;
use std::alloc::{AllocError, Global};
use std::marker::Model;

// A guess may use so many units, which are not those of a statement.
const GUESS: u64 = 200;

// Of fewer pieces no point is guessed.
const LEAST_GUESSED: usize = 3;

/// A piece, and a guess at a point of it: no number where there is none. Contracts see the piece alone.
#[derive(Drop)]
pub(crate) struct Candidate {
    piece: Piece,
    point: Vec<i128>,
}

impl Model for Candidate {
    ghost use Rattle.isl_piece.specs.Piece.{PieceView};
    ghost use Rattle.isl_piece.specs.Stored.{piece_code};

    ghost Value = { PieceView };

    ghost coded = { piece_code };

    ghost view = { λ c. c.piece };
}

// A point of the system, or no number.
fn guess(alloc: Global, system: &System, meter: &Meter) -> Result<Vec<i128>, AllocError>
    requires { IsPlain meter.now system.now }
{
    // For the proof: the limit has at most 127 bits.
    let _bits = meter.limit();
    let mut calculator = Meter::new(127, GUESS);
    match sample_point(alloc, system, &mut calculator) {
        Ok(Some(point)) => Ok(point),
        Ok(None) | Err(Cut::Overflow | Cut::Budget) => Ok(Vec::new(alloc)),
        Err(Cut::NoMemory) => Err(AllocError),
    }
}

impl Candidate {
    /// The piece, with a guess where it is one of so many that this pays.
    ///
    /// # Errors
    ///
    /// `AllocError` where memory ends.
    pub(crate) fn of(
        alloc: Global,
        piece: &Piece,
        count: usize,
        meter: &Meter,
    ) -> Result<Candidate, AllocError>
        requires { IsPlain meter.now piece.now.system }
        ensures { IfOk result (λ candidate. candidate ≡ piece.now) }
    {
        let point = if count < LEAST_GUESSED {
            Vec::new(alloc)
        } else {
            guess(alloc, piece.system(), meter)?
        };
        Ok(Candidate {
            piece: piece.copy()?,
            point,
        })
    }

    pub(crate) fn piece(&self) -> &Piece
        ensures { result.now ≡ self.now }
    {
        &self.piece
    }

    pub(crate) fn space(&self) -> &Space
        ensures { space_form_of result.now ≡ self.now.space }
    {
        self.piece.space()
    }

    pub(crate) fn system(&self) -> &System
        ensures { result.now ≡ self.now.system }
    {
        self.piece.system()
    }

    /// The guess.
    pub(crate) fn point(&self) -> &[i128] {
        self.point.as_slice()
    }

    /// Puts a piece with the same points, and maybe more, in its place.
    pub(crate) fn replace(&mut self, piece: Piece)
        ensures { self.new ≡ piece }
    {
        self.piece = piece;
    }
}
