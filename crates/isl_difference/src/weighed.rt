//! What lists are weighed by.

ghost use Rattle.std.specs.Prelude.{◌≡◌};
ghost use Rattle.isl_piece.specs.declared.system.System.{System};

use isl_piece::{Piece, System};

/// What keeps one system, whose rows take its memory.
pub trait Weighed {
    /// The system that it keeps.
    ghost weighed: { Self → System };

    fn weighed_system(&self) -> &System
        ensures { result.now ≡ weighed self.now };
}

impl Weighed for System {
    ghost weighed = { λ s. s };

    fn weighed_system(&self) -> &System {
        self
    }
}

impl Weighed for Piece {
    ghost weighed = { λ p. p.system };

    fn weighed_system(&self) -> &System {
        self.system()
    }
}
