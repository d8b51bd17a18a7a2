//! Systems that cover the fronts of points.

ghost use Rattle.std.specs.Prelude.{◌≡◌, ◌∷◌, ◌++◌, [], OnOk};

use isl_piece::Rows;
use std::alloc::{AllocFailed, Global};
use std::marker::Model;

/// Systems over the same first columns, of which one holds wherever these begin a point.
#[derive(Drop)]
pub struct Cover {
    systems: Vec<Rows>,
}

impl Model for Cover {
    ghost use Rattle.std.specs.Prelude.{List};
    ghost use Rattle.isl_piece.specs.declared.row.Row.{Row};

    ghost Value = { List (List Row) };

    ghost view = { λ c. c.systems.items };
}

impl Cover {
    /// No system.
    pub fn new(alloc: Global) -> Cover
        ensures { result ≡ [] }
    {
        Cover {
            systems: Vec::new(alloc),
        }
    }

    /// One system more.
    pub fn push(&mut self, rows: Rows) -> Result<(), AllocFailed<Rows>>
        ensures { OnOk result (self.new ≡ self.old ++ rows ∷ []) }
    {
        self.systems.push(rows)
    }

    pub fn as_slice(&self) -> &[Rows]
        ensures { result.now ≡ self.now }
    {
        self.systems.as_slice()
    }
}
