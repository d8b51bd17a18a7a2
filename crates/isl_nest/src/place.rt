//! Where a tree of loops stands.

ghost use Rattle.std.specs.Prelude.{◌≡◌, ◌+◌, ◌^◌, ◌<◌, IfOk};

use isl_frame::{widened, with_variable};
use isl_piece::{Row, Rows};
use std::alloc::{AllocError, Global};

/// Where a tree stands: how many parameters and loop variables are in scope, what these say of the columns so far, as quotients of forms,
/// and rows over them that hold there.
#[derive(Drop)]
pub struct Place {
    pub variables: usize,
    pub frame: Rows,
    pub context: Rows,
}

impl Place {
    ghost use Rattle.isl_nest.specs.Nest.{with_context, with_entry, with_loop};

    // The place where these rows hold too.
    pub(crate) fn with_context(&self, alloc: Global, rows: &Rows) -> Result<Place, AllocError>
        ensures { IfOk result (λ place. place ≡ with_context self.now rows.now) }
    {
        let mut context = self.context.copy(alloc)?;
        context.append(alloc, rows)?;
        Ok(Place {
            variables: self.variables,
            frame: self.frame.copy(alloc)?,
            context,
        })
    }

    /// The place with one column more, which the entry tells, where these rows hold.
    ///
    /// # Errors
    ///
    /// Where memory ends.
    pub fn with_entry(&self, alloc: Global, entry: &Row, rows: &Rows) -> Result<Place, AllocError>
        ensures { IfOk result (λ place. place ≡ with_entry self.now entry.now rows.now) }
    {
        let mut place = self.with_context(alloc, rows)?;
        place.frame.push(entry.copy(alloc)?)?;
        Ok(place)
    }

    /// The place with one variable more, which is the next column, where these rows hold.
    ///
    /// # Errors
    ///
    /// Where memory ends.
    pub fn with_loop(&self, alloc: Global, rows: &Rows) -> Result<Place, AllocError>
        requires { self.now.variables + 1 < 2 ^ 64 }
        ensures { IfOk result (λ place. place ≡ with_loop self.now rows.now) }
    {
        let mut context = widened(alloc, &self.context)?;
        context.append(alloc, rows)?;
        Ok(Place {
            variables: self.variables + 1,
            frame: with_variable(alloc, &self.frame, self.variables)?,
            context,
        })
    }
}
