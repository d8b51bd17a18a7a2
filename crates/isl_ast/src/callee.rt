//! What runs call.

ghost use Rattle.std.specs.Prelude.{OnOk};

use isl_space::Name;
use std::alloc::AllocError;

/// What takes the calls of a run, one after another.
pub trait Callee {
    ghost use Rattle.isl_loop.specs.Run.{Event};

    ghost called: { Self → Event → Self → Type 0 };

    /// Takes a call: the name of what is called, where it has one, and the numbers that it gets.
    ///
    /// # Errors
    ///
    /// Where memory ends.
    fn call(&mut self, name: &Option<Name>, args: &[i128]) -> Result<(), AllocError>
        ensures { OnOk result (called self.old (record { name = name.now; args = args.now }) self.new) };
}
