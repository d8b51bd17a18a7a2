//! What a statement is skipped for, and the room to tell it.

ghost use Rattle.std.specs.Prelude.{◌≡◌, ◌<◌, true, OnOk, vec_len, vec_capacity};

use crate::{Fault, Options};
use std::alloc::AllocError;

// Room for one more fault, where refused statements are skipped.
pub(crate) fn room_for_fault(options: &Options, skipped: &mut Vec<Fault>) -> Result<(), AllocError>
    ensures same { skipped.new.items ≡ skipped.old.items }
    ensures room { OnOk result (options.now.keep_going ≡ true → vec_len skipped.new < vec_capacity skipped.new) }
{
    if options.keep_going() {
        return skipped.reserve(1);
    }
    Ok(())
}
