//! How long texts become.

ghost use Rattle.std.specs.Prelude.{◌<◌, ◌≤◌, OnErr, OnOk};

use std::alloc::AllocError;

// How many bytes a text has at most to which more is added. More count as want of memory, so that memory is bounded as time is.
const MOST_BYTES: usize = 67_108_864;

/// Whether more may be added to a text of so many bytes.
///
/// # Errors
///
/// `AllocError` exactly where it is longer than what is kept.
pub fn check_length(bytes: usize) -> Result<(), AllocError>
    ensures within { OnOk result (bytes ≤ 67108864) }
    ensures fault { OnErr result (67108864 < bytes) }
{
    if bytes > MOST_BYTES {
        return Err(AllocError);
    }
    Ok(())
}
