//! Whether values have sets, and maps.

ghost use Rattle.std.specs.Prelude.{◌↔◌, IsTrue};
ghost use Rattle.isl_union.specs.KeptValue.{IsKeptValue};
ghost use Rattle.isl_operators.specs.Made.{HasMaps, HasSets};

use isl_space::Space;
use isl_union::Value;

/// Whether some piece is of maps.
pub(crate) fn has_maps(value: &Value) -> bool
    ensures told { IsTrue result ↔ HasMaps value.now }
    ensures kept { IsKeptValue value.now }
{
    for piece in value.pieces() {
        if let Space::Map(_, _) = piece.space() {
            return true;
        }
    }
    false
}

/// Whether some piece is of sets.
pub(crate) fn has_sets(value: &Value) -> bool
    ensures told { IsTrue result ↔ HasSets value.now }
    ensures kept { IsKeptValue value.now }
{
    for piece in value.pieces() {
        if let Space::Set(_) = piece.space() {
            return true;
        }
    }
    false
}

/// Whether both have maps.
pub(crate) fn have_maps(left: &Value, right: &Value) -> bool
    ensures { IsTrue result ↔ (HasMaps left.now × HasMaps right.now) }
{
    has_maps(left) && has_maps(right)
}

/// Whether both have sets.
pub(crate) fn have_sets(left: &Value, right: &Value) -> bool
    ensures { IsTrue result ↔ (HasSets left.now × HasSets right.now) }
{
    has_sets(left) && has_sets(right)
}

/// Whether the left one has maps and the right one sets, so that pairs may begin in it.
pub(crate) fn may_begin(left: &Value, right: &Value) -> bool
    ensures told { IsTrue result ↔ (HasMaps left.now × HasSets right.now) }
    ensures kept { IsTrue result → IsKeptValue left.now × IsKeptValue right.now }
{
    has_maps(left) && has_sets(right)
}
