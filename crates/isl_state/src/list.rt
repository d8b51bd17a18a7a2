//! Lists: two values, as `last` answers them.

use isl_union::Value;
use std::rc::Rc;

/// One of the two values of a list.
#[derive(Clone, Copy)]
pub enum ListPart {
    /// The value that `[0]` selects.
    First,
    /// The value that `[1]` selects.
    Second,
}

/// The two values of a list, which may have several names.
#[derive(Drop)]
pub struct ListValue {
    pub first: Rc<Value>,
    pub second: Rc<Value>,
}
