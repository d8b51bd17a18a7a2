//! Calls and their times, as systems.

use isl_piece::System;
use isl_space::Shape;
use std::rc::Rc;

/// What is called with points of one shape, and when: a system over the parameters, the numbers of the time, and then those of the
/// point, unless the time of each point is the point itself.
#[derive(Drop)]
pub struct Calls {
    pub domain: Rc<Shape>,
    pub time: Rc<Shape>,
    pub is_own: bool,
    pub system: System,
}
