//! What one nest of loops visits.

use crate::Cover;
use isl_piece::Rows;
use isl_space::Name;

/// What one nest of loops visits: the calls of one name, at their times, told by rows over so many parameters and so many columns behind
/// them, of which the first are the time. The columns of the arguments are counted from the first parameter. `covers` has one more than
/// there are columns behind the parameters: one over the parameters, one over these and one column more, and so on.
#[derive(Drop)]
pub struct Item {
    pub name: Option<Name>,
    pub params: usize,
    pub levels: usize,
    pub times: usize,
    pub arguments: Vec<usize>,
    pub rows: Rows,
    pub covers: Vec<Cover>,
}
