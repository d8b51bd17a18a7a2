//! Values made simpler: in a context, with fewer pieces, and by equations alone.
#![tactic(auto)]

pub use isl_coalesce::coalesce;
pub use isl_gist::gist;
pub use isl_hull::affine_hull;
