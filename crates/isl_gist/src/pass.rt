//! The two passes over rows.

/// Which rows are asked for: first those that are no equations.
#[derive(Clone, Copy)]
pub(crate) enum Pass {
    Inequalities,
    Equations,
}
