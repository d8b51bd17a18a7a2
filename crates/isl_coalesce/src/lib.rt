//! Values with as few pieces as can be put together.
#![tactic(auto)]

mod beyond;
mod candidate;
mod joint;
mod kept;
mod parts;
mod together;

pub use together::coalesce;
