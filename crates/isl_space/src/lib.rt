//! What the elements of a value look like: names, shapes, spaces, and lists of parameters.
#![tactic(auto)]

pub mod fault;
pub mod limits;
pub mod name;
pub mod params;
pub mod shape;
pub mod space;

pub use fault::SpaceFault;
pub use name::Name;
pub use params::Params;
pub use shape::Shape;
pub use space::Space;
