//! The limits of this calculator, one place for all of its code. The definitions of the same numbers stand in specs/Limits.antt.

/// The most parameters that a value, or a literal, declares.
pub const MAX_PARAMETERS: usize = 16;

/// The most coordinates of an element, those of a map's two places counted together.
pub const MAX_COORDINATES: u32 = 64;

/// The most leaves of a space, those of a map's two places counted together.
pub const MAX_LEAVES: u32 = 64;

/// The most variables that a piece of a literal binds.
pub const MAX_BOUND: usize = 64;

/// The deepest that brackets, and words before an operand, are nested.
pub const MAX_DEPTH: usize = 200;

/// The most bytes of a statement, blanks and comments counted and its `;` not, and of the rest.
pub const STATEMENT_MAX: usize = 1 << 20;

/// The most bytes of a script that belong to its statements and its rest.
pub const SCRIPT_MAX: u64 = 1 << 30;
