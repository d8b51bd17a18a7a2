//! The table of words: how each word before an operand is spelled, which operands it takes, and what kind of call it is.

ghost use Rattle.std.specs.Prelude.{◌≡◌, map};
ghost use Rattle.isl_tree.specs.Words as spec;

use crate::statement::{Prefix, ValueKind};

/// What a word asks for that is shown with its operand.
#[derive(Clone, Copy, PartialEq, Eq)]
pub enum Question {
    /// The value that it makes.
    Value,
    /// The elements of its operand.
    Elements,
    /// Loops that visit the elements of its operand.
    Loops,
    /// Trees of the least elements, or of the least images, of its operand.
    Trees,
}

/// A row of the table of words.
#[derive(Clone, Copy)]
pub struct Word {
    /// The kind of what it makes of a set, if it takes one.
    pub of_set: Option<ValueKind>,
    /// The kind of what it makes of a map, if it takes one.
    pub of_map: Option<ValueKind>,
    /// What it asks for.
    pub asks: Question,
    /// It moves columns, doubles them or takes them out.
    pub moves: bool,
    /// It looks at what its operand has at assumed valuations alone: for something at each, or for what holds at all of them.
    pub looks: bool,
    /// It chooses what it makes.
    pub chooses: bool,
    /// It puts pieces together.
    pub joins: bool,
    /// It may use units of work.
    pub works: bool,
}

const SPELLINGS: [(&[u8], Prefix); 19] = [
    (b"dom", Prefix::Domain),
    (b"domain", Prefix::Domain),
    (b"ran", Prefix::Range),
    (b"range", Prefix::Range),
    (b"deltas", Prefix::Deltas),
    (b"identity", Prefix::Identity),
    (b"wrap", Prefix::Wrap),
    (b"unwrap", Prefix::Unwrap),
    (b"zip", Prefix::Zip),
    (b"domain_map", Prefix::DomainMap),
    (b"range_map", Prefix::RangeMap),
    (b"lexmin", Prefix::LexMin),
    (b"lexmax", Prefix::LexMax),
    (b"aff", Prefix::AffineHull),
    (b"coalesce", Prefix::Coalesce),
    (b"sample", Prefix::Sample),
    (b"scan", Prefix::Scan),
    (b"codegen", Prefix::Codegen),
    (b"pip", Prefix::Pip),
];

const SET: Option<ValueKind> = Some(ValueKind::Set);

const MAP: Option<ValueKind> = Some(ValueKind::Map);

const MOVING: Word = Word {
    of_set: None,
    of_map: MAP,
    asks: Question::Value,
    moves: true,
    looks: false,
    chooses: false,
    joins: false,
    works: false,
};

const WORKING: Word = Word {
    of_set: SET,
    of_map: MAP,
    asks: Question::Value,
    moves: false,
    looks: false,
    chooses: false,
    joins: false,
    works: true,
};

/// The row of a word.
pub fn row_of(word: Prefix) -> Word
    ensures { result ≡ spec.word_row word }
{
    match word {
        Prefix::Domain | Prefix::Range | Prefix::Deltas => Word {
            of_map: SET,
            works: true,
            ..MOVING
        },
        Prefix::Wrap => Word {
            of_map: SET,
            ..MOVING
        },
        Prefix::Identity | Prefix::Unwrap => Word {
            of_set: MAP,
            of_map: None,
            ..MOVING
        },
        Prefix::Zip | Prefix::DomainMap | Prefix::RangeMap => MOVING,
        Prefix::LexMin | Prefix::LexMax | Prefix::AffineHull => Word {
            looks: true,
            ..WORKING
        },
        Prefix::Coalesce => Word {
            joins: true,
            ..WORKING
        },
        Prefix::Sample => Word {
            chooses: true,
            ..WORKING
        },
        Prefix::Scan => listing(Question::Elements, ValueKind::Listing),
        Prefix::Codegen => listing(Question::Loops, ValueKind::Code),
        Prefix::Pip => listing(Question::Trees, ValueKind::Tree),
    }
}

fn listing(asks: Question, kind: ValueKind) -> Word
    ensures { result ≡ spec.asking asks kind }
{
    Word {
        of_set: Some(kind),
        of_map: Some(kind),
        asks,
        ..WORKING
    }
}

/// What a table of texts has for the text.
pub fn look_up<A: Copy>(mut table: &[(&[u8], A)], text: &[u8]) -> Option<A>
    ensures { result ≡ spec.look_up (map (λ k. (k.0.now, k.1)) table.entry.now) text.now }
{
    while let [entry, rest @ ..] = table {
        if entry.0 == text {
            return Some(entry.1);
        }
        table = rest;
    }
    None
}

/// The word that a text spells, if it spells one.
#[tactic(auto, unfolding(crate::specs::Words::prefix_of))]
pub fn prefix_of(text: &[u8]) -> Option<Prefix>
    ensures { result ≡ spec.prefix_of text.now }
{
    look_up(&SPELLINGS, text)
}
