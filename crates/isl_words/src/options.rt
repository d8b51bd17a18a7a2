//! What the command line chooses.

ghost use Rattle.std.specs.Prelude.{◌≡◌};
ghost use Rattle.isl_words.specs.Options.{IsChoice};

use isl_space::Name;
use std::marker::Model;

// The fewest and the most bits that the magnitudes of numbers may have, and how many they have where none are chosen.
pub(crate) const MIN_BITS: u128 = 8;

pub(crate) const MAX_BITS: u128 = 127;

pub(crate) const USUAL_BITS: u128 = 127;

// The fewest and the most units of work that a statement may be given, and how many it has where none are chosen.
pub(crate) const MIN_BUDGET: u128 = 1;

pub(crate) const MAX_BUDGET: u128 = 1_000_000_000_000;

pub(crate) const USUAL_BUDGET: u128 = 10_000_000;

// The fewest and the most sizes for which a script may be made.
pub(crate) const MIN_MADE: u128 = 1;

pub(crate) const MAX_MADE: u128 = 1000;

// The option table: each option's name, and whether a value stands behind it.
pub(crate) const TABLE: [(&str, bool); 7] = [
    ("bits", true),
    ("budget", true),
    ("at", true),
    ("run", false),
    ("make", true),
    ("keep-going", false),
    ("cert", false),
];

/// What a session works with. Numbers have magnitudes of at most `2^bits - 1`, and a statement may use `budget` units of work. `at` gives
/// parameters their numbers where elements are listed and loops are run; `run` asks for the calls of loops in place of their text. `make`
/// asks for the script that is made for so many sizes, in place of one that is read; `keep_going` asks that refused statements are skipped,
/// `cert` that each `True` is followed by its proofs.
#[derive(Drop)]
pub struct Options {
    pub(crate) bits: u32,
    pub(crate) budget: u64,
    pub(crate) at: Vec<(Name, i128)>,
    pub(crate) run: bool,
    pub(crate) make: Option<u64>,
    pub(crate) keep_going: bool,
    pub(crate) cert: bool,
}

impl Model for Options {
    ghost use Rattle.isl_words.specs.Options.{OptionsView, AreInRange};

    ghost Value = { OptionsView };

    ghost view = { λ o. record {
      bits = o.bits;
      budget = o.budget;
      at = o.at.items;
      run = o.run;
      make = o.make;
      keep_going = o.keep_going;
      cert = o.cert;
    } };

    ghost invariant = { λ o. AreInRange o.bits o.budget o.at.items o.make };
}

impl Options {
    /// How many bits the magnitudes of numbers may have.
    pub fn bits(&self) -> u32
        ensures bits { result ≡ self.now.bits }
        ensures choice { IsChoice self.now }
    {
        self.bits
    }

    /// How many units of work a statement may use.
    pub fn budget(&self) -> u64
        ensures { result ≡ self.now.budget }
    {
        self.budget
    }

    /// The parameters that have numbers, with their numbers.
    pub fn at(&self) -> &[(Name, i128)]
        ensures { result.now ≡ self.now.at }
    {
        self.at.as_slice()
    }

    /// Whether the calls of loops are asked for in place of their text.
    pub fn run(&self) -> bool
        ensures { result ≡ self.now.run }
    {
        self.run
    }

    /// For how many sizes a script is made, where none is read. There are at least 1 and at most 1,000.
    pub fn make(&self) -> Option<u64>
        ensures { result ≡ self.now.make }
    {
        self.make
    }

    /// Whether refused statements are skipped.
    pub fn keep_going(&self) -> bool
        ensures { result ≡ self.now.keep_going }
    {
        self.keep_going
    }

    /// Whether each `True` is followed by its proofs.
    pub fn cert(&self) -> bool
        ensures { result ≡ self.now.cert }
    {
        self.cert
    }
}
