//! Why a statement, a script or a command line is refused.

ghost use Rattle.std.specs.Prelude.{◌≡◌, ◌≢◌, MatchBool};
ghost use Rattle.isl_refusal.specs.Refusal.{code_of, in_statement, is_in_statement, place_of, text_of};

use std::alloc::{AllocError, AllocFailed};

/// Why a run ends before its script does.
#[derive(Clone, Copy, PartialEq, Eq)]
pub enum Refusal {
    /// The command line is none that the program takes.
    Usage,
    /// A complete statement spells nothing.
    Syntax,
    /// A name is unbound, or an identifier of a literal is unknown.
    UnknownName,
    /// An operation does not take operands of these kinds, or what would be bound may not be bound.
    WrongKind,
    /// A least or a greatest element is asked for and there is none.
    NoMinimum,
    /// There are infinitely many elements to list or to visit.
    Unbounded,
    /// A point is to be visited at several times.
    SeveralTimes,
    /// The times of two spaces differ in shape.
    TimeShape,
    /// A domain to be visited is a pair.
    Nested,
    /// A parameter has no value.
    Parametric,
    /// There are too many parameters, coordinates, leaves or bound variables.
    TooWide,
    /// Brackets and prefixes are nested too deeply.
    TooDeep,
    /// A number of the text is above the limit.
    WideNumber,
    /// A statement has too many bytes.
    TooLong,
    /// The script ends within a statement.
    Unfinished,
    /// A result of arithmetic is above the limit.
    Overflow,
    /// The budget of a statement is used up.
    Budget,
    /// A read failed.
    ReadFault,
    /// A write failed.
    WriteFault,
    /// Memory ran out.
    NoMemory,
    /// The script has too many bytes.
    ScriptTooLong,
    /// A list has no element with that number.
    NoElement,
    /// No valuation is left of the assumed ones.
    NoValuation,
    /// The numbers of the parameters are not assumed.
    NotAssumed,
}

// A row of the table of refusals.
#[derive(Clone, Copy)]
struct Row {
    status: u8,
    text: &'static str,
    // It comes about at the end of a statement, which is read and worked out.
    of_statement: bool,
}

fn new_row(status: u8, text: &'static str, of_statement: bool) -> Row
    ensures status { result.status ≡ status }
    ensures text { result.text.now ≡ text.now }
    ensures place { result.of_statement ≡ of_statement }
{
    Row {
        status,
        text,
        of_statement,
    }
}

impl Refusal {
    // What the table has.
    fn table_row(self) -> Row
        ensures status { result.status ≡ code_of self }
        ensures text { result.text.now ≡ text_of self }
        ensures place { result.of_statement ≡ is_in_statement (place_of self) }
    {
        match self {
            Refusal::Usage => new_row(
                2,
                "usage: iscc [--bits B] [--budget N] [--at NAME=INT,..] [--run] [--make N] [--keep-going] [--cert]",
                false,
            ),
            Refusal::Syntax => new_row(3, "syntax error", true),
            Refusal::UnknownName => new_row(4, "unknown name", true),
            Refusal::WrongKind => new_row(5, "wrong kind of operand", true),
            Refusal::NoMinimum => new_row(6, "no least or greatest element", true),
            Refusal::Unbounded => new_row(7, "infinitely many elements", true),
            Refusal::SeveralTimes => new_row(8, "a point has several times", true),
            Refusal::TimeShape => new_row(9, "time shapes differ", true),
            Refusal::Nested => new_row(10, "nested domain", true),
            Refusal::Parametric => new_row(11, "parameter without a value", true),
            Refusal::TooWide => new_row(12, "too wide", true),
            Refusal::TooDeep => new_row(13, "too deep", true),
            Refusal::WideNumber => new_row(14, "number too large", true),
            Refusal::TooLong => new_row(15, "statement too long", false),
            Refusal::Unfinished => new_row(16, "unfinished statement", false),
            Refusal::Overflow => new_row(17, "arithmetic overflow", true),
            Refusal::Budget => new_row(18, "budget spent", true),
            Refusal::ReadFault => new_row(19, "read failed", false),
            Refusal::WriteFault => new_row(20, "write failed", false),
            Refusal::NoMemory => new_row(21, "out of memory", false),
            Refusal::ScriptTooLong => new_row(22, "script too long", false),
            Refusal::NoElement => new_row(23, "no such element", true),
            Refusal::NoValuation => new_row(24, "no valuation left", true),
            Refusal::NotAssumed => new_row(25, "valuation not assumed", true),
        }
    }

    /// The exit status of a run that ends so.
    pub fn code(&self) -> u8
        ensures { result ≡ code_of self.now }
    {
        self.table_row().status
    }

    /// What is told of it. Of `Usage` it is the whole usage line, without its line feed.
    pub fn text(&self) -> &'static str
        ensures { result.now ≡ text_of self.now }
    {
        self.table_row().text
    }

    /// Whether it comes about at the end of a statement, which is read and worked out.
    #[tactic(auto, using(crate::proofs::PlaceLaws::told))]
    pub fn is_of_statement(&self) -> bool
        ensures { MatchBool result (place_of self.now ≡ in_statement) (place_of self.now ≢ in_statement) }
    {
        self.table_row().of_statement
    }
}

impl From<AllocError> for Refusal {
    ghost use Rattle.std.specs.Prelude.{◌≡◌};
    ghost use Rattle.isl_refusal.specs.declared.refusal.Refusal.TheVariants.{NoMemory};

    ghost from_gives = { λ _ refusal. refusal ≡ NoMemory };

    fn from(_error: AllocError) -> Refusal {
        Refusal::NoMemory
    }
}

impl<T: Drop> From<AllocFailed<T>> for Refusal {
    ghost use Rattle.std.specs.Prelude.{◌≡◌};
    ghost use Rattle.isl_refusal.specs.declared.refusal.Refusal.TheVariants.{NoMemory};

    ghost from_gives = { λ _ refusal. refusal ≡ NoMemory };

    fn from(_error: AllocFailed<T>) -> Refusal {
        Refusal::NoMemory
    }
}
