//! What holds of printed values that are read again. These functions do nothing: their contracts are the laws.

ghost use Rattle.std.specs.Prelude.{◌≡◌, ◌<◌, ◌≤◌, ℕ, List, true};
ghost use Rattle.isl_meter.specs.Gauge.{Gauge};
ghost use Rattle.isl_union.specs.KeptValue.{KeptValue, HasNoDefinitions, IsKeptValue};
ghost use Rattle.isl_union.specs.Numbers.{HasNumbersUpTo, IsWithinLimit};
ghost use Rattle.isl_print.specs.OrderedValue.{ordered};
ghost use Rattle.isl_print.specs.Printed.{printed};
ghost use Rattle.isl_text.specs.Formed.{are_alike};
ghost use Rattle.isl_text.specs.Limits.{is_within};
ghost use Rattle.isl_token.specs.Number.{too_great};
ghost use Rattle.isl_tree.specs.declared.tree.Literal.{Literal};
ghost use Rattle.isl_tree.specs.Known.{literal_is_known};
ghost use Rattle.isl_tree.specs.Plain.{is_plain};
ghost use Rattle.isl_lower.specs.Value.{HasSameElements, IsWellFormedLiteral, value_lowered};
ghost use Rattle.isl_values.specs.State.{Moment, unbound};
ghost use Rattle.isl_eval.specs.Machine.{Answer};
ghost use Rattle.isl_eval.specs.Run.{Answers, Run};
ghost use Rattle.isl_round_trip.specs.Accepted.{HasQuietNames, IsAccepted};
ghost use Rattle.isl_round_trip.specs.Tree.{printed_tree};
ghost use Rattle.isl_round_trip.specs.Written.{HasFewRemainders, HasWritableNumbers, IsUniform, value_written};
ghost use Rattle.isl_round_trip.specs.RoundTrip.{IsWritableValue, ReadsBack, Writes};
ghost use Rattle.isl_round_trip.specs.TakenAgain.{AreTakenAgain, AreWritable, IsTakenAgain, ShowsLive};

/// The text of a value writes its printed tree.
pub fn printed_tree_is_spelled()
    ensures { (value : KeptValue) → IsKeptValue value → HasWritableNumbers value → IsUniform value
        → Writes (printed value) (printed_tree value) }
{}

/// The printed tree is plain.
pub fn printed_tree_is_plain()
    ensures { (value : KeptValue) → IsKeptValue value → is_plain (printed_tree value) ≡ true }
{}

/// The printed tree keeps the limits of literals, where no piece has more remainders than they allow.
pub fn printed_tree_is_within()
    ensures { (value : KeptValue) → IsKeptValue value → HasFewRemainders value → is_within (printed_tree value) ≡ true }
{}

/// Each name of the printed tree is known, and what it declares is what a value may have.
pub fn printed_tree_is_known()
    ensures known { (value : KeptValue) → IsKeptValue value → literal_is_known (printed_tree value) ≡ true }
    ensures well_formed { (value : KeptValue) → IsKeptValue value → IsWellFormedLiteral (printed_tree value) }
{}

/// The rows that the printed tree writes are those of the value, in the order in which they are printed, and they are their
/// own normal rows.
pub fn printed_tree_is_kept()
    ensures written { (value : KeptValue) → IsKeptValue value → HasNoDefinitions value
        → value_written (printed_tree value) ≡ ordered value }
    ensures normal { (value : KeptValue) → IsKeptValue value → HasNoDefinitions value
        → value_lowered (printed_tree value) ≡ ordered value }
{}

/// The text of a value that one plain literal can write is that literal; what is read of it is the value again, with the
/// same elements, and printed again it is the same text.
pub fn round_trip()
    ensures { (value : KeptValue) → IsWritableValue value → ReadsBack value }
{}

/// A reader of literals that keeps the contract of `read_literal` accepts the text of such a value: it answers the printed
/// tree, unless memory runs out, where no number is above the limit, no piece has more remainders than a literal's may have, and no name
/// adds to the depth of the text.
pub fn printed_is_accepted()
    ensures { (limit : ℕ) (value : KeptValue) → limit < too_great → IsWritableValue value → HasFewRemainders value
        → HasNumbersUpTo limit value → HasQuietNames value → IsAccepted limit value }
{}

/// A kept value with the elements of a literal, whose pieces are alike, can be written where it defines no column and its numbers are
/// within the limit of a meter.
pub fn lowered_is_writable()
    ensures { (gauge : Gauge) (literal : Literal) (value : KeptValue) → gauge.bits ≤ 127 → are_alike literal.pieces ≡ true
        → IsKeptValue value → HasNoDefinitions value → HasSameElements literal value → IsWithinLimit gauge value
        → IsWritableValue value }
{}

/// Where the text of a value that one plain literal can write is answered as a statement, whatever is assumed there, its answer shows what
/// is live of the value: the pieces that have an element at an assumed valuation.
pub fn printed_shows_what_is_live()
    ensures { (before : Moment) (value : KeptValue) → IsWritableValue value → ShowsLive before value }
{}

/// What the program shows of a value that is no list, it takes again: the text of the line is a statement, which shows a literal with
/// exactly the elements of the value, and whatever answers it behind the statement, where the same is assumed, answers the same line. It
/// needs that what is bound can be written; this holds where nothing is bound, and each answered statement keeps it, an assumption too.
pub fn shown_is_taken_again()
    ensures taken { (before : Moment) (bytes : List ℕ) (after : Moment) (answer : Answer) → before.meter.bits ≤ 127
        → AreWritable before.state → (answered : Answers before bytes after answer) → IsTakenAgain before answered.stmt after answer }
    ensures kept { (before : Moment) (bytes : List ℕ) (after : Moment) (answer : Answer) → before.meter.bits ≤ 127
        → AreWritable before.state → Answers before bytes after answer → AreWritable after.state }
    ensures start { AreWritable unbound }
{}

/// The same of whole runs: whatever their statements show, the program takes again, and what is bound behind them can be written.
pub fn run_is_taken_again()
    ensures taken { (before : Moment) (script : List (List ℕ)) (answers : List Answer) (after : Moment) → before.meter.bits ≤ 127
        → AreWritable before.state → (run : Run before script answers after) → AreTakenAgain before script answers after run }
    ensures kept { (before : Moment) (script : List (List ℕ)) (answers : List Answer) (after : Moment) → before.meter.bits ≤ 127
        → AreWritable before.state → Run before script answers after → AreWritable after.state }
{}
