//! The whole program over a source and two sinks.

ghost use Rattle.std.specs.Prelude.{◌≡◌, ◌≢◌, ◌⊎◌, ◌≤◌, ℕ, List, map, string_bytes, Some, None};
ghost use Rattle.std.specs.Prelude.{IfSome, IsNone, IsSome};
ghost use Rattle.std.specs.Prelude.{false};
ghost use Rattle.std.specs.Io.KnownBytes.{Appends};
ghost use Rattle.isl_math.specs.Count.{Rose};
ghost use Rattle.isl_meter.specs.Gauge.{Gauge};
ghost use Rattle.isl_words.specs.Options.{OptionsView};
ghost use Rattle.isl_words.specs.Taken.{AreTaken};
ghost use Rattle.isl_session.specs.View.{begun};
ghost use Rattle.isl_session.specs.Lines.{fault_line, usage_line};
ghost use Rattle.isl_session.specs.Run.{Answered, outside};
ghost use Rattle.isl_session.specs.StencilRun.{StencilAnswered};
ghost use Rattle.isl_session.specs.Valid.{IsGiven, IsValidScript, IsDoneOrMemory};
ghost use Rattle.isl_stencil.specs.Stencil.{stencil};

use crate::refused::{refuse_memory, refuse_usage};
use crate::script::run_script;
use crate::stencil::run_stencil;
use crate::{Session, Status};
use isl_io::{Sink, Source};
use isl_refusal::Refusal;
use isl_space::limits::STATEMENT_MAX;
use isl_words::{WordsFault, read_words};
use std::alloc::{AllocError, Global};

/// Does all that the program does: judges the words, answers the script that `src` has left on `out`, and tells
/// a refusal on `err`.
///
/// The words, of which the first is the program's name, choose the options of the session. Where loops are run, `codegen` gives their calls. Each
/// statement is answered as soon as it is read, before the bytes behind it are taken; no more than 2^30 + 1 bytes are read. Where going on
/// is chosen, refused statements are skipped, and each is told. Where a script is made, nothing is read, and one line says how much was
/// answered.
pub fn run<S: Source, K: Sink, E: Sink>(
    alloc: Global,
    words: &[String],
    src: &mut S,
    out: &mut K,
    err: &mut E,
) -> Status
    // Who hands over a script: what is read of it, answered, written and told, however its bytes arrive and whatever the ends tell.
    ensures answered { (options : OptionsView) → AreTaken (map string_bytes words.now) options → options.make ≡ None
        → IsSome result.meter → (script : List ℕ) × Answered (begun options) script
        (outside (S.left src.old) (S.faults src.old) (K.written out.old) (K.faults out.old)
        (E.written err.old) (E.faults err.old))
        (outside (S.left src.new) (S.faults src.new) (K.written out.new) (K.faults out.new)
        (E.written err.new) (E.faults err.new))
        result }
    ensures quiet { result.refusal ≡ None → err.new ≡ err.old }

    // Who has one made: the source is not read, and of the answers only their numbers are written, on one line.
    ensures unread { (options : OptionsView) → AreTaken (map string_bytes words.now) options
        → IsSome options.make → src.new ≡ src.old }
    ensures summed { (options : OptionsView) (sizes : ℕ) → AreTaken (map string_bytes words.now) options
        → options.make ≡ Some sizes → IsSome result.meter
        → StencilAnswered (begun options) (stencil sizes)
        (outside (S.left src.old) (S.faults src.old) (K.written out.old) (K.faults out.old)
        (E.written err.old) (E.faults err.old))
        (outside (S.left src.new) (S.faults src.new) (K.written out.new) (K.faults out.new)
        (E.written err.new) (E.faults err.new))
        result }

    // Whose script is valid: it is answered whole, unless memory ends or a count rises.
    ensures complete { (options : OptionsView) → AreTaken (map string_bytes words.now) options
        → (script : List ℕ) → IsGiven options.make (S.left src.old) script
        → IsValidScript (begun options) script
        → ¬ (Rose (S.faults src.old) (S.faults src.new))
        → ¬ (Rose (K.faults out.old) (K.faults out.new))
        → ((meter : Gauge) → result.meter ≡ Some meter → (¬ Rose 0 meter.overflows) × (¬ Rose 0 meter.spents))
        → IsDoneOrMemory result.refusal }

    // Who reads the status: each fault that it can tell by was counted, in this run and at its own place.
    ensures read_fault { result.refusal ≡ Some Refusal.ReadFault
        → Rose (S.faults src.old) (S.faults src.new) }
    ensures write_fault { result.refusal ≡ Some Refusal.WriteFault
        → Rose (K.faults out.old) (K.faults out.new) }
    ensures overflow { result.refusal ≡ Some Refusal.Overflow
        → IfSome result.meter (λ meter. Rose 0 meter.overflows) }
    ensures budget { result.refusal ≡ Some Refusal.Budget
        → IfSome result.meter (λ meter. Rose 0 meter.spents) }
    ensures units { (options : OptionsView) → AreTaken (map string_bytes words.now) options
        → options.keep_going ≡ false → result.refusal ≡ Some Refusal.Budget
        → IfSome result.meter (λ meter. meter.budget ≤ meter.units) }

    // Who owns the ends: where none is skipped, a read that failed is what the status tells, and so is a failed write of an answer.
    ensures reads { (options : OptionsView) → AreTaken (map string_bytes words.now) options
        → options.keep_going ≡ false → result.refusal ≢ Some Refusal.ReadFault
        → S.faults src.new ≡ S.faults src.old }
    ensures writes { (options : OptionsView) → AreTaken (map string_bytes words.now) options
        → options.keep_going ≡ false → result.refusal ≢ Some Refusal.WriteFault
        → K.faults out.new ≡ K.faults out.old }

    // Who writes the words: others are refused before anything is read, and the usage line is told, unless memory ends before.
    ensures usage { ((options : OptionsView) → ¬ (AreTaken (map string_bytes words.now) options))
        → IsNone result.meter }
    ensures only_usage { result.refusal ≡ Some Refusal.Usage
        → (options : OptionsView) → ¬ (AreTaken (map string_bytes words.now) options) }
    ensures session { IsNone result.meter → (src.new ≡ src.old) × (out.new ≡ out.old)
        × ((result.refusal ≡ Some Refusal.Usage) ⊎ (result.refusal ≡ Some Refusal.NoMemory)) }
    ensures usage_line { result.refusal ≡ Some Refusal.Usage
        → ¬ (Rose (E.faults err.old) (E.faults err.new))
        → Appends (E.written err.old) (E.written err.new) usage_line }
    ensures memory_line { IsNone result.meter → result.refusal ≡ Some Refusal.NoMemory
        → ¬ (Rose (E.faults err.old) (E.faults err.new))
        → Appends (E.written err.old) (E.written err.new)
        (fault_line (record { statement = 1; refusal = Refusal.NoMemory })) }
{
    match read_words(alloc, words) {
        Ok(options) => {
            let made = options.make();
            match Session::with_room(alloc, options, STATEMENT_MAX) {
                Ok(session) => match made {
                    None => run_script(alloc, session, src, out, err),
                    Some(sizes) => run_stencil(alloc, session, sizes, out, err),
                },
                Err(AllocError) => refuse_memory(err),
            }
        }
        Err(WordsFault::NoMemory) => refuse_memory(err),
        Err(WordsFault::Usage) => refuse_usage(err),
    }
}
