//! Refusals that end a run, as they are told.

ghost use Rattle.std.specs.Prelude.{◌≡◌, ◌≤◌, Some, None};
ghost use Rattle.std.specs.Prelude.{Option};
ghost use Rattle.std.specs.Option.{option_or};
ghost use Rattle.std.specs.Io.KnownBytes.{Appends};
ghost use Rattle.isl_math.specs.Count.{Rose};
ghost use Rattle.isl_session.specs.Lines.{fault_line, usage_line, words_line, words_refusal};

use crate::write::{write_fault, write_usage};
use crate::{Fault, Status};
use isl_io::Sink;
use isl_meter::Meter;
use isl_refusal::Refusal;
use isl_words::WordsFault;

// Tells of the fault that ends a run. The status is that of the first line, here of a statement that was skipped where there is one,
// whatever becomes of the lines.
pub(crate) fn refuse<E: Sink>(
    err: &mut E,
    fault: Fault,
    first: Option<Refusal>,
    meter: Option<Meter>,
) -> Status
    ensures status { result ≡ record { refusal = option_or first (Some fault.refusal); meter = meter } }
    ensures line { ¬ (Rose (E.faults err.old) (E.faults err.new))
        → Appends (E.written err.old) (E.written err.new) (fault_line fault) }
    ensures no_fewer_tells { E.faults err.old ≤ E.faults err.new }
{
    let _ = write_fault(err, fault);
    Status::new(first.or(Some(fault.refusal)), meter)
}

// Tells how the program is used. The status is that of words which are not taken, whatever becomes of the line.
pub(crate) fn refuse_usage<E: Sink>(err: &mut E) -> Status
    ensures status { result ≡ record { refusal = Some Refusal.Usage; meter = None } }
    ensures line { ¬ (Rose (E.faults err.old) (E.faults err.new))
        → Appends (E.written err.old) (E.written err.new) usage_line }
{
    let _ = write_usage(err);
    Status::new(Some(Refusal::Usage), None)
}

// Tells that memory ended before there was a session: while the words were read, or for the room of its longest statement. The line
// speaks of statement 1, since none was answered.
pub(crate) fn refuse_memory<E: Sink>(err: &mut E) -> Status
    ensures status { result ≡ record { refusal = Some Refusal.NoMemory; meter = None } }
    ensures line { ¬ (Rose (E.faults err.old) (E.faults err.new))
        → Appends (E.written err.old) (E.written err.new)
        (fault_line (record { statement = 1; refusal = Refusal.NoMemory })) }
{
    let fault = Fault {
        statement: 1,
        refusal: Refusal::NoMemory,
    };
    refuse(err, fault, None, None)
}

/// Tells that there are no words to run with: they are no text, or memory ended while they were handed over. Nothing is read.
pub fn refuse_words<E: Sink>(err: &mut E, fault: WordsFault) -> Status
    ensures status { result ≡ record { refusal = Some (words_refusal fault); meter = None } }
    ensures line { ¬ (Rose (E.faults err.old) (E.faults err.new))
        → Appends (E.written err.old) (E.written err.new) (words_line fault) }
{
    match fault {
        WordsFault::Usage => refuse_usage(err),
        WordsFault::NoMemory => refuse_memory(err),
    }
}
