//! Runs of a script that is made.

ghost use Rattle.std.specs.Prelude.{◌≡◌, ◌≢◌, ◌≤◌, ℕ, List, Option, Some, None, IfSome, IsSome, false};
ghost use Rattle.isl_math.specs.Count.{Rose};
ghost use Rattle.isl_session.specs.View.{moment_of, opened};
ghost use Rattle.isl_session.specs.Run.{outside};
ghost use Rattle.isl_session.specs.StencilRun.{StencilAnswered};
ghost use Rattle.isl_stencil.specs.Stencil.{most_sizes, stencil};

use crate::refused::refuse;
use crate::script::run_session;
use crate::write::write_summary;
use crate::{Fault, Session, Status};
use isl_io::{CleanSink, Failed, Sink};
use isl_refusal::Refusal;
use isl_stencil::Stencil;
use std::alloc::Global;

// Answers the script of so many sizes, and drops the answers. How much was answered is written at its end, unless a statement was
// skipped; what is skipped and a refusal are told.
fn answer_stencil<K: Sink, E: Sink>(
    alloc: Global,
    session: Session,
    sizes: u64,
    out: &mut K,
    err: &mut E,
) -> Status
    requires opened { session ≡ opened (moment_of session) }
    requires sizes { sizes ≤ most_sizes }
    ensures answered { (left : Option (List ℕ)) (reads : ℕ)
        → StencilAnswered (moment_of session) (stencil sizes)
        (outside left reads (K.written out.old) (K.faults out.old) (E.written err.old) (E.faults err.old))
        (outside left reads (K.written out.new) (K.faults out.new) (E.written err.new) (E.faults err.new))
        result }
    ensures quiet { result.refusal ≡ None → err.new ≡ err.old }
{
    let mut running = session;
    let mut script = Stencil::new(sizes);
    let mut dropped = CleanSink::new();
    let outcome = run_session(alloc, &mut running, &mut script, &mut dropped, err);
    let first = running.first_skip();
    let counts = running.counts();
    let meter = Some(running.into_meter());
    if let Err(fault) = outcome {
        return refuse(err, fault, first, meter);
    }
    if first.is_some() {
        return Status::new(first, meter);
    }
    match write_summary(out, counts) {
        Ok(()) => Status::new(None, meter),
        Err(Failed) => {
            let fault = Fault {
                statement: counts.statements + 1,
                refusal: Refusal::WriteFault,
            };
            refuse(err, fault, None, meter)
        }
    }
}

// The same. What the status tells was counted.
pub(crate) fn run_stencil<K: Sink, E: Sink>(
    alloc: Global,
    session: Session,
    sizes: u64,
    out: &mut K,
    err: &mut E,
) -> Status
    requires opened { session ≡ opened (moment_of session) }
    requires sizes { sizes ≤ most_sizes }
    ensures answered { (left : Option (List ℕ)) (reads : ℕ)
        → StencilAnswered (moment_of session) (stencil sizes)
        (outside left reads (K.written out.old) (K.faults out.old) (E.written err.old) (E.faults err.old))
        (outside left reads (K.written out.new) (K.faults out.new) (E.written err.new) (E.faults err.new))
        result }
    ensures quiet { result.refusal ≡ None → err.new ≡ err.old }

    // Each fault of the status was counted.
    ensures write_fault { result.refusal ≡ Some Refusal.WriteFault
        → Rose (K.faults out.old) (K.faults out.new) }
    ensures overflow { result.refusal ≡ Some Refusal.Overflow
        → IfSome result.meter (λ meter. Rose 0 meter.overflows) }
    ensures budget { result.refusal ≡ Some Refusal.Budget
        → IfSome result.meter (λ meter. Rose 0 meter.spents) }

    // Where none is skipped, the status tells of the last statement, and of a failed write.
    ensures units { session.options.keep_going ≡ false → result.refusal ≡ Some Refusal.Budget
        → IfSome result.meter (λ meter. meter.budget ≤ meter.units) }
    ensures writes { session.options.keep_going ≡ false → result.refusal ≢ Some Refusal.WriteFault
        → K.faults out.new ≡ K.faults out.old }

    // Nothing is read, the words were taken, and there is a session.
    ensures no_read { result.refusal ≢ Some Refusal.ReadFault }
    ensures no_usage { result.refusal ≢ Some Refusal.Usage }
    ensures session { IsSome result.meter }
{
    answer_stencil(alloc, session, sizes, out, err)
}
