//! A session over a script that a source has.

ghost use Rattle.std.specs.Prelude.{◌<◌, ◌≡◌, ◌≢◌, ◌+◌, ◌≤◌, ℕ, List, length, Some, None, OnOk};
ghost use Rattle.std.specs.Prelude.{IfErr, IfSome, IsSome};
ghost use Rattle.std.specs.Prelude.{false};
ghost use Rattle.std.specs.Io.KnownBytes.{Appends, Consumes, IsAtEnd};
ghost use Rattle.isl_math.specs.Count.{Rose};
ghost use Rattle.isl_space.specs.Limits.{most_script_bytes};
ghost use Rattle.isl_script.specs.Script.{IsBlank};
ghost use Rattle.isl_refusal.specs.Refusal.{place_of};
ghost use Rattle.isl_session.specs.View.{Fed, IsReady, moment_of, opened, passed};
ghost use Rattle.isl_session.specs.Outcome.{Outcome, lines_from, text_of};
ghost use Rattle.isl_session.specs.Run.{Answered, Halts, Told, outside};

use crate::refused::refuse;
use crate::write::{tell_all, write_all};
use crate::{Fault, Session, Status};
use isl_io::{Failed, Sink, Source};
use isl_refusal::Refusal;
use isl_space::limits::SCRIPT_MAX;
use std::alloc::Global;

// How many bytes a read asks for.
const PIECE: usize = 4096;

// Takes a piece of the script. Each answer is written, and each skipped statement told, before the bytes behind the statement are taken.
fn answer_piece<K: Sink, E: Sink>(
    alloc: Global,
    session: &mut Session,
    out: &mut K,
    err: &mut E,
    piece: &[u8],
) -> Result<(), Fault>
    requires { IsReady session.old }
    ensures ok { OnOk result ((outcomes : List Outcome)
        × Appends (K.written out.old) (K.written out.new) (text_of outcomes)
        × Told (E.written err.old) (E.faults err.old) (E.written err.new) (E.faults err.new)
        (lines_from (passed session.old) outcomes)
        × Fed session.old piece.now outcomes session.new) }
    ensures err { IfErr result (λ fault. (outcomes : List Outcome) × (gained : List ℕ)
        × Appends (K.written out.old) (K.written out.new) gained
        × Told (E.written err.old) (E.faults err.old) (E.written err.new) (E.faults err.new)
        (lines_from (passed session.old) outcomes)
        × Halts ⊥ (Rose (K.faults out.old) (K.faults out.new)) ⊥
        session.old piece.now outcomes gained session.new fault (place_of fault.refusal)) }
    ensures kept { OnOk result (K.faults out.new ≡ K.faults out.old) }
    ensures writes { IfErr result (λ fault. fault.refusal ≢ Refusal.WriteFault → K.faults out.new ≡ K.faults out.old) }
    ensures no_fewer_tells { E.faults err.old ≤ E.faults err.new }
    ensures quiet { session.new.first ≡ None → (session.old.first ≡ None) × (err.new ≡ err.old) }
{
    let mut text = Vec::new(alloc);
    let mut skipped = Vec::new(alloc);
    let mut at = 0;
    while at < piece.len() {
        text.clear();
        skipped.clear();
        match session.take_front(&piece[at..], &mut text, &mut skipped) {
            Ok(n) => at += n,
            Err(fault) => return Err(fault),
        }
        tell_all(err, &skipped);
        if let Err(Failed) = write_all(out, &text) {
            return Err(Fault {
                statement: session.passed(),
                refusal: Refusal::WriteFault,
            });
        }
    }
    Ok(())
}

// How many bytes the next read may take where `taken` were read so far: at most `most`, and no more than one
// behind the last that a script may have.
fn room_for(taken: u64, most: usize) -> usize
    requires room { 0 < most }
    requires within { taken ≤ most_script_bytes }
    ensures some { 0 < result }
    ensures most { result ≤ most }
    ensures few { taken + result ≤ most_script_bytes + 1 }
{
    let left = SCRIPT_MAX + 1 - taken;
    left.min(most as u64) as usize
}

// Takes the script as it arrives: each answer is written before the bytes behind its statement are taken, and so before the next read.
// What was read before a read fails is answered.
fn answer_all<S: Source, K: Sink, E: Sink>(
    alloc: Global,
    session: &mut Session,
    src: &mut S,
    out: &mut K,
    err: &mut E,
    buf: &mut [u8],
) -> Result<(), Fault>
    requires ready { IsReady session.old }
    requires first { session.old.taken ≡ 0 }
    requires room { 0 < length buf.old }
    ensures ok { OnOk result ((taken : List ℕ) × (outcomes : List Outcome)
        × Consumes (S.left src.old) (S.left src.new) taken × IsAtEnd (S.left src.new)
        × Appends (K.written out.old) (K.written out.new) (text_of outcomes)
        × Told (E.written err.old) (E.faults err.old) (E.written err.new) (E.faults err.new)
        (lines_from (passed session.old) outcomes)
        × Fed session.old taken outcomes session.new) }
    ensures err { IfErr result (λ fault. (taken : List ℕ) × (outcomes : List Outcome) × (gained : List ℕ)
        × Consumes (S.left src.old) (S.left src.new) taken
        × (length taken ≤ most_script_bytes + 1)
        × Appends (K.written out.old) (K.written out.new) gained
        × Told (E.written err.old) (E.faults err.old) (E.written err.new) (E.faults err.new)
        (lines_from (passed session.old) outcomes)
        × Halts (Rose (S.faults src.old) (S.faults src.new)) (Rose (K.faults out.old) (K.faults out.new)) ⊥
        session.old taken outcomes gained session.new fault (place_of fault.refusal)) }
    ensures kept { OnOk result ((S.faults src.new ≡ S.faults src.old) × (K.faults out.new ≡ K.faults out.old)) }
    ensures reads { IfErr result (λ fault. fault.refusal ≢ Refusal.ReadFault → S.faults src.new ≡ S.faults src.old) }
    ensures writes { IfErr result (λ fault. fault.refusal ≢ Refusal.WriteFault → K.faults out.new ≡ K.faults out.old) }
    ensures no_fewer_tells { E.faults err.old ≤ E.faults err.new }
    ensures quiet { session.new.first ≡ None → (session.old.first ≡ None) × (err.new ≡ err.old) }
{
    'reads: loop {
        let room = room_for(session.taken(), buf.len());
        let piece = &mut buf[..room];
        match src.read(piece) {
            Ok(0) => return Ok(()),
            Ok(n) => {
                if let Err(fault) = answer_piece(alloc, session, out, err, &piece[..n]) {
                    return Err(fault);
                }
            }
            Err(Failed) => {
                return Err(Fault {
                    statement: session.passed() + 1,
                    refusal: Refusal::ReadFault,
                });
            }
        }
    }
}

// Answers the whole script.
pub(crate) fn run_session<S: Source, K: Sink, E: Sink>(
    alloc: Global,
    session: &mut Session,
    src: &mut S,
    out: &mut K,
    err: &mut E,
) -> Result<(), Fault>
    requires ready { IsReady session.old }
    requires first { session.old.taken ≡ 0 }
    ensures ok { OnOk result ((taken : List ℕ) × (outcomes : List Outcome)
        × Consumes (S.left src.old) (S.left src.new) taken × IsAtEnd (S.left src.new)
        × Appends (K.written out.old) (K.written out.new) (text_of outcomes)
        × Told (E.written err.old) (E.faults err.old) (E.written err.new) (E.faults err.new)
        (lines_from (passed session.old) outcomes)
        × Fed session.old taken outcomes session.new × IsBlank session.new.rest) }
    ensures err { IfErr result (λ fault. (taken : List ℕ) × (outcomes : List Outcome) × (gained : List ℕ)
        × Consumes (S.left src.old) (S.left src.new) taken
        × (length taken ≤ most_script_bytes + 1)
        × Appends (K.written out.old) (K.written out.new) gained
        × Told (E.written err.old) (E.faults err.old) (E.written err.new) (E.faults err.new)
        (lines_from (passed session.old) outcomes)
        × Halts (Rose (S.faults src.old) (S.faults src.new)) (Rose (K.faults out.old) (K.faults out.new))
        (IsAtEnd (S.left src.new)) session.old taken outcomes gained session.new fault (place_of fault.refusal)) }
    ensures kept { OnOk result ((S.faults src.new ≡ S.faults src.old) × (K.faults out.new ≡ K.faults out.old)) }
    ensures reads { IfErr result (λ fault. fault.refusal ≢ Refusal.ReadFault → S.faults src.new ≡ S.faults src.old) }
    ensures writes { IfErr result (λ fault. fault.refusal ≢ Refusal.WriteFault → K.faults out.new ≡ K.faults out.old) }
    ensures no_fewer_tells { E.faults err.old ≤ E.faults err.new }
    ensures quiet { session.new.first ≡ None → err.new ≡ err.old }
{
    let mut buf = [0; PIECE];
    if let Err(fault) = answer_all(alloc, session, src, out, err, &mut buf) {
        return Err(fault);
    }
    session.finish(&mut Vec::new(alloc))
}

// Answers the script, and tells what is skipped and a refusal.
fn answer_script<S: Source, K: Sink, E: Sink>(
    alloc: Global,
    session: Session,
    src: &mut S,
    out: &mut K,
    err: &mut E,
) -> Status
    requires opened { session ≡ opened (moment_of session) }
    ensures answered { (script : List ℕ) × Answered (moment_of session) script
        (outside (S.left src.old) (S.faults src.old) (K.written out.old) (K.faults out.old)
        (E.written err.old) (E.faults err.old))
        (outside (S.left src.new) (S.faults src.new) (K.written out.new) (K.faults out.new)
        (E.written err.new) (E.faults err.new))
        result }
    ensures quiet { result.refusal ≡ None → err.new ≡ err.old }
{
    let mut running = session;
    let outcome = run_session(alloc, &mut running, src, out, err);
    let first = running.first_skip();
    match outcome {
        Ok(()) => Status::new(first, Some(running.into_meter())),
        Err(fault) => refuse(err, fault, first, Some(running.into_meter())),
    }
}

// The same. What the status tells was counted.
pub(crate) fn run_script<S: Source, K: Sink, E: Sink>(
    alloc: Global,
    session: Session,
    src: &mut S,
    out: &mut K,
    err: &mut E,
) -> Status
    requires opened { session ≡ opened (moment_of session) }
    ensures answered { (script : List ℕ) × Answered (moment_of session) script
        (outside (S.left src.old) (S.faults src.old) (K.written out.old) (K.faults out.old)
        (E.written err.old) (E.faults err.old))
        (outside (S.left src.new) (S.faults src.new) (K.written out.new) (K.faults out.new)
        (E.written err.new) (E.faults err.new))
        result }
    ensures quiet { result.refusal ≡ None → err.new ≡ err.old }

    // Each fault of the status was counted.
    ensures read_fault { result.refusal ≡ Some Refusal.ReadFault
        → Rose (S.faults src.old) (S.faults src.new) }
    ensures write_fault { result.refusal ≡ Some Refusal.WriteFault
        → Rose (K.faults out.old) (K.faults out.new) }
    ensures overflow { result.refusal ≡ Some Refusal.Overflow
        → IfSome result.meter (λ meter. Rose 0 meter.overflows) }
    ensures budget { result.refusal ≡ Some Refusal.Budget
        → IfSome result.meter (λ meter. Rose 0 meter.spents) }

    // Where none is skipped, the status tells of the last statement, and of a failed read or write.
    ensures units { session.options.keep_going ≡ false → result.refusal ≡ Some Refusal.Budget
        → IfSome result.meter (λ meter. meter.budget ≤ meter.units) }
    ensures reads { session.options.keep_going ≡ false → result.refusal ≢ Some Refusal.ReadFault
        → S.faults src.new ≡ S.faults src.old }
    ensures writes { session.options.keep_going ≡ false → result.refusal ≢ Some Refusal.WriteFault
        → K.faults out.new ≡ K.faults out.old }

    // The words were taken, and there is a session.
    ensures no_usage { result.refusal ≢ Some Refusal.Usage }
    ensures session { IsSome result.meter }
{
    answer_script(alloc, session, src, out, err)
}
