//! Whole texts, written to a sink that may take them in pieces.

ghost use Rattle.std.specs.Prelude.{◌≡◌, ◌+◌, ◌++◌, ◌<◌, ◌≤◌, ◌∷◌, [], ℕ, length, map, take, OnOk, OnErr};
ghost use Rattle.std.specs.List.{concat};
ghost use Rattle.std.specs.Io.KnownBytes.{Appends};
ghost use Rattle.isl_math.specs.Count.{Rose};
ghost use Rattle.isl_session.specs.Lines.{fault_line, summary_line, usage_line};

use crate::{Counts, Fault};
use arrayvec::ArrayVec;
use isl_io::{Failed, Sink};
use isl_refusal::Refusal;
use itoa::Buffer;

// Writes the whole text. Where a write fails, a front of it was written.
pub(crate) fn write_all<K: Sink>(out: &mut K, text: &[u8]) -> Result<(), Failed>
    ensures ok { OnOk result (Appends (K.written out.old) (K.written out.new) text.now) }
    ensures err { OnErr result ((n : ℕ) × (n < length text.now)
        × Appends (K.written out.old) (K.written out.new) (take n text.now)) }
    ensures kept { OnOk result (K.faults out.new ≡ K.faults out.old) }
    ensures no_fewer_faults { K.faults out.old ≤ K.faults out.new }
    ensures fault { OnErr result (Rose (K.faults out.old) (K.faults out.new)) }
{
    let mut at = 0;
    while at < text.len() {
        at += out.write(&text[at..])?;
    }
    Ok(())
}

// A line on the stack, with room for each that is told.
type Line = ArrayVec<u8, 160>;

fn push(line: &mut Line, text: &[u8])
    requires { length line.old.items + length text.now ≤ 160 }
    ensures { line.new.items ≡ line.old.items ++ text.now }
{
    line.try_extend_from_slice(text).unwrap();
}

#[tactic(auto, using(std::proofs::lemmas::Grind::common_steps, crate::proofs::LineLaws::text_is_short))]
fn line_of(fault: Fault) -> Line
    ensures { result.items ≡ fault_line fault }
{
    let mut line = Line::new();
    let mut digits = Buffer::new();
    push(&mut line, b"iscc: statement ");
    push(&mut line, digits.format(fault.statement).as_bytes());
    push(&mut line, b": ");
    push(&mut line, fault.refusal.text().as_bytes());
    push(&mut line, b"\n");
    line
}

fn summary_of(counts: Counts) -> Line
    ensures { result.items ≡ summary_line counts }
{
    let mut line = Line::new();
    let mut digits = Buffer::new();
    push(&mut line, b"statements ");
    push(&mut line, digits.format(counts.statements).as_bytes());
    push(&mut line, b", true ");
    push(&mut line, digits.format(counts.trues).as_bytes());
    push(&mut line, b", elements ");
    push(&mut line, digits.format(counts.elements).as_bytes());
    push(&mut line, b"\n");
    line
}

// Writes the line that says how much was answered. Where a write fails, a front of it was written.
pub(crate) fn write_summary<K: Sink>(out: &mut K, counts: Counts) -> Result<(), Failed>
    ensures ok { OnOk result (Appends (K.written out.old) (K.written out.new) (summary_line counts)) }
    ensures err { OnErr result ((n : ℕ) × (n < length (summary_line counts))
        × Appends (K.written out.old) (K.written out.new) (take n (summary_line counts))) }
    ensures kept { OnOk result (K.faults out.new ≡ K.faults out.old) }
    ensures no_fewer_faults { K.faults out.old ≤ K.faults out.new }
    ensures fault { OnErr result (Rose (K.faults out.old) (K.faults out.new)) }
{
    write_all(out, summary_of(counts).as_slice())
}

// Writes the line that tells of a fault, at once where the sink takes it whole. It takes no memory.
pub(crate) fn write_fault<E: Sink>(err: &mut E, fault: Fault) -> Result<(), Failed>
    ensures ok { OnOk result (Appends (E.written err.old) (E.written err.new) (fault_line fault)) }
    ensures no_fewer_faults { E.faults err.old ≤ E.faults err.new }
    ensures fault { OnErr result (Rose (E.faults err.old) (E.faults err.new)) }
{
    write_all(err, line_of(fault).as_slice())
}

// Writes a line for each of these faults. Where one of them cannot be written, the others are.
pub(crate) fn tell_all<E: Sink>(err: &mut E, faults: &[Fault])
    ensures lines { ¬ (Rose (E.faults err.old) (E.faults err.new))
        → Appends (E.written err.old) (E.written err.new) (concat (map fault_line faults.now)) }
    ensures no_fewer_faults { E.faults err.old ≤ E.faults err.new }
    ensures none { faults.now ≡ [] → err.new ≡ err.old }
{
    for fault in faults {
        let _ = write_fault(err, *fault);
    }
}

// Writes the usage line, at once where the sink takes it whole. It takes no memory.
pub(crate) fn write_usage<E: Sink>(err: &mut E) -> Result<(), Failed>
    ensures ok { OnOk result (Appends (E.written err.old) (E.written err.new) usage_line) }
    ensures no_fewer_faults { E.faults err.old ≤ E.faults err.new }
    ensures fault { OnErr result (Rose (E.faults err.old) (E.faults err.new)) }
{
    let mut line = Line::new();
    push(&mut line, Refusal::Usage.text().as_bytes());
    push(&mut line, b"\n");
    write_all(err, line.as_slice())
}
