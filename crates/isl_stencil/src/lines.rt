//! The lines of one size.

ghost use Rattle.std.specs.Prelude.{◌≡◌, ◌+◌, ◌++◌, ◌≤◌, length};
ghost use Rattle.isl_stencil.specs.Stencil as spec;

use arrayvec::ArrayVec;
use itoa::Buffer;

// Lines on the stack, with room for those of each size.
pub(crate) type Lines = ArrayVec<u8, 512>;

fn push(lines: &mut Lines, text: &[u8])
    requires { length lines.old.items + length text.now ≤ 512 }
    ensures { lines.new.items ≡ lines.old.items ++ text.now }
{
    lines.try_extend_from_slice(text).unwrap();
}

// What is written, read and scheduled, for all turns of the loops.
fn push_accesses(lines: &mut Lines, size: u64)
    requires { length lines.old.items ≤ 100 }
    ensures lines { lines.new.items ≡ lines.old.items ++ spec.accesses size }
    ensures few { length lines.new.items ≤ length lines.old.items + 250 }
{
    let mut digits = Buffer::new();
    push(lines, b"D := { S[t, i] : 0 <= t < 4 and 0 <= i < ");
    push(lines, digits.format(size).as_bytes());
    push(lines, b" };\n");
    push(lines, b"W := { S[t, i] -> A[t, i] } * D;\n");
    push(
        lines,
        b"R := { S[t, i] -> A[t - 1, j] : i - 1 <= j <= i + 1 } * D;\n",
    );
    push(lines, b"T := { S[t, i] -> [t, i] } * D;\n");
}

// What is asked of them.
fn push_questions(lines: &mut Lines)
    requires { length lines.old.items ≤ 300 }
    ensures { lines.new.items ≡ lines.old.items ++ spec.questions }
{
    push(lines, b"F := last W before R under T;\n");
    push(lines, b"scan dom F[0];\n");
    push(lines, b"F[0] = any W before R under T;\n");
    push(lines, b"dom F[0] <= D;\n");
    push(lines, b"scan deltas F[0];\n");
    push(lines, b"scan F[1];\n");
}

pub(crate) fn lines_of(size: u64) -> Lines
    ensures { result.items ≡ spec.lines_of size }
{
    let mut lines = Lines::new();
    push_accesses(&mut lines, size);
    push_questions(&mut lines);
    lines
}
