//! The calls of loops as text.

ghost use Rattle.std.specs.Prelude.{◌≡◌, ◌+◌, ◌++◌, ◌<◌, codes, length, map, IfErr, MatchResult, OnOk, string_bytes};
ghost use Rattle.std.specs.Fmt.{signed_decimal};
ghost use Rattle.isl_meter.specs.Gauge.{IsCutBy};
ghost use Rattle.isl_meter.specs.declared.Cut.TheVariants.{Overflow, Budget};
ghost use Rattle.isl_space.specs.Form.{name_text};
ghost use Rattle.isl_loop.specs.Formed.{IsLoopOver, RunPasses};
ghost use Rattle.isl_loop.specs.Run.{trace, turns_of};
ghost use Rattle.isl_row_text.specs.Joined.{each_after, joined_by};
ghost use Rattle.isl_ast.specs.CallText.{call_lines};

use crate::{Callee, run_loops};
use isl_loop::Loop;
use isl_meter::{Cut, Meter};
use isl_row_text::check_length;
use isl_space::Name;
use itoa::Buffer;
use std::alloc::{AllocError, Global};
use std::marker::Model;

fn write_name(out: &mut String, name: &Option<Name>) -> Result<(), AllocError>
    ensures { OnOk result (string_bytes out.new ≡ string_bytes out.old ++ name_text name.now) }
{
    match name {
        None => Ok(()),
        Some(name) => out.push_str(name.as_str()),
    }
}

fn write_number(out: &mut String, number: i128) -> Result<(), AllocError>
    ensures { OnOk result (string_bytes out.new ≡ string_bytes out.old ++ signed_decimal number) }
{
    let mut digits = Buffer::new();
    out.push_str(digits.format(number))
}

// Numbers, with a comma before each.
#[tactic(auto, using(std::proofs::lemmas::Grind::common_steps, isl_row_text::proofs::JoinedLaws::each_steps))]
fn write_more_numbers(out: &mut String, numbers: &[i128]) -> Result<(), AllocError>
    ensures { OnOk result (string_bytes out.new ≡ string_bytes out.old ++ each_after (codes ", ") (map signed_decimal numbers.now)) }
{
    for number in numbers {
        out.push_str(", ")?;
        write_number(out, *number)?;
    }
    Ok(())
}

// Numbers, with a comma between them.
fn write_numbers(out: &mut String, numbers: &[i128]) -> Result<(), AllocError>
    ensures { OnOk result (string_bytes out.new ≡ string_bytes out.old ++ joined_by (codes ", ") (map signed_decimal numbers.now)) }
{
    match numbers {
        [] => Ok(()),
        [first, others @ ..] => {
            write_number(out, *first)?;
            write_more_numbers(out, others)
        }
    }
}

// Lines of calls.
#[derive(Drop)]
struct Lines {
    text: String,
}

impl Model for Lines {
    ghost use Rattle.std.specs.Prelude.{List, ℕ, string_bytes};

    ghost Value = { List ℕ };

    ghost view = { λ l. string_bytes l.text };
}

impl Callee for Lines {
    ghost use Rattle.std.specs.Prelude.{◌++◌};
    ghost use Rattle.isl_ast.specs.CallText.{call_line};

    ghost called = { λ before event after. after ≡ before ++ call_line event };

    fn call(&mut self, name: &Option<Name>, args: &[i128]) -> Result<(), AllocError> {
        check_length(self.text.len())?;
        write_name(&mut self.text, name)?;
        self.text.push_str("(")?;
        write_numbers(&mut self.text, args)?;
        self.text.push_str(");\n")
    }
}

/// The calls of the tree, in order, where `at` has the numbers of the declared parameters: a line for each, such as `S(2, -1);`. A unit
/// is used for each turn of a loop, and no other.
///
/// # Errors
///
/// As of `run_loops`; and `NoMemory` where the text is too long.
pub fn run_text(alloc: Global, tree: &Loop, at: &[i128], meter: &mut Meter) -> Result<String, Cut>
    requires { IsLoopOver meter.old (length at.now) tree.now }
    ensures exact { MatchResult result
        (λ text. (string_bytes text ≡ call_lines (trace tree.now at.now))
        × (meter.new ≡ record meter.old { units = meter.old.units + turns_of tree.now at.now }))
        (IsCutBy meter.old meter.new) }
    ensures overflow { IfErr result (λ cut. cut ≡ Overflow → RunPasses meter.old at.now tree.now) }
    ensures budget { IfErr result (λ cut. cut ≡ Budget → meter.old.budget < meter.old.units + turns_of tree.now at.now) }
{
    let mut lines = Lines {
        text: String::new(alloc),
    };
    run_loops(alloc, tree, at, &mut lines, meter)?;
    Ok(lines.text)
}
