//! The option table, as `clap` reads it.

ghost use Rattle.std.specs.Prelude.{◌≡◌, IfOk, map, false, string_bytes};
ghost use Rattle.clap.specs.Words.{app_of, rule_of, rows_of, found_of, matches_of, fault_of, FailsBy};
ghost use Rattle.isl_words.specs.Taken as spec;
ghost use Rattle.isl_words.specs.Taken.{bare, rule, with_rows};

use crate::options::TABLE;
use clap::{Arg, ArgAction, ArgMatches, Command, Error};
use std::alloc::{AllocError, Global};

// An option under its own name, with one value or none.
fn argument<'a>(alloc: Global, name: &'a str, has_value: bool) -> Arg<'a>
    ensures rule { rule_of result ≡ rule (name.now, has_value) }
    ensures local { result.global ≡ false }
{
    let action = if has_value {
        ArgAction::Set
    } else {
        ArgAction::SetTrue
    };
    Arg::new(alloc, name).long(name).action(action)
}

// The command with no argument, not even help or version.
fn bare_command<'a>(alloc: Global) -> Command<'a>
    ensures { app_of result ≡ bare }
{
    Command::new(alloc, "iscc")
        .disable_help_flag(true)
        .disable_version_flag(true)
}

// The command with these options too.
fn with_options<'a>(
    alloc: Global,
    mut command: Command<'a>,
    mut rows: &[(&'a str, bool)],
) -> Result<Command<'a>, AllocError>
    ensures { IfOk result (λ c. app_of c ≡ with_rows (app_of command.entry) (map (λ row. (row.0.now, row.1)) rows.entry.now)) }
{
    while let [row, rest @ ..] = rows {
        command = command.arg(argument(alloc, row.0, row.1))?;
        rows = rest;
    }
    Ok(command)
}

fn command<'a>(alloc: Global) -> Result<Command<'a>, AllocError>
    ensures { IfOk result (λ c. app_of c ≡ spec.command) }
{
    with_options(alloc, bare_command(alloc), &TABLE)
}

/// The values that the words give to the options.
///
/// # Errors
/// An error that is no want of memory where the words are outside the option table.
pub fn parse<'a>(alloc: Global, words: &'a [String]) -> Result<ArgMatches<'a>, Error>
    ensures matches { IfOk result (λ m. rows_of (found_of m) ≡ matches_of spec.command (map string_bytes words.entry.now)) }
    ensures kinds { FailsBy (fault_of spec.command (map string_bytes words.entry.now)) result }
{
    command(alloc)?.try_get_matches_from(words)
}
