//! What the words of the command line choose.

ghost use Rattle.std.specs.Prelude.{◌≡◌, ◌-◌, ◌<◌, ◌≤◌, ◌^◌, ℕ, ℤ, List, Err, IfOk, IfSome, map, string_bytes};
ghost use Rattle.std.specs.List.{list_any};
ghost use Rattle.std.specs.Option.{option_copied};
ghost use Rattle.clap.specs.Words.{Text, first_of, rows_of, found_of};
ghost use Rattle.isl_words.specs.Options.{OptionsView, AreNumbers, IsChoice, least_made, most_bits, most_made};
ghost use Rattle.isl_words.specs.Taken.{AreGiven, AreTaken, Chooses, chosen, is_dashes, is_set, make_of};

use crate::binding::read_bindings;
use crate::command::parse;
use crate::fault::WordsFault;
use crate::number::read_number;
use crate::options::{
    MAX_BITS, MAX_BUDGET, MAX_MADE, MIN_BITS, MIN_BUDGET, MIN_MADE, Options, USUAL_BITS,
    USUAL_BUDGET,
};
use clap::ArgMatches;
use clap::error::ErrorKind;
use isl_space::Name;
use std::alloc::Global;

// The value that the words give to an option, a flag's too.
fn value_of<'a>(matches: &ArgMatches<'a>, name: &str) -> Option<&'a str>
    ensures { option_copied result ≡ first_of name.now (rows_of (found_of matches.now)) }
{
    matches.get_str(name)
}

// The number that is given, or the usual one where none is.
fn number_or(given: Option<&str>, low: u128, high: u128, usual: u128) -> Option<u128>
    requires high { high < 2 ^ 127 }
    requires usual { (low ≤ usual) × (usual ≤ high) }
    ensures chosen { result ≡ chosen low high usual (option_copied given.entry) }
    ensures range { IfSome result (λ n. (low ≤ n) × (n ≤ high)) }
{
    match given {
        None => Some(usual),
        Some(text) => read_number(text.as_bytes(), low, high),
    }
}

// The bindings that are given, or none.
#[tactic(auto, using(crate::proofs::WordsLemmas::none_numbered))]
fn bindings_or_none(
    alloc: Global,
    given: Option<&str>,
    limit: u128,
) -> Result<Vec<(Name, i128)>, WordsFault>
    requires { limit < 2 ^ 127 }
    ensures ok { IfOk result (λ at. AreGiven limit (option_copied given.entry) at.items) }
    ensures numbers { IfOk result (λ at. AreNumbers limit at.items) }
    ensures usage { result ≡ Err WordsFault.Usage
        → (at : List (List ℕ × ℤ)) → ¬ (AreGiven limit (option_copied given.entry) at) }
{
    match given {
        None => Ok(Vec::new(alloc)),
        Some(text) => match read_bindings(alloc, text, limit)? {
            Some(at) => Ok(at),
            None => Err(WordsFault::Usage),
        },
    }
}

fn is_set(given: Option<&str>) -> bool
    ensures { result ≡ is_set (option_copied given.entry) }
{
    match given {
        None => false,
        Some(text) => text == "true",
    }
}

// For how many sizes a script is made, none where that is not asked for; or nothing where the text is no such number.
fn made_for(given: Option<&str>) -> Option<Option<u64>>
    ensures chosen { result ≡ make_of (option_copied given.entry) }
    ensures range { IfSome result (λ make. IfSome make (λ n. (least_made ≤ n) × (n ≤ most_made))) }
{
    let Some(text) = given else {
        return Some(None);
    };
    let sizes = read_number(text.as_bytes(), MIN_MADE, MAX_MADE)?;
    Some(Some(sizes as u64))
}

// The greatest magnitude of numbers with these bits.
fn limit_of(bits: u32) -> u128
    requires { bits ≤ most_bits }
    ensures value { result ≡ 2 ^ bits - 1 }
    ensures small { result < 2 ^ 127 }
{
    (1u128 << bits) - 1
}

// What the values given to the options choose.
fn options_in(alloc: Global, matches: &ArgMatches<'_>) -> Result<Options, WordsFault>
    ensures ok { IfOk result (Chooses (rows_of (found_of matches.now))) }
    ensures usage { result ≡ Err WordsFault.Usage
        → (options : OptionsView) → ¬ (Chooses (rows_of (found_of matches.now)) options) }
{
    let bits_given = value_of(matches, "bits");
    let Some(bits) = number_or(bits_given, MIN_BITS, MAX_BITS, USUAL_BITS) else {
        return Err(WordsFault::Usage);
    };
    let budget_given = value_of(matches, "budget");
    let Some(budget) = number_or(budget_given, MIN_BUDGET, MAX_BUDGET, USUAL_BUDGET) else {
        return Err(WordsFault::Usage);
    };
    let bits = bits as u32;
    let at_given = value_of(matches, "at");
    let at = match bindings_or_none(alloc, at_given, limit_of(bits)) {
        Ok(at) => at,
        Err(fault) => return Err(fault),
    };
    let run_given = value_of(matches, "run");
    let run = is_set(run_given);
    let make_given = value_of(matches, "make");
    let Some(make) = made_for(make_given) else {
        return Err(WordsFault::Usage);
    };
    let keep_going_given = value_of(matches, "keep-going");
    let keep_going = is_set(keep_going_given);
    let cert_given = value_of(matches, "cert");
    let cert = is_set(cert_given);
    Ok(Options {
        bits,
        budget: budget as u64,
        at,
        run,
        make,
        keep_going,
        cert,
    })
}

fn is_any_dashes(words: &[String]) -> bool
    ensures { result ≡ list_any (λ word. is_dashes (string_bytes word)) words.now }
{
    words.iter().any(|word| word.as_str() == "--")
}

// Whether one of the words is `--`.
fn have_dashes(words: &[String]) -> bool
    ensures { result ≡ list_any is_dashes (map string_bytes words.now) }
{
    is_any_dashes(words)
}

/// What the words of the command line choose, the first of which is the program's name.
///
/// # Errors
/// `Usage` where the words are outside the option table, or a value is, or `--` is among them; `NoMemory` where memory ends.
pub fn read_words(alloc: Global, words: &[String]) -> Result<Options, WordsFault>
    ensures taken { IfOk result (AreTaken (map string_bytes words.now)) }
    ensures usage { result ≡ Err WordsFault.Usage
        → (options : OptionsView) → ¬ (AreTaken (map string_bytes words.now) options) }
{
    if words.is_empty() {
        return Err(WordsFault::Usage);
    }
    if have_dashes(words) {
        return Err(WordsFault::Usage);
    }
    match parse(alloc, words) {
        Ok(matches) => options_in(alloc, &matches),
        Err(error) => match error.kind() {
            ErrorKind::OutOfMemory => Err(WordsFault::NoMemory),
            _ => Err(WordsFault::Usage),
        },
    }
}

/// Words choose one set of options at most, and only such as a session takes.
pub fn options_are_one()
    ensures once { (words : List Text) (a b : OptionsView) → AreTaken words a → AreTaken words b → a ≡ b }
    ensures choice { (words : List Text) (a : OptionsView) → AreTaken words a → IsChoice a }
{}
