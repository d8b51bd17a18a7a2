//! Names with numbers, as the command line gives them.

ghost use Rattle.std.specs.Prelude.{◌≡◌, ◌<◌, ◌≤◌, ◌^◌, [], Some, None, IfOk, if◌then◌else◌, length, map, option_map};
ghost use Rattle.std.specs.List.{list_all, prefix_len, slice_split};
ghost use Rattle.isl_space.specs.Name as name_spec;
ghost use Rattle.isl_words.specs.Binding as spec;
ghost use Rattle.isl_words.specs.Binding.{is_comma};
ghost use Rattle.isl_words.specs.Adding.{added, all_added, is_given};

use crate::number::read_whole;
use isl_space::Name;
use std::alloc::{AllocError, Global};

fn begins_name(byte: u8) -> bool
    ensures { result ≡ name_spec.begins_name byte }
{
    byte.is_ascii_alphabetic() || byte == b'_'
}

fn goes_on_name(byte: u8) -> bool
    ensures { result ≡ name_spec.goes_on_name byte }
{
    byte.is_ascii_alphanumeric() || byte == b'_'
}

// The number of letters, digits and `_` that stand first.
fn stem_len(name: &[u8]) -> usize
    ensures value { result ≡ prefix_len name_spec.goes_on_name name.now }
    ensures within { result ≤ length name.now }
{
    let mut end = 0;
    while end < name.len() && goes_on_name(name[end]) {
        end += 1;
    }
    end
}

fn has_only_primes(text: &[u8]) -> bool
    ensures { result ≡ list_all name_spec.is_prime text.now }
{
    text.iter().all(|b| *b == b'\'')
}

fn is_identifier(name: &[u8]) -> bool
    ensures { result ≡ name_spec.is_identifier name.now }
{
    !name.is_empty() && begins_name(name[0]) && has_only_primes(&name[stem_len(name)..])
}

// What `NAME=INT` writes.
#[tactic(auto, using(crate::proofs::BindingLemmas::no_equals))]
fn read_binding(part: &str, limit: u128) -> Option<(&str, i128)>
    requires { limit < 2 ^ 127 }
    ensures { option_map (λ given. (given.0.now, given.1)) result ≡ spec.binding limit part.now }
{
    let Some((name, number)) = part.split_once('=') else {
        return None;
    };
    if !is_identifier(name.as_bytes()) {
        return None;
    }
    let value = read_whole(number.as_bytes(), limit)?;
    Some((name, value))
}

// Whether the name has a number among these.
fn is_given(found: &[(Name, i128)], name: &str) -> bool
    ensures { result ≡ is_given found.now name.now }
{
    found.iter().any(|given| name == given.0.as_str())
}

// Takes one more part, and answers whether it is a binding of a new name.
fn add_binding(
    alloc: Global,
    found: &mut Vec<(Name, i128)>,
    part: &str,
    limit: u128,
) -> Result<bool, AllocError>
    requires { limit < 2 ^ 127 }
    ensures { IfOk result (λ is_new. added found.old.items (spec.binding limit part.now)
        ≡ (if is_new then Some found.new.items else None)) }
{
    let Some((name, value)) = read_binding(part, limit) else {
        return Ok(false);
    };
    if is_given(found, name) {
        return Ok(false);
    }
    let name = Name::new(alloc, name)?;
    found.push((name, value))?;
    Ok(true)
}

fn split_at_commas<'a>(alloc: Global, text: &'a str) -> Result<Vec<&'a str>, AllocError>
    ensures { IfOk result (λ parts. map (λ part. part.now) parts.items ≡ slice_split is_comma text.entry.now) }
{
    text.split(',').collect(alloc)
}

/// The names with their numbers of `NAME=INT,..`, or none where the text is no such list.
///
/// # Errors
/// `AllocError` where memory ends.
pub fn read_bindings(
    alloc: Global,
    text: &str,
    limit: u128,
) -> Result<Option<Vec<(Name, i128)>>, AllocError>
    requires { limit < 2 ^ 127 }
    ensures { IfOk result (λ found. option_map (λ given. given.items) found
        ≡ all_added limit [] (slice_split is_comma text.now)) }
{
    let parts = split_at_commas(alloc, text)?;
    let mut found = Vec::new(alloc);
    for part in &parts {
        if !add_binding(alloc, &mut found, part, limit)? {
            return Ok(None);
        }
    }
    Ok(Some(found))
}
