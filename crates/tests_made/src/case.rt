//! Cases, as they are written: lines of a key and what belongs to it, with empty lines between the cases.

use crate::rows::{is_definition, is_row};
use std::alloc::{AllocError, Global};

/// What stands behind a key: any text, a number, numbers, a number and a text, a row, or the definition of a column.
#[derive(Clone, Copy)]
pub enum Form {
    Text,
    Number,
    Numbers,
    Counted,
    Row,
    Definition,
}

fn is_number(text: &str) -> bool {
    text.parse::<u64>().is_ok()
}

fn has_form(text: &str, form: Form) -> bool {
    match form {
        Form::Text => true,
        Form::Number => is_number(text),
        Form::Numbers => text.split(' ').all(|word| is_number(word)),
        Form::Counted => text
            .split_once(' ')
            .is_some_and(|(count, _)| is_number(count)),
        Form::Row => is_row(text),
        Form::Definition => is_definition(text),
    }
}

// Whether the key is one of these, which blanks part.
fn has_key(keys: &str, key: &str) -> bool {
    keys.split(' ').any(|one| one == key)
}

// Whether the line has one of these keys, and what belongs to it.
fn is_line(line: &str, forms: &[(&str, Form)]) -> bool {
    let (key, text) = line.split_once(' ').unwrap_or((line, ""));
    for (keys, form) in forms {
        if has_key(keys, key) {
            return has_form(text, *form);
        }
    }
    false
}

/// Whether the text has a name and other lines, each of which begins with one of these keys, and what belongs to it behind a blank.
/// Keys of one form stand together, with blanks between them.
pub fn is_case(text: &str, forms: &[(&str, Form)]) -> bool {
    field(text, "case ").is_some() && text.lines().all(|line| is_line(line, forms))
}

/// What stands behind a key in the first line that has it.
pub fn field<'a>(case: &'a str, key: &str) -> Option<&'a str> {
    for line in case.lines() {
        if let Some(text) = line.strip_prefix(key) {
            return Some(text);
        }
    }
    None
}

/// The number behind a key, or another where the key is not there.
pub fn number(case: &str, key: &str, other: usize) -> usize {
    match field(case, key) {
        Some(text) => text.parse::<usize>().unwrap_or(other),
        None => other,
    }
}

/// The numbers behind a key.
pub fn numbers(alloc: Global, case: &str, key: &str) -> Result<Vec<u64>, AllocError> {
    field(case, key)
        .unwrap_or("")
        .split(' ')
        .filter_map(|word| word.parse::<u64>().ok())
        .collect(alloc)
}

/// The words behind a key, or one other where the key is not there.
pub fn words(alloc: Global, case: &str, key: &str, other: &str) -> Result<Vec<String>, AllocError> {
    field(case, key)
        .unwrap_or(other)
        .split_whitespace()
        .map(|word| String::from_str(alloc, word))
        .try_collect(alloc)
}

fn push_often(bytes: &mut Vec<u8>, counted: &str) -> Result<(), AllocError> {
    let (count, part) = counted.split_once(' ').unwrap_or(("", ""));
    for _turn in 0..count.parse::<u32>().unwrap_or(0) {
        bytes.extend_from_slice(part.as_bytes())?;
    }
    Ok(())
}

// Appends what a line says behind its key.
fn push_said(bytes: &mut Vec<u8>, said: &str) -> Result<(), AllocError> {
    let (how, text) = said.split_once(' ').unwrap_or((said, ""));
    match how {
        "" => {
            bytes.extend_from_slice(text.as_bytes())?;
            bytes.push(b'\n')?;
        }
        "-part" => bytes.extend_from_slice(text.as_bytes())?,
        "-times" => push_often(bytes, text)?,
        _ => bytes.push(text.parse::<u8>().unwrap_or(0))?,
    }
    Ok(())
}

/// The bytes that all lines of a key say together.
pub fn bytes(alloc: Global, case: &str, key: &str) -> Result<Vec<u8>, AllocError> {
    let mut bytes = Vec::new(alloc);
    for line in case.lines() {
        if let Some(said) = line.strip_prefix(key) {
            push_said(&mut bytes, said)?;
        }
    }
    Ok(bytes)
}
