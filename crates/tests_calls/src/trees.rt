//! Trees of loops: how they print, and what they execute.

use crate::params::params_of;
use crate::run::{executed, numbers_of};
use crate::tree::tree_of;
use isl_ast::{Loop, loop_text};
use isl_space::SpaceFault;
use std::alloc::{AllocError, Global};
use std::io;
use tests_made::field;

// The lines that a case wants.
fn wanted(alloc: Global, case: &str) -> Result<String, AllocError> {
    let mut text = String::new(alloc);
    for line in case.lines() {
        if let Some(line) = line.strip_prefix("text ") {
            text.push_str(line)?;
            text.push_str("\n")?;
        }
    }
    Ok(text)
}

// How the tree of a case prints.
fn text_of(alloc: Global, case: &str, tree: &Loop) -> Result<Option<String>, SpaceFault> {
    match params_of(alloc, field(case, "params ").unwrap_or(""))? {
        Some(params) => Ok(Some(loop_text(alloc, tree, &params)?)),
        None => Ok(None),
    }
}

// Whether the tree executes what a line says: numbers of parameters, and behind ` | ` the run.
fn runs(rt: &impl Print, alloc: Global, tree: &Loop, line: &str) -> io::Result<bool> {
    let (written, wanted) = line.split_once(" | ").unwrap_or((line, ""));
    let found = match numbers_of(alloc, written) {
        Ok(Some(at)) => executed(alloc, tree, at.as_slice()),
        _ => return Ok(false),
    };
    let right = match &found {
        Ok(text) => text.as_str() == wanted,
        Err(_) => false,
    };
    if !right {
        println!(rt; "{line}\n  {found:?}\n")?;
    }
    Ok(right)
}

/// Whether the tree of a case prints as is wanted, and executes what its lines say.
pub(crate) fn tree_holds(rt: &impl Print, alloc: Global, case: &str) -> io::Result<bool> {
    let Some(tree) = tree_of(alloc, field(case, "tree ").unwrap_or(""))? else {
        return Ok(false);
    };
    let found = text_of(alloc, case, &tree);
    let mut right = match &found {
        Ok(Some(text)) => text.as_str() == wanted(alloc, case)?.as_str(),
        _ => false,
    };
    if !right {
        println!(rt; "{found:?}")?;
    }
    for line in case.lines() {
        if let Some(line) = line.strip_prefix("run") {
            right = runs(rt, alloc, &tree, line)? && right;
        }
    }
    Ok(right)
}
