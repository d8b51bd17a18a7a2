//! Trees, as they are written: word after word, each part before what it stands in.

use isl_ast::{Atom, Expr, Item, Loop};
use isl_meter::Int;
use isl_piece::{Coefs, Row, RowKind, Rows};
use isl_space::Name;
use sqlite_items::{Boxed, Items};
use std::alloc::{AllocError, Global};

// What the words so far have made, and no word has taken yet.
#[derive(Drop)]
struct Parts {
    sums: Vec<Expr>,
    rows: Rows,
    loops: Vec<Loop>,
}

// The last ones, as many as are told, where there are so many.
fn last<T: Drop>(all: &mut Vec<T>, count: usize) -> Result<Option<Vec<T>>, AllocError> {
    if all.len() < count {
        return Ok(None);
    }
    Ok(Some(all.split_off(all.len() - count)?))
}

fn kind_of(word: &str) -> Option<RowKind> {
    match word {
        "=" => Some(RowKind::Zero),
        ">=" => Some(RowKind::AtLeast),
        "mod" => Some(RowKind::Divides),
        "not-mod" => Some(RowKind::NotDivides),
        _ => None,
    }
}

// A row: its kind, the coefficients, the constant, and the divisor of a congruence.
fn row_of(alloc: Global, kind: RowKind, written: &str) -> Result<Row, AllocError> {
    let mut numbers = Vec::new(alloc);
    for word in written.split(',') {
        numbers.push(Int::new(word.parse::<i128>().unwrap_or(0)))?;
    }
    let divisor = match kind {
        RowKind::Zero | RowKind::AtLeast => Int::ONE,
        RowKind::Divides | RowKind::NotDivides => numbers.pop().unwrap_or(Int::ONE),
    };
    let constant = numbers.pop().unwrap_or(Int::ZERO);
    Ok(Row::new(
        kind,
        Coefs::from_slice(alloc, numbers.as_slice())?,
        constant,
        divisor,
    ))
}

// What the last sums make: `floor` and `ceil` divide one by `size`, `min` and `max` take as many.
fn atom_of(
    alloc: Global,
    sums: &mut Vec<Expr>,
    word: &str,
    size: i128,
) -> Result<Option<Atom>, AllocError> {
    let count = usize::try_from(size).unwrap_or(0);
    match word {
        "at" => Ok(Some(Atom::Column(count))),
        "floor" => match sums.pop() {
            Some(sum) => Ok(Some(Atom::Floor(Boxed::new(alloc, sum)?, size))),
            None => Ok(None),
        },
        "ceil" => match sums.pop() {
            Some(sum) => Ok(Some(Atom::Ceil(Boxed::new(alloc, sum)?, size))),
            None => Ok(None),
        },
        "min" => Ok(last(sums, count)?.map(|taken| Atom::Min(Items::from_vec(taken)))),
        "max" => Ok(last(sums, count)?.map(|taken| Atom::Max(Items::from_vec(taken)))),
        _ => Ok(None),
    }
}

// Adds an atom to the sum before those that it takes.
fn add_item(
    alloc: Global,
    sums: &mut Vec<Expr>,
    word: &str,
    rest: &str,
) -> Result<Option<()>, AllocError> {
    let (coef, size) = rest.split_once(':').unwrap_or((rest, "0"));
    let (Ok(coef), Ok(size)) = (coef.parse::<i128>(), size.parse::<i128>()) else {
        return Ok(None);
    };
    let Some(atom) = atom_of(alloc, sums, word, size)? else {
        return Ok(None);
    };
    let Some(mut sum) = sums.pop() else {
        return Ok(None);
    };
    sum.items.push(Item { coef, atom })?;
    sums.push(sum)?;
    Ok(Some(()))
}

// A loop over the last body, between the last two sums.
fn loop_over(alloc: Global, parts: &mut Parts, step: &str) -> Result<Option<Loop>, AllocError> {
    let (Some(high), Some(low)) = (parts.sums.pop(), parts.sums.pop()) else {
        return Ok(None);
    };
    let (Some(body), Ok(step)) = (parts.loops.pop(), step.parse::<i128>()) else {
        return Ok(None);
    };
    Ok(Some(Loop::For(low, high, step, Boxed::new(alloc, body)?)))
}

// The last body, under the rows since the last condition.
fn condition(alloc: Global, parts: &mut Parts) -> Result<Option<Loop>, AllocError> {
    let Some(body) = parts.loops.pop() else {
        return Ok(None);
    };
    let rows = parts.rows.copy(alloc)?;
    parts.rows = Rows::new(alloc);
    Ok(Some(Loop::If(rows, Boxed::new(alloc, body)?)))
}

// A call with the last sums: its name, where it has one, and how many they are.
fn call(alloc: Global, parts: &mut Parts, written: &str) -> Result<Option<Loop>, AllocError> {
    let (name, count) = written.split_once(':').unwrap_or(("", written));
    let Some(args) = last(&mut parts.sums, count.parse::<usize>().unwrap_or(0))? else {
        return Ok(None);
    };
    let name = if name.is_empty() {
        None
    } else {
        Some(Name::new(alloc, name)?)
    };
    Ok(Some(Loop::Call(name, Items::from_vec(args))))
}

// What a word that makes a tree makes.
fn loop_of(
    alloc: Global,
    parts: &mut Parts,
    word: &str,
    rest: &str,
) -> Result<Option<Loop>, AllocError> {
    match word {
        "for" => loop_over(alloc, parts, rest),
        "if" => condition(alloc, parts),
        "call" => call(alloc, parts, rest),
        "block" => {
            let count = rest.parse::<usize>().unwrap_or(0);
            Ok(last(&mut parts.loops, count)?.map(|taken| Loop::Block(Items::from_vec(taken))))
        }
        _ => Ok(None),
    }
}

// What a word adds. `None` where it is none, or takes more than there is.
fn add(alloc: Global, parts: &mut Parts, written: &str) -> Result<Option<()>, AllocError> {
    let (word, rest) = written.split_once(':').unwrap_or((written, ""));
    if let Ok(constant) = written.parse::<i128>() {
        parts.sums.push(Expr {
            items: Items::new(alloc),
            constant,
        })?;
        return Ok(Some(()));
    }
    if let Some(kind) = kind_of(word) {
        parts.rows.push(row_of(alloc, kind, rest)?)?;
        return Ok(Some(()));
    }
    match loop_of(alloc, parts, word, rest)? {
        Some(tree) => {
            parts.loops.push(tree)?;
            Ok(Some(()))
        }
        None => add_item(alloc, &mut parts.sums, word, rest),
    }
}

/// The tree that the words write, where they write one and nothing else.
///
/// # Errors
///
/// Where memory ends.
pub(crate) fn tree_of(alloc: Global, written: &str) -> Result<Option<Loop>, AllocError> {
    let mut parts = Parts {
        sums: Vec::new(alloc),
        rows: Rows::new(alloc),
        loops: Vec::new(alloc),
    };
    for word in written.split(' ') {
        if add(alloc, &mut parts, word)?.is_none() {
            return Ok(None);
        }
    }
    let tree = parts.loops.pop();
    let whole = parts.sums.is_empty() && parts.rows.is_empty() && parts.loops.is_empty();
    Ok(tree.filter(|_tree| whole))
}
