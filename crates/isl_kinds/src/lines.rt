//! The table of kinds: which operands an operation takes, and what it makes of them.

ghost use Rattle.std.specs.Prelude.{◌≡◌, ◌++◌};
ghost use Rattle.isl_tree.specs.declared.statement.ValueKind.TheVariants.{Map, Set};
ghost use Rattle.isl_kinds.specs.Lines as spec;

use isl_tree::statement::{Binary, Prefix, ValueKind};
use isl_tree::words::row_of;

// Kinds of two operands, and the kind of what is made of them.
type Line = (ValueKind, ValueKind, ValueKind);

const SETS: Line = (ValueKind::Set, ValueKind::Set, ValueKind::Set);

const MAPS: Line = (ValueKind::Map, ValueKind::Map, ValueKind::Map);

const MAP_AND_SET: Line = (ValueKind::Map, ValueKind::Set, ValueKind::Map);

const MAP_OF_SETS: Line = (ValueKind::Set, ValueKind::Set, ValueKind::Map);

const IMAGE: Line = (ValueKind::Map, ValueKind::Set, ValueKind::Set);

const TRUTH_OF_SETS: Line = (ValueKind::Set, ValueKind::Set, ValueKind::Truth);

const TRUTH_OF_MAPS: Line = (ValueKind::Map, ValueKind::Map, ValueKind::Truth);

// Whether what is given may stand where a kind is asked for: `Empty` is a set and a map.
fn fits(given: ValueKind, asked: ValueKind) -> bool
    ensures { result ≡ spec.fits given asked }
{
    given == asked
        || (given == ValueKind::Empty && matches!(asked, ValueKind::Set | ValueKind::Map))
}

// The kind of a result: a set or a map that is made of nothing but empty operands is empty.
fn made(all_empty: bool, kind: ValueKind) -> ValueKind
    ensures { result ≡ spec.made all_empty kind }
{
    if all_empty && matches!(kind, ValueKind::Set | ValueKind::Map) {
        ValueKind::Empty
    } else {
        kind
    }
}

// What the first line that fits makes of two operands.
fn by_lines(lines: &[Line], left: ValueKind, right: ValueKind) -> Option<ValueKind>
    ensures { result ≡ spec.by_lines lines.now left right }
{
    for line in lines {
        if fits(left, line.0) && fits(right, line.1) {
            let all_empty = left == ValueKind::Empty && right == ValueKind::Empty;
            return Some(made(all_empty, line.2));
        }
    }
    None
}

/// The kind of two operands that an operator joins, if it takes them.
pub fn joined(operator: Binary, left: ValueKind, right: ValueKind) -> Option<ValueKind>
    ensures { result ≡ spec.joined operator left right }
{
    match operator {
        Binary::Union | Binary::Gist | Binary::Cross => by_lines(&[SETS, MAPS], left, right),
        Binary::Intersection | Binary::Difference => {
            by_lines(&[SETS, MAPS, MAP_AND_SET], left, right)
        }
        Binary::RangeIntersection | Binary::RangeDifference => {
            by_lines(&[MAP_AND_SET], left, right)
        }
        Binary::Join => by_lines(&[MAPS], left, right),
        Binary::Universal => by_lines(&[MAP_OF_SETS], left, right),
        Binary::LexLess | Binary::LexLessEqual | Binary::LexGreater | Binary::LexGreaterEqual => {
            by_lines(&[MAP_OF_SETS, MAPS], left, right)
        }
        Binary::Equal
        | Binary::ProperSubset
        | Binary::Subset
        | Binary::ProperSuperset
        | Binary::Superset => by_lines(&[TRUTH_OF_SETS, TRUTH_OF_MAPS], left, right),
    }
}

/// The kind of a map applied to an operand, if there is one.
pub fn applied(map: ValueKind, argument: ValueKind) -> Option<ValueKind>
    ensures { result ≡ spec.applied map argument }
{
    by_lines(&[IMAGE, MAPS], map, argument)
}

// What the first line that fits makes of one operand.
fn by_short_lines(lines: &[(ValueKind, ValueKind)], operand: ValueKind) -> Option<ValueKind>
    ensures { result ≡ spec.by_short_lines lines.now operand }
{
    for line in lines {
        if fits(operand, line.0) {
            return Some(made(operand == ValueKind::Empty, line.1));
        }
    }
    None
}

// What is made of an operand, where this is made of a map.
fn by_map(of_map: Option<ValueKind>, operand: ValueKind) -> Option<ValueKind>
    ensures { result ≡ spec.by_short_lines (spec.short_line Map of_map) operand }
{
    match of_map {
        Some(kind) if fits(operand, ValueKind::Map) => {
            Some(made(operand == ValueKind::Empty, kind))
        }
        _ => None,
    }
}

// What is made of an operand, where this is made of a set, and that of a map.
fn by_row(
    of_set: Option<ValueKind>,
    of_map: Option<ValueKind>,
    operand: ValueKind,
) -> Option<ValueKind>
    ensures { result ≡ spec.by_short_lines (spec.short_line Set of_set ++ spec.short_line Map of_map) operand }
{
    match of_set {
        Some(kind) if fits(operand, ValueKind::Set) => {
            Some(made(operand == ValueKind::Empty, kind))
        }
        _ => by_map(of_map, operand),
    }
}

/// The kind of an operand with a word before it, if the word takes it.
pub fn prefixed(word: Prefix, operand: ValueKind) -> Option<ValueKind>
    ensures { result ≡ spec.prefixed word operand }
{
    let row = row_of(word);
    by_row(row.of_set, row.of_map, operand)
}

/// The kind of the inverse, if there is one.
pub fn inverse(operand: ValueKind) -> Option<ValueKind>
    ensures { result ≡ spec.inverse operand }
{
    by_short_lines(&[(ValueKind::Map, ValueKind::Map)], operand)
}

/// The kind of an element of a list.
pub fn item(list: ValueKind) -> Option<ValueKind>
    ensures { result ≡ spec.item list }
{
    by_short_lines(&[(ValueKind::List, ValueKind::Map)], list)
}

/// The kind of what depends on what, as it is made of three maps.
pub fn dependence(
    made_of_maps: ValueKind,
    source: ValueKind,
    sink: ValueKind,
    schedule: ValueKind,
) -> Option<ValueKind>
    ensures { result ≡ spec.dependence made_of_maps source sink schedule }
{
    let asked = ValueKind::Map;
    if fits(source, asked) && fits(sink, asked) && fits(schedule, asked) {
        let all_empty = source == ValueKind::Empty
            && sink == ValueKind::Empty
            && schedule == ValueKind::Empty;
        Some(made(all_empty, made_of_maps))
    } else {
        None
    }
}
