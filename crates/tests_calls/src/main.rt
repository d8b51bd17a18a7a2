//! Calls that no script of the calculator can make: systems with defined columns, what elimination leaves of them and what it costs;
//! values of sets and maps together, and operations that no word names; trees of loops, their texts, and what they execute. The cases
//! stand in the file `stdin`, whose head says how they are written. Behind them come calls that no table can name. What differs is printed,
//! and how many cases there were.
#![tactic(auto)]

mod calls;
mod elimination;
mod ends;
mod limit;
mod numbers;
mod operation;
mod params;
mod reference;
mod run;
mod spaces;
mod systems;
mod tree;
mod trees;
mod values;
mod wanted;

use elimination::is_eliminated;
use isl_meter::{Cut, Meter};
use std::alloc::Global;
use std::io;
use systems::{all_tell, is_met, is_negated, is_normalised};
use tests_made::{Count, Form, field, is_case, number, rows_of};
use trees::tree_holds;
use values::value_holds;

// The keys of a case's lines, and what stands behind them.
const FORMS: [(&str, Form); 6] = [
    ("# case do never at params tree text run", Form::Text),
    ("piece operation before answer", Form::Text),
    (
        "columns systems units empty-units sample-units budget",
        Form::Number,
    ),
    ("gone", Form::Numbers),
    ("row with want", Form::Row),
    ("defined with-defined kept", Form::Definition),
];

// Whether a case of a system comes to what is wanted.
fn is_right(alloc: Global, case: &str) -> Result<bool, Cut> {
    let mut meter = Meter::new(127, 1_000_000);
    let columns = number(case, "columns ", 2);
    let few = columns.min(3);
    match field(case, "do ").unwrap_or("") {
        "hold" => all_tell(alloc, case, few),
        "normalise" => is_normalised(alloc, case, few, &mut meter),
        "meet" => is_met(alloc, case, few, &meter),
        "negate" => match rows_of(alloc, case, "row ")?.as_slice() {
            [row] => is_negated(alloc, row, &rows_of(alloc, case, "want ")?, &mut meter),
            _ => Ok(false),
        },
        "eliminate" => is_eliminated(alloc, case, columns),
        _ => Ok(false),
    }
}

// Whether a case is one, and comes to what is wanted. One that differs is printed.
fn holds(rt: &impl Print, alloc: Global, case: &str) -> io::Result<bool> {
    let right = if field(case, "tree ").is_some() {
        tree_holds(rt, alloc, case)?
    } else if field(case, "answer ").is_some() {
        value_holds(rt, alloc, case)?
    } else {
        is_right(alloc, case) == Ok(true)
    };
    let right = right && is_case(case, &FORMS);
    if !right {
        println!(rt; "{case}\n  differs\n")?;
    }
    Ok(right)
}

// Calls that no table can name, each with its name.
fn calls_hold(rt: &impl Print, alloc: Global, count: &mut Count) -> io::Result<()> {
    for (name, right) in [
        ("division", numbers::division_is_right()),
        ("inverses", numbers::inverses_are_right()),
        ("the widest limit", numbers::widest_limit_is_right()),
        ("the least limit", numbers::least_limit_is_right()),
        ("the budget", numbers::budget_is_right()),
        ("ends over other streams", ends::streams_are_passed_on()),
        ("clean ends", ends::clean_ends_take_all(alloc)),
        ("values of live pieces", calls::live_pieces_are_right(alloc)),
        ("copies of pieces", calls::copies_are_right(alloc)),
    ] {
        if !right {
            println!(rt; "{name} differ")?;
        }
        count.add(right);
    }
    Ok(())
}

fn main(rt: HostRuntime) -> io::Result<()> {
    let alloc = rt.alloc();
    let text = io::read_to_string(alloc, rt.reader())?;
    let mut count = Count::new();
    for case in text.as_str().split("\n\n").skip(1) {
        count.add(holds(&rt, alloc, case)?);
    }
    calls_hold(&rt, alloc, &mut count)?;
    count.print(&rt)
}
