//! Sessions that are fed in pieces, which the program itself does not do, and runs over ends in memory. The cases stand in the file `stdin`,
//! whose head says how they are written. What differs is printed, and how many cases there were.
#![tactic(auto)]

mod ends;
mod sessions;

use sessions::session_holds;
use std::alloc::Global;
use std::io;
use tests_made::{Count, Form, is_case};

// The keys of a case's lines, and what stands behind them.
const FORMS: [(&str, Form); 2] = [
    (
        "# case words out err feed feed-line finish then",
        Form::Text,
    ),
    ("room", Form::Number),
];

// Whether a case is one, and comes to what is wanted.
fn holds(rt: &impl Print, alloc: Global, case: &str) -> io::Result<bool> {
    if !is_case(case, &FORMS) {
        println!(rt; "no case:\n{case}")?;
        return Ok(false);
    }
    session_holds(rt, alloc, case)
}

fn main(rt: HostRuntime) -> io::Result<()> {
    let alloc = rt.alloc();
    let text = io::read_to_string(alloc, rt.reader())?;
    let mut count = Count::new();
    for case in text.as_str().split("\n\n").skip(1) {
        count.add(holds(&rt, alloc, case)?);
    }
    if !ends::are_right(alloc)? {
        println!(&rt; "runs over ends in memory differ")?;
        count.add(false);
    }
    count.print(&rt)
}
