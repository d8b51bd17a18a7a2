//! Proofs that a system has no point outside others: which the checker takes, and whether one is found exactly where no point is left. The
//! cases stand in the file `stdin`, whose head says how they are written. What differs is printed, and how many cases there were.
#![tactic(auto)]

mod question;
mod reader;

use isl_meter::Cut;
use question::{checked, counts_of, told};
use reader::cert_of;
use std::alloc::Global;
use std::io;
use tests_made::{Count, Form, field, is_case};

// The lines of a case.
const FORMS: [(&str, Form); 9] = [
    ("#", Form::Text),
    ("case ", Form::Text),
    ("columns ", Form::Number),
    ("outs ", Form::Number),
    ("row ", Form::Row),
    ("out0 ", Form::Row),
    ("out1 ", Form::Row),
    ("proof ", Form::Text),
    ("want ", Form::Text),
];

// Whether the proof of a case is taken, or refused, as is wanted.
fn is_taken(alloc: Global, case: &str, proof: &str) -> Result<bool, Cut> {
    let wanted = field(case, "want ") == Some("yes");
    match cert_of(alloc, proof, counts_of(alloc, case)?)? {
        Some(cert) => Ok(checked(alloc, case, &cert)? == Some(wanted)),
        None => Ok(field(case, "want ") == Some("no proof")),
    }
}

// Whether a proof is found where one is wanted, and its text is one that the checker takes.
fn is_found(alloc: Global, case: &str) -> Result<bool, Cut> {
    match (told(alloc, case)?, field(case, "want ")) {
        (Some(text), Some("found")) => match cert_of(
            alloc,
            text.as_str(),
            counts_of(alloc, case)?,
        )? {
            Some(cert) => Ok(checked(alloc, case, &cert)? == Some(true)),
            None => Ok(false),
        },
        (None, Some("none")) => Ok(true),
        _ => Ok(false),
    }
}

fn is_right(alloc: Global, case: &str) -> Result<bool, Cut> {
    match field(case, "proof ") {
        Some(proof) => is_taken(alloc, case, proof),
        None => is_found(alloc, case),
    }
}

// Whether a case is one, and comes to what is wanted. One that differs is printed.
fn holds(rt: &impl Print, alloc: Global, case: &str) -> io::Result<bool> {
    let right = is_right(alloc, case) == Ok(true) && is_case(case, &FORMS);
    if !right {
        println!(rt; "{case}\n  differs\n")?;
    }
    Ok(right)
}

fn main(rt: HostRuntime) -> io::Result<()> {
    let alloc = rt.alloc();
    let text = io::read_to_string(alloc, rt.reader())?;
    let mut count = Count::new();
    for case in text.as_str().split("\n\n").skip(1) {
        count.add(holds(&rt, alloc, case)?);
    }
    count.print(&rt)
}
