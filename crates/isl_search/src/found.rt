//! What a search finds.

use crate::refute::Reach;
use crate::search::Search;
use crate::writer::Writer;
use isl_meter::Cut;
use isl_piece::System;
use isl_refute::Cert;
use std::alloc::Global;

// How deep a search may go.
const FUEL: usize = 4000;

// How deep a tree may be written.
const LEVELS: usize = 8000;

// The normal forms of the system's rows, which stand first, and how many these are.
fn own_rows(search: &mut Search, system: &System) -> Result<(Vec<usize>, usize), Cut> {
    for row in system.rows.as_slice() {
        search.push_own(row)?;
    }
    let own = search.facts.len();
    let mut facts = Vec::with_capacity(search.alloc, own)?;
    for at in 0..own {
        facts.push(search.normal_own(at)?)?;
    }
    Ok((facts, own))
}

/// A proof that no whole point makes the system hold and none of the outs, if the search finds one. All have the same columns, and no
/// defined ones. What is answered is a guess: `isl_refute::check` tells whether it is a proof.
///
/// # Errors
///
/// `Overflow` where a number of the search has more than 127 bits, and `NoMemory`, also where the search ends without a proof: nothing
/// was found, or one of its bounds was reached.
pub fn proof_of(alloc: Global, system: &System, outs: &[System]) -> Result<Cert, Cut> {
    let mut search = Search::new(alloc);
    let (facts, own) = own_rows(&mut search, system)?;
    let mut places = Vec::with_capacity(alloc, outs.len())?;
    for place in 0..outs.len() {
        places.push(place)?;
    }
    let reach = Reach {
        columns: system.columns,
        fuel: FUEL,
    };
    let found = search.cover(facts.as_slice(), outs, places.as_slice(), reach)?;
    let branch = found.ok_or(Cut::NoMemory)?;
    let mut writer = Writer::new(&search, own)?;
    writer.write(&search, branch, system.columns, LEVELS)
}
