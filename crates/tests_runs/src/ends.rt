//! Runs over ends in memory, and over ends that never fail.

use isl_io::{CleanSink, CleanSource, MemSink, MemSource};
use isl_session::{WordsFault, refuse_words, run};
use std::alloc::{AllocError, Global};
use tests_made::words;

// Whether a run over ends in memory, whose third read fails, answers the two statements before it, three bytes a write, and tells of it.
fn memory_is_right(alloc: Global) -> Result<bool, AllocError> {
    let words = words(alloc, "", "words", "iscc")?;
    let fails: Vec<u64> = vec![in alloc; 2]?;
    let mut src = MemSource::new(b"{ };{ };{ };".to_vec(alloc)?, 4, fails);
    let mut out = MemSink::new(alloc, 100, 3, Vec::new(alloc))?;
    let mut err = MemSink::new(alloc, 100, 100, Vec::new(alloc))?;
    let code = run(alloc, &words, &mut src, &mut out, &mut err).code();
    let is_told = err.bytes() == b"iscc: statement 3: read failed\n".as_slice();
    Ok(code == 19 && is_told && out.bytes() == b"{ }\n{ }\n".as_slice())
}

// The status of a run with these words over ends that never fail, which end in the middle of a statement.
fn clean_status(alloc: Global, said: &str) -> Result<u8, AllocError> {
    let words = words(alloc, "", "words", said)?;
    let mut src = CleanSource::new(b"{ };{".to_vec(alloc)?, 3);
    Ok(run(
        alloc,
        &words,
        &mut src,
        &mut CleanSink::new(),
        &mut CleanSink::new(),
    )
    .code())
}

/// Whether runs over ends in memory, and over ends that never fail, come to what is wanted, also without any word; and words that could
/// not be handed over are refused, on both.
pub(crate) fn are_right(alloc: Global) -> Result<bool, AllocError> {
    let mut err = MemSink::new(alloc, 100, 100, Vec::new(alloc))?;
    let refused = refuse_words(&mut err, WordsFault::NoMemory);
    let usage = refuse_words(&mut CleanSink::new(), WordsFault::Usage);
    let is_told = err.bytes() == b"iscc: statement 1: out of memory\n".as_slice();
    let is_refused = refused.code() == 21 && refused.meter().is_none() && usage.code() == 2;
    let is_clean = clean_status(alloc, "iscc")? == 16 && clean_status(alloc, "")? == 2;
    Ok(is_told && is_refused && is_clean && memory_is_right(alloc)?)
}
