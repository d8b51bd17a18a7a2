//! The calculator over the standard streams.
#![tactic(auto)]

use isl_io::{StdSink, StdSource};
use isl_session::{WordsFault, refuse_words, run};
use std::alloc::{AllocGlobal, Global};
use std::env;
use std::env::Env;
use std::io::ErrorKind;
use std::process::ExitCode;

// The words of the command line, the program's name first. Words that are no text choose nothing.
fn words_of(rt: &(impl Env + AllocGlobal), alloc: Global) -> Result<Vec<String>, WordsFault> {
    match env::args(rt) {
        Ok(words) => Ok(words.collect(alloc)?),
        Err(error) if error.kind() == ErrorKind::OutOfMemory => Err(WordsFault::NoMemory),
        Err(_) => Err(WordsFault::Usage),
    }
}

fn main(rt: HostRuntime) -> ExitCode {
    let alloc = rt.alloc();
    let mut src = StdSource::new(rt.stdin());
    let mut out = StdSink::new(rt.stdout());
    let mut err = StdSink::new(rt.stderr());
    let status = match words_of(&rt, alloc) {
        Ok(words) => run(alloc, &words, &mut src, &mut out, &mut err),
        Err(fault) => refuse_words(&mut err, fault),
    };
    ExitCode::from(status.code())
}
