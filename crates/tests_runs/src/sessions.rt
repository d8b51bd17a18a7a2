//! Sessions that are fed in pieces.

use isl_session::{Fault, Session};
use isl_words::read_words;
use std::alloc::{AllocError, Global};
use std::{io, slice};
use tests_made::{bytes, number, words};

// A session with the options that the words of a case choose, and with the room that it has from the beginning.
fn session_of(alloc: Global, case: &str) -> Result<Option<Session>, AllocError> {
    let Ok(options) = read_words(alloc, &words(alloc, case, "words", "iscc")?) else {
        return Ok(None);
    };
    match number(case, "room ", 0) {
        0 => Ok(Some(Session::new(alloc, options))),
        room => Ok(Some(Session::with_room(alloc, options, room)?)),
    }
}

// What a session has answered, and the statements that it skipped.
#[derive(Drop)]
struct Said {
    answers: Vec<u8>,
    skipped: Vec<Fault>,
}

impl Said {
    fn nothing(alloc: Global) -> Said {
        Said {
            answers: Vec::new(alloc),
            skipped: Vec::new(alloc),
        }
    }

    // The skipped statements, a line for each.
    fn lines(&self, alloc: Global) -> Result<String, AllocError> {
        let mut lines = String::new(alloc);
        for fault in &self.skipped {
            let line = format!(in alloc;
                "iscc: statement {}: {}\n",
                fault.statement,
                fault.refusal.text()
            )?;
            lines.push_str(line.as_str())?;
        }
        Ok(lines)
    }
}

// Feeds a piece at once.
fn feed_whole(session: &mut Session, piece: &[u8], said: &mut Said) -> Result<(), Fault> {
    if session.keeps_going() {
        session.feed_on(piece, &mut said.answers, &mut said.skipped)
    } else {
        session.feed(piece, &mut said.answers)
    }
}

// Feeds a piece, whole or byte by byte.
fn feed(session: &mut Session, piece: &[u8], by_byte: bool, said: &mut Said) -> Result<(), Fault> {
    if !by_byte {
        return feed_whole(session, piece, said);
    }
    let mut answer = Ok(());
    for byte in piece {
        answer = feed_whole(session, slice::from_ref(byte), said);
    }
    answer
}

// What a session says of itself behind a call, or why it was refused.
fn told(alloc: Global, session: &Session, answer: Result<(), Fault>) -> Result<String, AllocError> {
    let counts = session.counts();
    match answer {
        Ok(()) => format!(in alloc;
            "held {} statements {} true {} elements {}",
            session.held(),
            counts.statements,
            counts.trues,
            counts.elements
        ),
        Err(fault) => format!(in alloc;
            "statement {} {} overflows {}",
            fault.statement,
            fault.refusal.text(),
            session.meter().overflows()
        ),
    }
}

// What a line does with a session; none where it does nothing.
fn done(
    session: &mut Session,
    line: &str,
    by_byte: bool,
    said: &mut Said,
) -> Option<Result<(), Fault>> {
    if let Some(piece) = line.strip_prefix("feed ") {
        return Some(feed(session, piece.as_bytes(), by_byte, said));
    }
    if let Some(piece) = line.strip_prefix("feed-line ") {
        let _first = feed(session, piece.as_bytes(), by_byte, said);
        return Some(feed_whole(session, b"\n", said));
    }
    if line == "finish" {
        return Some(session.finish(&mut said.answers));
    }
    None
}

// Whether a session comes to what a case wants of it, line by line.
fn comes_to(rt: &impl Print, alloc: Global, case: &str, by_byte: bool) -> io::Result<bool> {
    let Some(mut session) = session_of(alloc, case)? else {
        return Ok(false);
    };
    let mut said = Said::nothing(alloc);
    let mut last = Ok(());
    for line in case.lines() {
        last = done(&mut session, line, by_byte, &mut said).unwrap_or(last);
        let found = told(alloc, &session, last)?;
        if let Some(wanted) = line.strip_prefix("then ") {
            if found.as_str() != wanted || session.room() < number(case, "room ", 0) {
                println!(rt; "{case}\n  {found}\n  wanted {wanted}")?;
                return Ok(false);
            }
        }
    }
    let lines = said.lines(alloc)?;
    let right = said.answers.as_slice() == bytes(alloc, case, "out")?.as_slice()
        && lines.as_bytes() == bytes(alloc, case, "err")?.as_slice();
    if !right {
        println!(rt;
            "{case}\n  {}",
            str::from_utf8(&said.answers).unwrap_or("(no text)")
        )?;
    }
    Ok(right)
}

/// Whether a session comes to what a case wants of it, fed piece by piece and byte by byte.
pub(crate) fn session_holds(rt: &impl Print, alloc: Global, case: &str) -> io::Result<bool> {
    Ok(comes_to(rt, alloc, case, false)? && comes_to(rt, alloc, case, true)?)
}
