//! A session takes a script in pieces of any length, and answers each statement as soon as it is complete.

ghost use Rattle.std.specs.Prelude.{◌≡◌, ◌+◌, ◌<◌, ◌≤◌, ◌++◌, [], ◌∷◌, ℕ, List, length, take, true, false, Some, None, IfSome, IfNone};
ghost use Rattle.std.specs.Prelude.{IfErr};
ghost use Rattle.std.specs.Prelude.{IfOk, IsOk, OnOk, MatchBool, vec_len, vec_capacity};
ghost use Rattle.std.specs.Option.{option_or};
ghost use Rattle.isl_space.specs.Limits.{most_script_bytes, most_statement_bytes};
ghost use Rattle.isl_script.specs.Script.{ends};
ghost use Rattle.isl_session.specs.Valid.{AnswersValid};
ghost use Rattle.isl_session.specs.Counts.{AreCounts};
ghost use Rattle.isl_session.specs.Outcome.{Outcome, EndsRun, faults_from, skips_of, text_of};
ghost use Rattle.isl_refusal.specs.Refusal.{in_statement, place_of};
ghost use Rattle.isl_session.specs.View.{Fed, Feeds, FeedsOn, Finishes, HasRoomFor, IsReady, IsRefusedAt, Stopped};
ghost use Rattle.isl_session.specs.View.{begun, fresh, passed};

use crate::skips::room_for_fault;
use crate::{Counts, Fault, Options};
use isl_eval::answer;
use isl_meter::Meter;
use isl_refusal::Refusal;
use isl_script::Cutter;
use isl_space::limits::{SCRIPT_MAX, STATEMENT_MAX};
use isl_values::State;
use std::alloc::{AllocError, Global};
use std::marker::Model;

/// Answers the statements of one script.
///
/// A refusal ends it: from then on each call answers the same fault and changes nothing. Where going on is chosen, a complete statement
/// that is refused for what it says, or while it is worked out, is skipped instead: it binds nothing and answers nothing.
#[derive(Drop)]
pub struct Session {
    alloc: Global,
    options: Options,
    state: State,
    rest: Vec<u8>,
    cutter: Cutter,
    taken: u64,
    counts: Counts,
    skips: u64,
    first: Option<Refusal>,
    fault: Option<Fault>,
    meter: Meter,
}

impl Model for Session {
    ghost use Rattle.isl_session.specs.View.{View};

    ghost Value = { View };

    ghost use Rattle.std.specs.Coded.{codes};
    ghost use Rattle.isl_values.specs.Stored.{state_code};

    ghost coded = { Prim.hlevel (codes, state_code) };

    ghost use Rattle.isl_session.specs.Session.{view_of, IsSound};

    ghost view = { view_of };

    ghost invariant = { IsSound };
}

impl Session {
    /// Nothing is taken yet and nothing is bound.
    pub fn new(alloc: Global, options: Options) -> Session
        ensures { result ≡ fresh (begun options) }
    {
        let bits = options.bits();
        let budget = options.budget();
        Session {
            alloc,
            options,
            state: State::new(alloc),
            rest: Vec::new(alloc),
            cutter: Cutter::new(),
            taken: 0,
            counts: Counts::none(),
            skips: 0,
            first: None,
            fault: None,
            meter: Meter::new(bits, budget),
        }
    }

    /// The same, with memory for so many held bytes.
    ///
    /// # Errors
    /// `AllocError` where that memory is not there.
    pub fn with_room(alloc: Global, options: Options, bytes: usize) -> Result<Session, AllocError>
        ensures { IfOk result (λ session. session ≡ record (fresh (begun options)) { room = bytes }) }
    {
        let mut session = Session::new(alloc, options);
        session.rest = Vec::with_capacity(alloc, bytes)?;
        Ok(session)
    }

    // Takes one byte, and tells whether it ended a statement, which is then answered. Where going on is chosen, room for a fault is
    // taken before a statement is worked out.
    #[tactic(auto, using(std::proofs::lemmas::Grind::common_steps, crate::proofs::MeterLemmas::charged_from_start))]
    fn take_byte(
        &mut self,
        byte: u8,
        text: &mut Vec<u8>,
        skipped: &mut Vec<Fault>,
    ) -> Result<bool, Refusal>
        requires { self.old.fault ≡ None }
        ensures ok { IfOk result (λ ended. (outcomes : List Outcome)
            × (text.new.items ≡ text.old.items ++ text_of outcomes)
            × Fed self.old (byte ∷ []) outcomes self.new × (length outcomes ≤ 1) × (skips_of outcomes ≡ [])
            × (ended ≡ false → outcomes ≡ [])) }
        ensures err { IfErr result (λ refusal. (text.new.items ≡ text.old.items)
            × IsRefusedAt self.old byte refusal self.new) }
        ensures skipped { skipped.new.items ≡ skipped.old.items }
        ensures room { IfErr result (λ refusal. self.new.options.keep_going ≡ true
            → place_of refusal ≡ in_statement → vec_len skipped.new < vec_capacity skipped.new) }
    {
        if self.taken >= SCRIPT_MAX {
            return Err(Refusal::ScriptTooLong);
        }
        let mut cutter = self.cutter;
        if cutter.push(byte) {
            self.meter.start();
            room_for_fault(&self.options, skipped)?;
            let answered = match answer(
                self.alloc,
                &self.rest,
                &mut self.state,
                &self.options,
                &mut self.meter,
            ) {
                Ok(answered) => answered,
                Err(refusal) => return Err(refusal),
            };
            answered.append_to(text)?;
            self.rest.clear();
            self.cutter = cutter;
            let grown = self.counts.plus(&answered);
            self.counts = grown;
            self.taken += 1;
            return Ok(true);
        }
        if self.rest.len() >= STATEMENT_MAX {
            return Err(Refusal::TooLong);
        }
        self.rest.push(byte)?;
        self.cutter = cutter;
        self.taken += 1;
        Ok(false)
    }

    // Whether a complete statement that is refused so is skipped.
    fn skips(&self, refusal: Refusal) -> bool
        ensures { MatchBool result ((self.now.options.keep_going ≡ true) × (place_of refusal ≡ in_statement))
            (EndsRun self.now.options refusal) }
    {
        self.options.keep_going() && refusal.is_of_statement()
    }

    // Passes over the statement that this byte ends, which was refused, and tells its number and why.
    fn skip(&mut self, byte: u8, refusal: Refusal) -> Fault
        requires ends { ends self.old.rest byte ≡ true }
        requires within { self.old.taken < most_script_bytes }
        ensures fault { result ≡ record { statement = passed self.old + 1; refusal = refusal } }
        ensures passed { self.new ≡ record self.old {
          rest = [];
          room = self.new.room;
          taken = self.old.taken + 1;
          skips = self.old.skips + 1;
          first = option_or self.old.first (Some refusal);
        } }
        ensures room { self.old.room ≤ self.new.room }
    {
        let fault = Fault {
            statement: self.counts.statements + self.skips + 1,
            refusal,
        };
        let mut cutter = self.cutter;
        cutter.push(byte);
        self.cutter = cutter;
        self.rest.clear();
        self.taken += 1;
        self.skips += 1;
        self.first = self.first.or(Some(refusal));
        fault
    }

    // Takes the front of a piece up to the first end of a statement in it, or all of it, and appends the answer
    // of that statement, or why it is skipped. It tells how many bytes it took.
    pub(crate) fn take_front(
        &mut self,
        piece: &[u8],
        text: &mut Vec<u8>,
        skipped: &mut Vec<Fault>,
    ) -> Result<usize, Fault>
        requires { IsReady self.old }
        ensures ok { IfOk result (λ n. (n ≤ length piece.now) × (0 < length piece.now → 0 < n)
            × ((outcomes : List Outcome)
            × (text.new.items ≡ text.old.items ++ text_of outcomes)
            × (skipped.new.items ≡ skipped.old.items ++ faults_from (passed self.old) outcomes)
            × Fed self.old (take n piece.now) outcomes self.new × (length outcomes ≤ 1))) }
        ensures err { IfErr result (λ fault. (text.new.items ≡ text.old.items)
            × (skipped.new.items ≡ skipped.old.items)
            × Stopped self.old piece.now [] self.new fault) }
    {
        for (i, byte) in piece.iter().enumerate() {
            match self.take_byte(*byte, text, skipped) {
                Ok(false) => {}
                Ok(true) => return Ok(i + 1),
                Err(refusal) => {
                    if self.skips(refusal) {
                        let fault = self.skip(*byte, refusal);
                        skipped.push(fault).unwrap();
                        return Ok(i + 1);
                    }
                    return Err(self.refuse(refusal));
                }
            }
        }
        Ok(piece.len())
    }

    // Takes a piece of the script, whether refused statements are skipped or not.
    fn feed_all(
        &mut self,
        piece: &[u8],
        text: &mut Vec<u8>,
        skipped: &mut Vec<Fault>,
    ) -> Result<(), Fault>
        ensures faulted { IfSome self.old.fault (λ fault. (result ≡ Err fault) × (self.new ≡ self.old)
            × (text.new.items ≡ text.old.items) × (skipped.new.items ≡ skipped.old.items)) }
        ensures fed { IfNone self.old.fault
            (FeedsOn self.old piece.now text.old.items text.new.items skipped.old.items skipped.new.items self.new result) }

        // Valid statements are answered, unless memory ends or a refusal is counted.
        ensures complete { IfNone self.old.fault (AnswersValid self.old piece.now self.new result) }

        // Bytes that are only held, within the room, are taken without asking for memory.
        ensures room { IfNone self.old.fault (HasRoomFor self.old piece.now → IsOk result) }
        ensures room_kept { self.old.room ≤ self.new.room }
    {
        if let Some(kept) = self.fault {
            return Err(kept);
        }
        let mut at = 0;
        while at < piece.len() {
            match self.take_front(&piece[at..], text, skipped) {
                Ok(n) => at += n,
                Err(fault) => return Err(fault),
            }
        }
        Ok(())
    }

    /// Takes a piece of the script, and appends the answers of the statements that it completes, up to the
    /// first refused one.
    pub fn feed(&mut self, piece: &[u8], text: &mut Vec<u8>) -> Result<(), Fault>
        requires { self.old.options.keep_going ≡ false }
        ensures faulted { IfSome self.old.fault (λ fault. (result ≡ Err fault) × (self.new ≡ self.old)
            × (text.new.items ≡ text.old.items)) }
        ensures fed { IfNone self.old.fault
            (Feeds self.old piece.now text.old.items text.new.items self.new result) }

        // Valid statements are answered, unless memory ends or a refusal is counted.
        ensures complete { IfNone self.old.fault (AnswersValid self.old piece.now self.new result) }

        // Bytes that are only held, within the room, are taken without asking for memory.
        ensures room { IfNone self.old.fault (HasRoomFor self.old piece.now → IsOk result) }
        ensures room_kept { self.old.room ≤ self.new.room }
    {
        let mut none = Vec::new(self.alloc);
        self.feed_all(piece, text, &mut none)
    }

    /// Takes a piece of the script, and appends the answers of the statements that it completes, and why others are skipped, up to a
    /// refusal that ends the session: one that is not of a complete statement, or want of memory.
    pub fn feed_on(
        &mut self,
        piece: &[u8],
        text: &mut Vec<u8>,
        skipped: &mut Vec<Fault>,
    ) -> Result<(), Fault>
        requires { self.old.options.keep_going ≡ true }
        ensures faulted { IfSome self.old.fault (λ fault. (result ≡ Err fault) × (self.new ≡ self.old)
            × (text.new.items ≡ text.old.items) × (skipped.new.items ≡ skipped.old.items)) }
        ensures fed { IfNone self.old.fault
            (FeedsOn self.old piece.now text.old.items text.new.items skipped.old.items skipped.new.items self.new result) }

        // Where the statements are valid and no refusal is counted, an error is want of memory alone.
        ensures complete { IfNone self.old.fault (AnswersValid self.old piece.now self.new result) }

        // Bytes that are only held, within the room, are taken without asking for memory.
        ensures room { IfNone self.old.fault (HasRoomFor self.old piece.now → IsOk result) }
        ensures room_kept { self.old.room ≤ self.new.room }
    {
        self.feed_all(piece, text, skipped)
    }

    /// Says that the script ended. It takes no memory, and appends nothing.
    pub fn finish(&mut self, text: &mut Vec<u8>) -> Result<(), Fault>
        ensures faulted { IfSome self.old.fault (λ fault. (result ≡ Err fault) × (self.new ≡ self.old)) }
        ensures finished { IfNone self.old.fault (Finishes self.old self.new result) }
        ensures text { text.new ≡ text.old }
    {
        let _ = text;
        if let Some(fault) = self.fault {
            return Err(fault);
        }
        if self.cutter.blank() {
            return Ok(());
        }
        Err(self.refuse(Refusal::Unfinished))
    }

    // Keeps the fault of a session that is refused now: it speaks of the statement behind those that were
    // answered or skipped.
    fn refuse(&mut self, refusal: Refusal) -> Fault
        ensures fault { result ≡ record { statement = passed self.old + 1; refusal = refusal } }
        ensures kept { self.new ≡ record self.old { fault = Some result } }
    {
        let fault = Fault {
            statement: self.counts.statements + self.skips + 1,
            refusal,
        };
        self.fault = Some(fault);
        fault
    }

    /// What was answered.
    pub fn counts(&self) -> Counts
        ensures counts { result ≡ self.now.counts }
        ensures sound { AreCounts result }
        ensures few { result.statements ≤ most_script_bytes }
    {
        self.counts
    }

    // How many statements were answered or skipped.
    pub(crate) fn passed(&self) -> u64
        ensures count { result ≡ passed self.now }
        ensures few { result ≤ most_script_bytes }
    {
        self.counts.statements + self.skips
    }

    // Why the first skipped statement was skipped, or none where none was.
    pub(crate) fn first_skip(&self) -> Option<Refusal>
        ensures { result ≡ self.now.first }
    {
        self.first
    }

    /// Whether refused statements are skipped.
    pub fn keeps_going(&self) -> bool
        ensures { result ≡ self.now.options.keep_going }
    {
        self.options.keep_going()
    }

    /// How many bytes are held: those behind the last statement's end, blanks and comments counted.
    pub fn held(&self) -> usize
        ensures count { result ≡ length self.now.rest }
        ensures few { result ≤ most_statement_bytes }
    {
        self.rest.len()
    }

    /// How many bytes may be held before memory is asked for. No call makes them fewer.
    pub fn room(&self) -> usize
        ensures { result ≡ self.now.room }
    {
        self.rest.capacity()
    }

    // How many bytes of the script were taken.
    pub(crate) fn taken(&self) -> u64
        ensures count { result ≡ self.now.taken }
        ensures few { result ≤ most_script_bytes }
    {
        self.taken
    }

    /// The meter of the session's arithmetic.
    pub fn meter(&self) -> &Meter
        ensures { result.now ≡ self.now.meter }
    {
        &self.meter
    }

    // Gives the session up, and keeps its meter.
    pub(crate) fn into_meter(self) -> Meter
        ensures { result ≡ self.meter }
    {
        self.meter
    }
}
