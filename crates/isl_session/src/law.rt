//! What is true of every run in which refused statements may be skipped.

ghost use Rattle.std.specs.Prelude.{◌≡◌, ◌≤◌, ℕ, List, [], length, true};
ghost use Rattle.isl_math.specs.Count.{Rose};
ghost use Rattle.isl_meter.specs.Gauge.{Gauge};
ghost use Rattle.isl_script.specs.Script.{IsBlank, rest_of, statements};
ghost use Rattle.isl_space.specs.Limits.{most_script_bytes};
ghost use Rattle.isl_refusal.specs.declared.refusal.Refusal.{Refusal};
ghost use Rattle.isl_values.specs.State.{Moment};
ghost use Rattle.isl_eval.specs.Causes.{IsValid};
ghost use Rattle.isl_eval.specs.Run.{Run, started};
ghost use Rattle.isl_session.specs.Outcome.{Outcome, RunOn, Skips, answers_of, skips_of};
ghost use Rattle.isl_session.specs.Run.{Answered, Outside};
ghost use Rattle.isl_session.specs.Status.{StatusView};
ghost use Rattle.isl_session.specs.Valid.{IsDoneOrMemory};
ghost use Rattle.isl_session.specs.View.{AreShort};

/// Where refused statements are skipped, a script that ends behind a statement, and of which no part is too long, is read to its end,
/// unless memory ends or a read or a write fails. A skipped statement that counted no refusal is not valid with what is bound before it.
pub fn skipping_goes_on()
    ensures whole { (first : Moment) (script : List ℕ) (old new : Outside) (status : StatusView)
        (run : Answered first script old new status) → first.options.keep_going ≡ true
        → IsBlank (rest_of script) → AreShort (statements script) (rest_of script)
        → length script ≤ most_script_bytes
        → ¬ (Rose old.reads new.reads) → ¬ (Rose old.writes new.writes) → IsDoneOrMemory run.ending }
    ensures wrong { (before : Moment) (bytes : List ℕ) (refusal : Refusal) (now : Gauge)
        → Skips before bytes refusal now → ¬ (Rose before.meter.overflows now.overflows)
        → ¬ (Rose before.meter.spents now.spents) → ¬ (IsValid (started before) bytes) }
{}

/// Where none was skipped, the statements were answered one after another: what is true of every such run is true of this one.
pub fn answered_is_a_run()
    ensures run { (before after : Moment) (parts : List (List ℕ)) (outcomes : List Outcome) → RunOn before parts outcomes after
        → skips_of outcomes ≡ [] → Run before parts (answers_of outcomes) after }
{}
