//! What a session has answered, in numbers.

ghost use Rattle.std.specs.Prelude.{◌≡◌, ◌+◌, ◌≤◌, ◌<◌, ◌^◌, if◌then◌else◌};
ghost use Rattle.isl_space.specs.Limits.{most_script_bytes};
ghost use Rattle.isl_session.specs.Counts.{AreCounts, none};

use isl_eval::Answer;

/// How many statements were answered, how many of the answers are `True`, and how many elements they list. The counts are exact:
/// a script has too few bytes for one of them to reach its greatest value.
#[derive(Clone, Copy, PartialEq, Eq)]
pub struct Counts {
    pub statements: u64,
    pub trues: u64,
    pub elements: u128,
}

impl Counts {
    // Nothing was answered yet.
    pub(crate) fn none() -> Counts
        ensures { result ≡ none }
    {
        Counts {
            statements: 0,
            trues: 0,
            elements: 0,
        }
    }

    // With one more answer.
    pub(crate) fn plus(self, answer: &Answer) -> Counts
        requires few { self.statements < most_script_bytes }
        requires counts { AreCounts self }
        ensures sum { result ≡ record {
          statements = self.statements + 1;
          trues = self.trues + (if answer.now.is_true then 1 else 0);
          elements = self.elements + answer.now.elements;
        } }
        ensures counts { AreCounts result }
    {
        Counts {
            statements: self.statements + 1,
            trues: self.trues + u64::from(answer.is_true()),
            elements: self.elements + answer.elements() as u128,
        }
    }
}
