//! What holds of loops that have one text. The functions do nothing: their contracts are the laws.
#![tactic(auto)]

ghost use Rattle.isl_loop_law.specs.OneTrace.{OneTrace, ProgramTells};

/// Of two trees with the same parameters and the same text, the calls are the same at every point, and so are the turns.
pub fn one_trace()
    ensures { OneTrace }
{}

/// The text of a tree over the parameters of a value, as `codegen` answers it, tells what is executed.
pub fn program_tells()
    ensures { ProgramTells }
{}
