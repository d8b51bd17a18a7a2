//! What is true of every script that is made.

ghost use Rattle.std.specs.Prelude.{◌≡◌, ℕ, ◌*◌, ◌≤◌, length};
ghost use Rattle.isl_script.specs.Script.{IsBlank, rest_of, statements};
ghost use Rattle.isl_stencil.specs.Stencil.{most_sizes, stencil};

/// The script of so many sizes is ten statements for each, and nothing else.
pub fn stencils_are_whole()
    ensures count { (n : ℕ) → n ≤ most_sizes → length (statements (stencil n)) ≡ 10 * n }
    ensures blank { (n : ℕ) → n ≤ most_sizes → IsBlank (rest_of (stencil n)) }
    ensures few { (n : ℕ) → n ≤ most_sizes → length (stencil n) ≤ 512 * n }
{}
