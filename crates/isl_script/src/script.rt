//! What is true of every script.

ghost use Rattle.std.specs.Prelude.{◌≡◌, ℕ, ◌^◌, ◌≤◌, ◌↔◌, ◌||◌, List, [], ◌∷◌, ◌++◌, length, drop, IsTrue, true, false};
ghost use Rattle.isl_script.specs.Script.{place_of, is_blank, is_commented, ends, IsBlank, IsCut, statements, rest_of, readable};

/// How every script is cut: in one way, which does not depend on the pieces that its bytes arrive in.
pub fn scripts_are_cut()
    ensures cut { (script : List ℕ) → IsCut script (statements script) (rest_of script) }
    ensures once { (script rest : List ℕ) (parts : List (List ℕ)) → IsCut script parts rest
        → (parts ≡ statements script) × (rest ≡ rest_of script) }

    // Two pieces of a script, one after the other.
    ensures later_statements { (xs ys : List ℕ)
        → statements (xs ++ ys) ≡ statements xs ++ statements (rest_of xs ++ ys) }
    ensures later_rest { (xs ys : List ℕ) → rest_of (xs ++ ys) ≡ rest_of (rest_of xs ++ ys) }

    // One more byte.
    ensures ended { (script : List ℕ) (b : ℕ) → ends (rest_of script) b ≡ true
        → (statements (script ++ b ∷ []) ≡ statements script ++ rest_of script ∷ [])
        × (rest_of (script ++ b ∷ []) ≡ []) }
    ensures held { (script : List ℕ) (b : ℕ) → ends (rest_of script) b ≡ false
        → (statements (script ++ b ∷ []) ≡ statements script)
        × (rest_of (script ++ b ∷ []) ≡ rest_of script ++ b ∷ []) }
    ensures blank { (part : List ℕ) (b : ℕ) → IsBlank (part ++ b ∷ [])
        ↔ (IsBlank part × IsTrue (is_commented part b || is_blank b)) }

    // No more brackets are open than there are bytes.
    ensures depth { (part : List ℕ) → (place_of part).depth ≤ length part }

    // The bytes of a script behind the first 2^30 belong to no statement and not to the rest.
    ensures readable { (script : List ℕ) → script ≡ readable script ++ drop (2 ^ 30) script }
{}
