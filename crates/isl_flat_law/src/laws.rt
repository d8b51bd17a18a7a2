//! What holds of simple statements. This function does nothing: its contract is the law.

ghost use Rattle.std.specs.Prelude.{◌≡◌, ◌≤◌, ◌^◌, false, length};
ghost use Rattle.isl_tree.specs.declared.statement.Stmt.{Stmt};
ghost use Rattle.isl_flat.specs.Flat.{flat};
ghost use Rattle.isl_flat_law.specs.PutBack.{Say};
ghost use Rattle.isl_flat.specs.Simple.{has_dollar};

/// What `flatten` names, put back into the last statement that it answers, gives the statement, where no `$` name stands in it and no
/// more names were made than are told apart.
pub fn named_is_put_back()
    ensures { (stmt : Stmt) → has_dollar stmt ≡ false → length (flat stmt) ≤ 2 ^ 64 → Say stmt (flat stmt) }
{}
