//! What names a spelled statement has: laws alone.

ghost use Rattle.std.specs.Prelude.{◌≡◌, ℕ, List, Some};
ghost use Rattle.isl_tree.specs.declared.statement.Stmt.{Stmt};
ghost use Rattle.isl_token.specs.Lex.{tokens};
ghost use Rattle.isl_token.specs.Spelling.{Spells};
ghost use Rattle.isl_token.specs.TokenView.{Token};
ghost use Rattle.isl_stmt.specs.StatementGrammar.{statement_grammar};
ghost use Rattle.isl_stmt.specs.Names.{HasNoDollar};

/// No name of a statement that bytes spell begins with `$`, neither one in it nor the one that it binds. (isl manual, the notation)
pub fn spelled_names()
    ensures { (bytes : List ℕ) (stmt : Stmt) (ts : List Token) → tokens bytes ≡ Some ts → Spells statement_grammar stmt ts
        → HasNoDollar stmt }
{}
