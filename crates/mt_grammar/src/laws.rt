ghost use Rattle.std.specs.Prelude.{◌≡◌, ℕ, List, Result, Err};
ghost use Rattle.mt_tree.specs.declared.statement.Stmt.{Stmt};
ghost use Rattle.mt_reader.specs.declared.parse.ParseFault.{ParseFault};
ghost use Rattle.mt_reader.specs.declared.parse.ParseFault.TheVariants.{Memory};
ghost use Rattle.mt_reader.specs.Reading.{ReadsAs, Gives};
ghost use Rattle.mt_grammar.specs.Statement.{SpellsStmt, IsStmtInside};

/// A text reads as one statement at most.
pub fn statements_are_determined()
    ensures { (text : List ℕ) (a b : Stmt) → ReadsAs SpellsStmt text a → ReadsAs SpellsStmt text b → a ≡ b }
{}

/// Each text gives a statement, or says why not. It does nothing.
pub fn each_statement_text_gives_something()
    ensures { (text : List ℕ) → (r : Result Stmt ParseFault) × Gives SpellsStmt IsStmtInside text r × (r ≡ Err Memory → ⊥) }
{}
