ghost use Rattle.std.specs.Prelude.{◌≡◌, List};
ghost use Rattle.mt_lexer.specs.Tokens.{Lexeme};
ghost use Rattle.mt_tree.specs.declared.statement.Select.{Select};
ghost use Rattle.mt_statements.specs.Query.{SpellsSelect};
ghost use Rattle.mt_reader.specs.Fronts.{AtEnd, Begins};
ghost use Rattle.mt_tree.specs.declared.statement.Stmt.{Stmt};
ghost use Rattle.mt_statements.specs.Change.{SpellsChange};

/// Tokens begin with one SELECT at most, of those with nothing behind them but perhaps a semicolon;
/// and so it ends at one place.
pub fn selects_are_determined()
    ensures { (tokens rest left : List Lexeme) (a b : Select) → AtEnd rest → AtEnd left → Begins SpellsSelect tokens rest a → Begins SpellsSelect tokens left b → (a ≡ b) × (rest ≡ left) }
{}

/// Tokens begin with one statement that changes rows at most, of those with nothing behind them but
/// perhaps a semicolon; and so it ends at one place.
pub fn changes_are_determined()
    ensures { (tokens rest left : List Lexeme) (a b : Stmt) → AtEnd rest → AtEnd left → Begins SpellsChange tokens rest a → Begins SpellsChange tokens left b → (a ≡ b) × (rest ≡ left) }
{}
