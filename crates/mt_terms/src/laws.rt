ghost use Rattle.std.specs.Prelude.{◌≡◌, List};
ghost use Rattle.mt_lexer.specs.Tokens.{Lexeme};
ghost use Rattle.mt_tree.specs.declared.expression.Expr.{Expr};
ghost use Rattle.mt_tree.specs.declared.expression.Cond.{Cond};
ghost use Rattle.mt_reader.specs.Fronts.{Begins, BeginsWithNone};
ghost use Rattle.mt_terms.specs.Condition.{SpellsCond};
ghost use Rattle.mt_terms.specs.Expression.{SpellsExpr};
ghost use Rattle.mt_terms.specs.Follow.{expr_goes_on, cond_goes_on};

/// Tokens begin with one expression at most, and with one condition at most, of those with nothing
/// behind them that goes on with it; and so it ends at one place.
pub fn terms_are_determined()
    ensures expression { (tokens rest left : List Lexeme) (a b : Expr) → BeginsWithNone expr_goes_on rest → BeginsWithNone expr_goes_on left → Begins SpellsExpr tokens rest a → Begins SpellsExpr tokens left b → (a ≡ b) × (rest ≡ left) }
    ensures condition { (tokens rest left : List Lexeme) (a b : Cond) → BeginsWithNone cond_goes_on rest → BeginsWithNone cond_goes_on left → Begins SpellsCond tokens rest a → Begins SpellsCond tokens left b → (a ≡ b) × (rest ≡ left) }
{}
