ghost use Rattle.std.specs.Prelude.{◌≡◌, ℕ, List};
ghost use Rattle.mt_lexer.specs.declared.token.Token.{Token};
ghost use Rattle.mt_lexer.specs.Tokens.{Lexeme, Says, HasNoTokenAt};

/// A text has at most one list of tokens, which say one thing, and none where some place of it has
/// no token; that place is one.
pub fn tokens_are_determined()
    ensures tokens { (text : List ℕ) (ts us : List Token) (ls ms : List Lexeme) → Says text ts ls → Says text us ms → (ts ≡ us) × (ls ≡ ms) }
    ensures refused { (text : List ℕ) (at : ℕ) (ts : List Token) (ls : List Lexeme) → HasNoTokenAt text at → Says text ts ls → ⊥ }
    ensures place { (text : List ℕ) (at other : ℕ) → HasNoTokenAt text at → HasNoTokenAt text other → at ≡ other }
{}
