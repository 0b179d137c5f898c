ghost use Rattle.std.specs.Prelude.{◌≡◌, ◌∷◌, ◌++◌, IfNone, IfSome};
ghost use Rattle.mt_value.specs.Printed.{doubled};

/// What stands in front of the first single quote of a text, and what behind it. `None` where there
/// is no quote. Who prints a text with its quotes doubled takes it piece by piece.
pub fn split_quote(text: &str) -> Option<(&str, &str)>
    ensures none { IfNone result (doubled text.now ≡ text.now) }
    ensures parts { IfSome result (λ parts. text.now ≡ parts.0.now ++ 39 ∷ parts.1.now) }
    ensures front { IfSome result (λ parts. doubled parts.0.now ≡ parts.0.now) }
{
    text.split_once('\'')
}
