ghost use Rattle.std.specs.Prelude.{◌≡◌, ℕ, List};
ghost use Rattle.mt_value.specs.declared.value.Value.{Value};
ghost use Rattle.mt_codec.specs.declared.field.FieldKind.{FieldKind};
ghost use Rattle.mt_codec.specs.Fields.{Fits, field_bytes, IsField, IsKind};

/// Bytes spell one value at most, and what is written for a value that fits spells that value.
#[tactic(auto, using(crate::proofs::Again::field_again, crate::proofs::Spelling::one_value))]
pub fn fields_and_values_are_one()
    ensures one { (kind : FieldKind) (bytes : List ℕ) (a b : Value) → IsField kind bytes a → IsField kind bytes b → a ≡ b }
    ensures again { (kind : FieldKind) (value : Value) → IsKind kind → Fits kind value → IsField kind (field_bytes kind value) value }
{}
