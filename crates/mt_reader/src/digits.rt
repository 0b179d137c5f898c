ghost use Rattle.std.specs.Prelude.{◌≡◌, ◌+◌, ◌^◌, ◌<◌, SomeIff, pos, neg_ℤ};
ghost use Rattle.std.specs.List.{AllPass};
ghost use Rattle.std.specs.Str.Parse.{digits_value};
ghost use Rattle.mt_lexer.specs.Tokens.{is_digit};
ghost use Rattle.mt_reader.specs.Literals.{limit_64};

/// The number that digits spell, where it is below 2^64.
#[tactic(auto, using(crate::proofs::Numbers::digits_value_step, crate::proofs::Numbers::digits_value_above))]
fn value_of(digits: &[u8]) -> Option<u64>
    requires { AllPass is_digit digits.now }
    ensures { SomeIff result (digits_value 10 digits.now < 2 ^ 64) (digits_value 10 digits.now) }
{
    let mut value: u64 = 0;
    for digit in digits {
        value = value
            .checked_mul(10)?
            .checked_add(u64::from(*digit - b'0'))?;
    }
    Some(value)
}

/// The number that digits spell, where it is below 2^63.
pub fn size_of(digits: &[u8]) -> Option<u64>
    requires { AllPass is_digit digits.now }
    ensures { SomeIff result (digits_value 10 digits.now < limit_64) (digits_value 10 digits.now) }
{
    value_of(digits).filter(|value| *value < 1 << 63)
}

/// The integer that digits spell, where it is inside 64 bits.
pub fn integer_of(digits: &[u8]) -> Option<i64>
    requires { AllPass is_digit digits.now }
    ensures { SomeIff result (digits_value 10 digits.now < limit_64) (pos (digits_value 10 digits.now)) }
{
    i64::try_from(value_of(digits)?).ok()
}

/// The integer that a minus and digits spell, where it is inside 64 bits.
pub fn negative_of(digits: &[u8]) -> Option<i64>
    requires { AllPass is_digit digits.now }
    ensures { SomeIff result (digits_value 10 digits.now < limit_64 + 1) (neg_ℤ (pos (digits_value 10 digits.now))) }
{
    0i64.checked_sub_unsigned(value_of(digits)?)
}
