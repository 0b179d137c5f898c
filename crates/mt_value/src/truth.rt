ghost use Rattle.std.specs.Prelude.{◌≡◌};
ghost use Rattle.mt_value.specs.Logic.{and_of, or_of, not_of};

/// A truth value of SQL:1999, in the order False, Unknown, True.
#[derive(Clone, Copy, Debug, PartialEq, Eq)]
pub enum Truth {
    False,
    Unknown,
    True,
}

/// A comparison: `=`, `<>`, `<`, `<=`, `>` or `>=`.
#[derive(Clone, Copy, Debug, PartialEq, Eq)]
pub enum Cmp {
    Eq,
    Ne,
    Lt,
    Le,
    Gt,
    Ge,
}

/// AND: the least of the two.
pub fn and(a: Truth, b: Truth) -> Truth
    ensures { result ≡ and_of a b }
{
    match (a, b) {
        (Truth::False, _) | (_, Truth::False) => Truth::False,
        (Truth::Unknown, _) | (_, Truth::Unknown) => Truth::Unknown,
        (Truth::True, Truth::True) => Truth::True,
    }
}

/// OR: the greatest of the two.
pub fn or(a: Truth, b: Truth) -> Truth
    ensures { result ≡ or_of a b }
{
    match (a, b) {
        (Truth::True, _) | (_, Truth::True) => Truth::True,
        (Truth::Unknown, _) | (_, Truth::Unknown) => Truth::Unknown,
        (Truth::False, Truth::False) => Truth::False,
    }
}

/// NOT exchanges False and True.
pub fn not(a: Truth) -> Truth
    ensures { result ≡ not_of a }
{
    match a {
        Truth::False => Truth::True,
        Truth::Unknown => Truth::Unknown,
        Truth::True => Truth::False,
    }
}

/// AND and OR mind neither the order nor the grouping of what they join, and NOT turns one into the
/// other. It does nothing.
pub fn logic_is_symmetric()
    ensures and_order { (a b : Truth) → and_of a b ≡ and_of b a }
    ensures and_grouping { (a b c : Truth) → and_of (and_of a b) c ≡ and_of a (and_of b c) }
    ensures or_order { (a b : Truth) → or_of a b ≡ or_of b a }
    ensures or_grouping { (a b c : Truth) → or_of (or_of a b) c ≡ or_of a (or_of b c) }
    ensures not_and { (a b : Truth) → not_of (and_of a b) ≡ or_of (not_of a) (not_of b) }
    ensures not_or { (a b : Truth) → not_of (or_of a b) ≡ and_of (not_of a) (not_of b) }
    ensures not_not { (a : Truth) → not_of (not_of a) ≡ a }
{}
