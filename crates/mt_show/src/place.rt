ghost use Rattle.std.specs.Prelude.{◌≡◌};
ghost use Rattle.mt_show.specs.Printing.{is_member, is_inner};

/// Where an expression or a condition stands.
#[derive(Clone, Copy, Debug, PartialEq, Eq)]
pub(crate) enum Place {
    /// Alone, or within brackets.
    Whole,
    /// As a member of a sum or an OR.
    Outer,
    /// As a member of a product or an AND, or behind NOT.
    Inner,
}

impl Place {
    /// Whether a sum or an OR needs brackets here.
    pub fn is_member(self) -> bool
        ensures { result ≡ is_member self }
    {
        match self {
            Place::Whole => false,
            Place::Outer | Place::Inner => true,
        }
    }

    /// Whether a product or an AND needs brackets here.
    pub fn is_inner(self) -> bool
        ensures { result ≡ is_inner self }
    {
        match self {
            Place::Whole | Place::Outer => false,
            Place::Inner => true,
        }
    }
}
