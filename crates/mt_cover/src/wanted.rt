ghost use Rattle.std.specs.Prelude.{◌≡◌, ◌-◌, ◌+◌, ◌<◌, ◌≤◌, ◌↔◌, IsTrue};
ghost use Rattle.mt_fold.specs.Covers.{all_shapes};
ghost use Rattle.mt_cover.specs.Steps.{numbers_of, texts_of};

use mt_fold::Shape;
use mt_fold::Shape::{C1, C2, C3, C4, C5, C6};

/// So many integers and texts that have no fields yet.
#[derive(Clone, Copy)]
pub(crate) struct Wanted {
    pub(crate) numbers: usize,
    pub(crate) texts: usize,
}

impl Wanted {
    /// Whether each column has a field.
    pub(crate) fn is_nothing(self) -> bool
        ensures { IsTrue result ↔ (self.numbers + self.texts ≡ 0) }
    {
        self.numbers == 0 && self.texts == 0
    }

    /// What is wanted yet once there is a chunk of this shape.
    pub(crate) fn after(self, shape: Shape) -> Wanted
        ensures numbers { result.numbers ≡ self.numbers - numbers_of shape }
        ensures texts { result.texts ≡ self.texts - texts_of shape }
    {
        Wanted {
            numbers: self.numbers.saturating_sub(numbers_of(shape)),
            texts: self.texts.saturating_sub(texts_of(shape)),
        }
    }

    /// Whether this is fewer than those.
    pub(crate) fn is_fewer_than(self, all: Wanted) -> bool
        requires few { all.numbers + all.texts ≤ 32 }
        requires numbers { self.numbers ≤ all.numbers }
        requires texts { self.texts ≤ all.texts }
        ensures { IsTrue result ↔ (self.numbers + self.texts < all.numbers + all.texts) }
    {
        self.numbers + self.texts < all.numbers + all.texts
    }
}

/// All shapes, ascending.
pub(crate) fn shapes() -> [Shape; 6]
    ensures { result ≡ all_shapes }
{
    [C1, C2, C3, C4, C5, C6]
}

/// How many integers a chunk of this shape has fields for.
fn numbers_of(shape: Shape) -> usize
    ensures { result ≡ numbers_of shape }
{
    match shape {
        C1 | C3 => 1,
        C2 => 0,
        C4 | C6 => 4,
        C5 => 2,
    }
}

/// How many texts a chunk of this shape has fields for.
fn texts_of(shape: Shape) -> usize
    ensures { result ≡ texts_of shape }
{
    match shape {
        C1 | C4 => 0,
        C2 | C3 => 1,
        C5 => 2,
        C6 => 4,
    }
}
