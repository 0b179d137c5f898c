ghost use Rattle.std.specs.Prelude.{◌≡◌, ◌≢◌, count_by, length, IfSome, IfNone, OnSome};
ghost use Rattle.mt_codec.specs.declared.field.FieldKind.TheVariants.{Int};
ghost use Rattle.mt_fold.specs.Shapes.{fields_of, price_of, same_sort, shape_table};
ghost use Rattle.mt_fold.specs.Texts.{shape_name};

use mt_list::{Duplicate, List};
use std::alloc::{AllocError, Global};

/// The shape of a chunk, which is also the physical table in which it lies: C1 has one integer, C2 one
/// text, C3 one of each, C4 four integers, C5 two of each and C6 four of each.
#[derive(Clone, Copy, Debug, PartialEq, Eq)]
pub enum Shape {
    C1,
    C2,
    C3,
    C4,
    C5,
    C6,
}

/// Shapes, in the order of the chunks.
pub type Shapes = List<Shape>;

impl Shape {
    /// The number of the physical table, from 1 to 6.
    pub fn table(self) -> u32
        ensures { result ≡ shape_table self }
    {
        match self {
            Shape::C1 => 1,
            Shape::C2 => 2,
            Shape::C3 => 3,
            Shape::C4 => 4,
            Shape::C5 => 5,
            Shape::C6 => 6,
        }
    }

    /// The shape with this number from 1 to 6, if it is one.
    pub fn with_table(table: u32) -> Option<Shape>
        ensures some { IfSome result (λ shape. shape_table shape ≡ table) }
        ensures none { IfNone result ((shape : Shape) → shape_table shape ≢ table) }
    {
        match table {
            1 => Some(Shape::C1),
            2 => Some(Shape::C2),
            3 => Some(Shape::C3),
            4 => Some(Shape::C4),
            5 => Some(Shape::C5),
            6 => Some(Shape::C6),
            _ => None,
        }
    }

    /// What a chunk of this shape costs: the bytes of its slot, and 64 for one more slot to be found.
    pub fn price(self) -> u64
        ensures { result ≡ price_of self }
    {
        match self {
            Shape::C1 => 94,
            Shape::C2 => 208,
            Shape::C3 => 217,
            Shape::C4 => 121,
            Shape::C5 => 349,
            Shape::C6 => 613,
        }
    }

    /// How many integers a chunk of this shape has.
    pub(crate) fn numbers(self) -> u8
        ensures { result ≡ count_by (same_sort Int) (fields_of self) }
    {
        match self {
            Shape::C1 | Shape::C3 => 1,
            Shape::C2 => 0,
            Shape::C4 | Shape::C6 => 4,
            Shape::C5 => 2,
        }
    }

    /// How many fields a chunk of this shape has.
    pub(crate) fn width(self) -> u8
        ensures { result ≡ length (fields_of self) }
    {
        match self {
            Shape::C1 | Shape::C2 => 1,
            Shape::C3 => 2,
            Shape::C4 | Shape::C5 => 4,
            Shape::C6 => 8,
        }
    }

    /// The name, as it is written in a command.
    pub(crate) fn name(self) -> &'static str
        ensures { result.now ≡ shape_name self }
    {
        match self {
            Shape::C1 => "C1",
            Shape::C2 => "C2",
            Shape::C3 => "C3",
            Shape::C4 => "C4",
            Shape::C5 => "C5",
            Shape::C6 => "C6",
        }
    }
}

impl Duplicate for Shape {
    fn copy(&self, _alloc: Global) -> Result<Shape, AllocError> {
        Ok(*self)
    }
}
