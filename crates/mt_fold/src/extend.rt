ghost use Rattle.std.specs.Prelude.{◌≡◌, ◌+◌, ◌≤◌, ◌++◌, drop, length, slice_index_or, IfOk};
ghost use Rattle.mt_fold.specs.declared.fold.Place.TheVariants.{Conv};
ghost use Rattle.mt_fold.specs.Extended.{FillShapes, extended_fold, kinds_of, places_taken};
ghost use Rattle.mt_fold.specs.Free.{HaveFewChunks, LieIn, free_fields};

use crate::{Fold, Place, Places, Shape, Shapes};
use mt_codec::FieldKind;
use mt_list::List;
use mt_tree::{Column, Columns, Kind};
use std::alloc::{AllocError, Global};

/// The fields of one sort in chunks of these shapes, the first of which has this number. The first so
/// many of these fields are taken.
#[derive(Drop)]
struct Fields<'a> {
    kind: FieldKind,
    chunk: u8,
    shapes: &'a [Shape],
    taken: u8,
}

/// The fold with chunks of these shapes behind its own, into which the added columns are put in their
/// order, each into the first field of its sort that is free. `AllocError` is want of memory.
pub fn extend_fold(
    alloc: Global,
    fold: &Fold,
    added: &Columns,
    shapes: &Shapes,
) -> Result<Fold, AllocError>
    requires fill { FillShapes (kinds_of added.now) shapes.now }
    requires few { length fold.now.shapes + length shapes.now ≤ 16 }
    ensures { IfOk result (λ extended. extended ≡ extended_fold fold.now (kinds_of added.now) shapes.now) }
{
    let first = fold.shapes.len() as u8;
    Ok(Fold {
        shapes: all_shapes(alloc, fold.shapes.as_slice(), shapes.as_slice())?,
        places: all_places(
            alloc,
            fold.places.as_slice(),
            added.as_slice(),
            shapes.as_slice(),
            first,
        )?,
    })
}

/// The shapes of a fold, and new ones behind them.
fn all_shapes(alloc: Global, old: &[Shape], new: &[Shape]) -> Result<Shapes, AllocError>
    ensures { IfOk result (λ shapes. shapes ≡ old.now ++ new.now) }
{
    let mut shapes = Vec::with_capacity(alloc, old.len() + new.len())?;
    shapes.extend_from_slice(old)?;
    shapes.extend_from_slice(new)?;
    Ok(List::from_vec(shapes))
}

/// The places of a fold and, behind them, those of the added columns in chunks of these shapes, the
/// first of which has this number.
fn all_places(
    alloc: Global,
    old: &[Place],
    added: &[Column],
    shapes: &[Shape],
    first: u8,
) -> Result<Places, AllocError>
    requires { first + length shapes.now ≤ 16 }
    ensures { IfOk result (λ places. places ≡ old.now ++ places_taken first shapes.now (kinds_of added.now)) }
{
    let mut places = Vec::with_capacity(alloc, old.len() + added.len())?;
    places.extend_from_slice(old)?;
    let mut numbers = Fields {
        kind: FieldKind::Int,
        chunk: first,
        shapes,
        taken: 0,
    };
    let mut texts = Fields {
        kind: FieldKind::Text(120),
        chunk: first,
        shapes,
        taken: 0,
    };
    for column in added {
        let place = match column.kind {
            Kind::Integer => numbers.take_first(),
            Kind::Varchar(_) => texts.take_first(),
        };
        places.push(place)?;
    }
    Ok(List::from_vec(places))
}

impl Fields<'_> {
    /// Takes the first that is free. Where there is none, it is the conventional row.
    fn take_first(&mut self) -> Place
        requires { HaveFewChunks self.old }
        ensures first { result ≡ slice_index_or (free_fields self.old) 0 Conv }
        ensures rest { free_fields self.new ≡ drop 1 (free_fields self.old) }
        ensures few { HaveFewChunks self.new }
    {
        while let Some((shape, behind)) = self.shapes.split_first() {
            let (start, count) = range_of(*shape, self.kind);
            if self.taken < count {
                let field = start + self.taken;
                self.taken += 1;
                return Place::Field {
                    chunk: self.chunk,
                    field,
                };
            }
            self.taken -= count;
            self.chunk += 1;
            self.shapes = behind;
        }
        Place::Conv
    }
}

/// The first field of one sort in a chunk of that shape, and how many there are.
fn range_of(shape: Shape, kind: FieldKind) -> (u8, u8)
    ensures { LieIn kind shape result.0 result.1 }
{
    match kind {
        FieldKind::Int => (0, shape.numbers()),
        FieldKind::Text(_) => (shape.numbers(), shape.width() - shape.numbers()),
    }
}
