ghost use Rattle.std.specs.Prelude.{◌≡◌, ◌<◌, length, Some};
ghost use Rattle.std.specs.Bool.{Decides};
ghost use Rattle.mt_fold.specs.declared.fold.Place.TheVariants.{Field};
ghost use Rattle.mt_fold.specs.Clauses.{AreApart, AreBase, AreChunks, AreFields, AreFirst, ArePlaced, Fit, Follows, HasColumn, HaveColumns, IsNext, IsTaken, kind_at};
ghost use Rattle.mt_fold.specs.Folds.{IsValidFold};
ghost use Rattle.mt_fold.specs.Placements.{IsValidPlacement};
ghost use Rattle.mt_fold.specs.Shapes.{chunk_kind};

use crate::{Fold, Place, Placement, Shape};
use mt_tree::{Column, Columns, Kind};

/// The greatest number of chunks of a fold.
const MOST_CHUNKS: usize = 16;

/// Rows are below this number.
const ROWS_END: u64 = 1 << 63;

/// Whether the fold fits the columns, the first `base_len` of which are the base table's: each column
/// has one place of its kind, only base columns lie in the conventional row, there are at most 16
/// chunks, each with a column, and of the fields of one sort in a chunk those that are used come
/// first. It takes no memory.
pub fn valid(fold: &Fold, columns: &Columns, base_len: usize) -> bool
    ensures { Decides result (IsValidFold fold.now columns.now base_len) }
{
    let shapes = fold.shapes.as_slice();
    let places = fold.places.as_slice();
    let columns = columns.as_slice();
    columns_are_placed(places, columns, base_len)
        && chunks_are_used(shapes, places)
        && fields_are_used(shapes, places, columns)
}

/// Whether each fold of the placement fits the columns, its generation is 0 or 1 and, where the table
/// moves, the frontier is below `upto`, and `upto` at most 2^63. It takes no memory.
pub fn valid_placement(placement: &Placement, columns: &Columns, base_len: usize) -> bool
    ensures { Decides result (IsValidPlacement placement.now columns.now base_len) }
{
    match placement {
        Placement::Settled { generation, fold } => {
            *generation <= 1 && valid(fold, columns, base_len)
        }
        Placement::Moving {
            generation,
            before,
            after,
            frontier,
            upto,
        } => {
            *generation <= 1
                && valid(before, columns, base_len)
                && valid(after, columns, base_len)
                && frontier < upto
                && *upto <= ROWS_END
        }
    }
}

/// Whether each column has one place, and only base columns lie in the conventional row.
fn columns_are_placed(places: &[Place], columns: &[Column], base_len: usize) -> bool
    ensures { Decides result (ArePlaced places.now (length columns.now) base_len) }
{
    places.len() == columns.len() && base_columns_alone(places, base_len)
}

/// Whether there are at most 16 chunks, each with a column.
fn chunks_are_used(shapes: &[Shape], places: &[Place]) -> bool
    ensures { Decides result (AreChunks shapes.now places.now) }
{
    shapes.len() <= MOST_CHUNKS && each_chunk_has_a_column(shapes, places)
}

/// Whether each column in a chunk lies in a field of its kind and of its own, and of the fields of one
/// sort in a chunk those that are used come first.
fn fields_are_used(shapes: &[Shape], places: &[Place], columns: &[Column]) -> bool
    ensures { Decides result (AreFields shapes.now places.now columns.now) }
{
    fields_fit(shapes, places, columns) && are_apart(places) && first_fields_first(shapes, places)
}

/// Whether only base columns lie in the conventional row.
fn base_columns_alone(places: &[Place], base_len: usize) -> bool
    ensures { Decides result (AreBase places.now base_len) }
{
    for (column, place) in places.iter().enumerate() {
        if let Place::Conv = place {
            if column >= base_len {
                return false;
            }
        }
    }
    true
}

/// Whether each chunk has a column.
fn each_chunk_has_a_column(shapes: &[Shape], places: &[Place]) -> bool
    ensures { Decides result (HaveColumns (length shapes.now) places.now) }
{
    for chunk in 0..shapes.len() {
        if !has_column(places, chunk) {
            return false;
        }
    }
    true
}

/// Whether a column lies in that chunk.
fn has_column(places: &[Place], wanted: usize) -> bool
    ensures { Decides result (HasColumn places.now wanted) }
{
    for place in places {
        if let Place::Field { chunk, .. } = place {
            if usize::from(*chunk) == wanted {
                return true;
            }
        }
    }
    false
}

/// Whether each column in a chunk lies in a field of its kind.
fn fields_fit(shapes: &[Shape], places: &[Place], columns: &[Column]) -> bool
    ensures { Decides result (Fit shapes.now places.now columns.now) }
{
    for (place, column) in places.iter().zip(columns) {
        if let Place::Field { chunk, field } = place {
            if !is_of_kind(shapes, *chunk, *field, column.kind) {
                return false;
            }
        }
    }
    true
}

/// Whether a chunk has that field, and columns of that kind lie in it.
fn is_of_kind(shapes: &[Shape], chunk: u8, field: u8, kind: Kind) -> bool
    ensures { Decides result (kind_at shapes.now chunk field ≡ Some (chunk_kind kind)) }
{
    match shapes.get(usize::from(chunk)) {
        None => false,
        Some(shape) => match kind {
            Kind::Integer => field < shape.numbers(),
            Kind::Varchar(_) => shape.numbers() <= field && field < shape.width(),
        },
    }
}

/// Whether no field holds two columns.
fn are_apart(places: &[Place]) -> bool
    ensures { Decides result (AreApart places.now) }
{
    for (column, place) in places.iter().enumerate() {
        if let Place::Field { chunk, field } = place {
            if is_taken(&places[..column], *chunk, *field) {
                return false;
            }
        }
    }
    true
}

/// Whether one of the places is that field.
fn is_taken(places: &[Place], chunk: u8, field: u8) -> bool
    ensures { Decides result (IsTaken places.now chunk field) }
{
    for place in places {
        if let Place::Field {
            chunk: other,
            field: there,
        } = place
        {
            if *other == chunk && *there == field {
                return true;
            }
        }
    }
    false
}

/// Whether of the fields of one sort in a chunk those that are used come first.
fn first_fields_first(shapes: &[Shape], places: &[Place]) -> bool
    ensures { Decides result (AreFirst shapes.now places.now) }
{
    for place in places {
        if let Place::Field { chunk, field } = place {
            if !follows(shapes, places, *chunk, *field) {
                return false;
            }
        }
    }
    true
}

/// Whether a field is the first of its sort in its chunk, or the one before it is used.
fn follows(shapes: &[Shape], places: &[Place], chunk: u8, field: u8) -> bool
    ensures { Decides result (Follows shapes.now places.now chunk field) }
{
    field == 0 || !is_next(shapes, chunk, field - 1) || is_taken(places, chunk, field - 1)
}

/// Whether a chunk has that field and, behind it, one of the same sort.
fn is_next(shapes: &[Shape], chunk: u8, before: u8) -> bool
    requires { before < 255 }
    ensures { Decides result (IsNext shapes.now chunk before) }
{
    match shapes.get(usize::from(chunk)) {
        None => false,
        Some(shape) => before + 1 != shape.numbers() && before + 1 < shape.width(),
    }
}
