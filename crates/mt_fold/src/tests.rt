ghost use Rattle.std.specs.Prelude.{◌≡◌, ◌<◌, ◌≤◌, ℕ, IfOk};
ghost use Rattle.mt_fold.specs.Placements.{HasPlace};

use crate::Shape::{C1, C2, C3, C4, C5, C6};
use crate::{Fold, Place, Placement, Shape, place_of, valid, valid_placement};
use mt_list::{Duplicate, List};
use mt_tree::{Column, Columns, Kind};
use mt_value::{Str, StrFault};
use std::alloc::{AllocError, Global};
use std::test::Fail;

/// The conventional row.
const CONV: Place = Place::Conv;

/// A place in a chunk, also in a constant.
macro_rules! at {
    ($chunk:expr, $field:expr) => {
        Place::Field {
            chunk: $chunk,
            field: $field,
        }
    };
}

/// The columns id, a, b, c and d, of which id is the base table's.
const ITEM: [Kind; 5] = [
    Kind::Integer,
    Kind::Integer,
    Kind::Integer,
    Kind::Integer,
    Kind::Varchar(20),
];

/// Columns of these kinds.
fn columns_of(alloc: Global, kinds: &[Kind]) -> Result<Columns, StrFault> {
    let mut columns = List::new(alloc);
    for kind in kinds {
        columns.push(Column {
            name: Str::from_bytes(alloc, b"x")?,
            kind: *kind,
            not_null: false,
            key: false,
        })?;
    }
    Ok(columns)
}

/// A fold.
fn fold_of(alloc: Global, shapes: &[Shape], places: &[Place]) -> Result<Fold, AllocError>
    ensures { IfOk result (λ fold. fold.places ≡ places.now) }
{
    Ok(Fold {
        shapes: List::from_vec(Vec::from_slice(alloc, shapes)?),
        places: List::from_vec(Vec::from_slice(alloc, places)?),
    })
}

/// Whether a fold fits a table with columns of these kinds, of which the first is the base table's.
fn fits(
    alloc: Global,
    kinds: &[Kind],
    shapes: &[Shape],
    places: &[Place],
) -> Result<bool, StrFault> {
    let fold = fold_of(alloc, shapes, places)?;
    let columns = columns_of(alloc, kinds)?;
    Ok(valid(&fold, &columns, 1))
}

/// A shape with its name, its physical table and its price.
static SHAPES: [(Shape, &str, u32, u64); 6] = [
    (C1, "C1", 1, 94),
    (C2, "C2", 2, 208),
    (C3, "C3", 3, 217),
    (C4, "C4", 4, 121),
    (C5, "C5", 5, 349),
    (C6, "C6", 6, 613),
];

#[test]
fn shapes_have_tables_and_prices(rt: HostRuntime) {
    for (shape, name, table, price) in &SHAPES {
        assert_eq!(rt; shape.table(), *table, "{name}");
        assert_eq!(rt; Shape::with_table(*table), Some(*shape), "{name}");
        assert_eq!(rt; shape.price(), *price, "{name}");
        assert_eq!(rt; shape.name(), *name);
    }
    assert_eq!(rt; Shape::with_table(0), None);
    assert_eq!(rt; Shape::with_table(7), None);
}

/// What a fold shows, its shapes, and the places of id, a, b, c and d.
type Case = (&'static str, &'static [Shape], &'static [Place]);

/// Folds that fit the table with those five columns, each said as it is printed.
static FITTING: [Case; 6] = [
    (
        "CONV (id), C2 (d), C4 (a, b, c)",
        &[C2, C4],
        &[CONV, at!(1, 0), at!(1, 1), at!(1, 2), at!(0, 0)],
    ),
    (
        "CONV (id), C1 (a), C1 (b), C3 (c, d)",
        &[C1, C1, C3],
        &[CONV, at!(0, 0), at!(1, 0), at!(2, 0), at!(2, 1)],
    ),
    (
        "CONV (id), C3 (a, d), C4 (b, c)",
        &[C3, C4],
        &[CONV, at!(0, 0), at!(1, 0), at!(1, 1), at!(0, 1)],
    ),
    (
        "C4 (id, a, b, c), C2 (d)",
        &[C4, C2],
        &[at!(0, 0), at!(0, 1), at!(0, 2), at!(0, 3), at!(1, 0)],
    ),
    (
        "CONV (id), C4 (c, b, a), C3 (d)",
        &[C4, C3],
        &[CONV, at!(0, 2), at!(0, 1), at!(0, 0), at!(1, 1)],
    ),
    (
        "CONV (id), C6 (a, b, c, d)",
        &[C6],
        &[CONV, at!(0, 0), at!(0, 1), at!(0, 2), at!(0, 4)],
    ),
];

/// Folds that do not fit that table, each with what is wrong.
static UNFIT: [Case; 11] = [
    (
        "d has no place",
        &[C4],
        &[CONV, at!(0, 0), at!(0, 1), at!(0, 2)],
    ),
    (
        "a place too many",
        &[C2, C4],
        &[CONV, at!(1, 0), at!(1, 1), at!(1, 2), at!(0, 0), at!(1, 3)],
    ),
    (
        "a is no base column",
        &[C4, C2],
        &[CONV, CONV, at!(0, 0), at!(0, 1), at!(1, 0)],
    ),
    (
        "an empty chunk",
        &[C2, C4, C1],
        &[CONV, at!(1, 0), at!(1, 1), at!(1, 2), at!(0, 0)],
    ),
    (
        "a text in an integer's field",
        &[C4],
        &[CONV, at!(0, 0), at!(0, 1), at!(0, 2), at!(0, 3)],
    ),
    (
        "an integer in a text's field",
        &[C5, C2],
        &[CONV, at!(0, 0), at!(0, 1), at!(0, 2), at!(1, 0)],
    ),
    (
        "a field that there is not",
        &[C2, C4],
        &[CONV, at!(1, 0), at!(1, 1), at!(1, 2), at!(0, 1)],
    ),
    (
        "a chunk that there is not",
        &[C4],
        &[CONV, at!(0, 0), at!(0, 1), at!(0, 2), at!(1, 0)],
    ),
    (
        "a field that two use",
        &[C2, C4],
        &[CONV, at!(1, 0), at!(1, 1), at!(1, 1), at!(0, 0)],
    ),
    (
        "a second integer without the first",
        &[C2, C4],
        &[CONV, at!(1, 1), at!(1, 2), at!(1, 3), at!(0, 0)],
    ),
    (
        "a second text without the first",
        &[C6],
        &[CONV, at!(0, 0), at!(0, 1), at!(0, 2), at!(0, 5)],
    ),
];

#[test]
fn folds_that_fit(rt: HostRuntime) -> Result<(), Fail> {
    for (case, shapes, places) in &FITTING {
        assert!(rt; fits(rt.alloc(), &ITEM, shapes, places)?, "{case}");
    }
    Ok(())
}

#[test]
fn folds_that_do_not_fit(rt: HostRuntime) -> Result<(), Fail> {
    for (case, shapes, places) in &UNFIT {
        assert!(rt; !fits(rt.alloc(), &ITEM, shapes, places)?, "{case}");
    }
    Ok(())
}

/// The conventional row, and the first field of each of that many chunks.
fn first_fields(alloc: Global, chunks: u8) -> Result<Vec<Place>, AllocError> {
    let mut places = Vec::new(alloc);
    places.push(CONV)?;
    for chunk in 0..chunks {
        places.push(at!(chunk, 0))?;
    }
    Ok(places)
}

/// Whether a fold fits whose first column lies in the conventional row, and each other in a chunk of
/// its own.
fn fits_in_chunks(
    alloc: Global,
    chunks: u8,
    shapes: &[Shape],
    kinds: &[Kind],
) -> Result<bool, StrFault> {
    let places = first_fields(alloc, chunks)?;
    fits(alloc, kinds, shapes, &places)
}

/// How many chunks there are, their shapes, the kinds of the columns, and whether that fold fits.
static CHUNKS: [(u8, &[Shape], &[Kind], bool); 4] = [
    (0, &[], &[Kind::Integer], true),
    (1, &[C1], &[Kind::Integer; 2], true),
    (16, &[C1; 16], &[Kind::Integer; 17], true),
    (17, &[C1; 17], &[Kind::Integer; 18], false),
];

#[test]
fn at_most_sixteen_chunks(rt: HostRuntime) -> Result<(), Fail> {
    for (chunks, shapes, kinds, wanted) in &CHUNKS {
        let fits = fits_in_chunks(rt.alloc(), *chunks, shapes, kinds)?;
        assert_eq!(rt; fits, *wanted, "{chunks}");
    }
    Ok(())
}

/// A placement of a table of two base columns, which moves from CONV to one chunk.
fn moving(alloc: Global, generation: u8, frontier: u64, upto: u64) -> Result<Placement, AllocError>
    ensures { IfOk result (λ placement. generation ≤ 1 → (column : ℕ) → column < 2 → HasPlace placement column) }
{
    Ok(Placement::Moving {
        generation,
        before: fold_of(alloc, &[], &[CONV, CONV])?,
        after: fold_of(alloc, &[C3], &[CONV, at!(0, 1)])?,
        frontier,
        upto,
    })
}

/// A placement of a table of two columns, of which the second lies in a chunk of that shape.
fn settled(
    alloc: Global,
    generation: u8,
    shape: Shape,
    place: Place,
) -> Result<Placement, AllocError>
    ensures { IfOk result (λ placement. generation ≤ 1 → (column : ℕ) → column < 2 → HasPlace placement column) }
{
    Ok(Placement::Settled {
        generation,
        fold: fold_of(alloc, &[shape], &[CONV, place])?,
    })
}

/// Where one of the two columns of a Row lies while the table moves from Row 2 up to 5.
fn place_while_moving(
    alloc: Global,
    generation: u8,
    column: usize,
    row: u64,
) -> Result<Option<(u8, Place)>, AllocError> {
    let placement = moving(alloc, generation, 2, 5)?;
    Ok(if generation <= 1 && column < 2 {
        Some(place_of(&placement, column, row))
    } else {
        None
    })
}

/// The old generation, a column, a Row, and where it lies.
static WHILE_MOVING: [(u8, usize, u64, (u8, Place)); 12] = [
    (0, 1, 1, (1, at!(0, 1))),
    (0, 0, 1, (1, CONV)),
    (0, 1, 2, (0, CONV)),
    (0, 0, 2, (0, CONV)),
    (0, 1, 4, (0, CONV)),
    (0, 0, 4, (0, CONV)),
    (0, 1, 5, (1, at!(0, 1))),
    (0, 0, 5, (1, CONV)),
    (1, 1, 1, (0, at!(0, 1))),
    (1, 1, 2, (1, CONV)),
    (1, 1, 4, (1, CONV)),
    (1, 1, 5, (0, at!(0, 1))),
];

#[test]
fn places_of_rows_of_a_moving_table(rt: HostRuntime) -> Result<(), Fail> {
    for (generation, column, row, wanted) in &WHILE_MOVING {
        let place = place_while_moving(rt.alloc(), *generation, *column, *row)?;
        assert_eq!(rt; place, Some(*wanted), "{generation} {column} {row}");
    }
    Ok(())
}

#[test]
fn places_of_rows_of_a_settled_table(rt: HostRuntime) -> Result<(), Fail> {
    let placement = settled(rt.alloc(), 1, C2, at!(0, 0))?;
    assert_eq!(rt; place_of(&placement, 0, 0), (1, CONV));
    assert_eq!(rt; place_of(&placement, 1, u64::MAX), (1, at!(0, 0)));
    Ok(())
}

/// Whether a placement fits an integer and a text, where one fewer than so many are the base table's,
/// and where so many are.
fn fits_two(alloc: Global, placement: &Placement, base_len: usize) -> Result<[bool; 2], StrFault> {
    let columns = columns_of(alloc, &[Kind::Integer, Kind::Varchar(40)])?;
    Ok([
        valid_placement(placement, &columns, base_len.saturating_sub(1)),
        valid_placement(placement, &columns, base_len),
    ])
}

/// Whether a moving table fits with one base column, when the old fold has an extension column in the
/// conventional row, and with two.
fn moving_fits(
    alloc: Global,
    generation: u8,
    frontier: u64,
    upto: u64,
) -> Result<[bool; 2], StrFault> {
    let placement = moving(alloc, generation, frontier, upto)?;
    fits_two(alloc, &placement, 2)
}

/// Whether a settled table fits with no base column and with one.
fn settled_fits(alloc: Global, generation: u8) -> Result<[bool; 2], StrFault> {
    let placement = settled(alloc, generation, C2, at!(0, 0))?;
    fits_two(alloc, &placement, 1)
}

/// The generation, the frontier, the Row up to which a table moves, and whether that fits.
static MOVES: [(u8, u64, u64, bool); 7] = [
    (0, 2, 5, true),
    (1, 0, 1, true),
    (2, 2, 5, false),
    (0, 5, 5, false),
    (0, 6, 5, false),
    (0, 0, 1 << 63, true),
    (0, 0, (1 << 63) + 1, false),
];

#[test]
fn moving_placements_that_fit(rt: HostRuntime) -> Result<(), Fail> {
    for (generation, frontier, upto, wanted) in &MOVES {
        let found = moving_fits(rt.alloc(), *generation, *frontier, *upto)?;
        assert_eq!(rt; found, [false, *wanted], "{generation} {frontier} {upto}");
    }
    Ok(())
}

#[test]
fn settled_placements_that_fit(rt: HostRuntime) -> Result<(), Fail> {
    for (generation, wanted) in [(0, true), (1, true), (2, false)] {
        let found = settled_fits(rt.alloc(), generation)?;
        assert_eq!(rt; found, [false, wanted], "{generation}");
    }
    Ok(())
}

/// A copy, by the bound alone.
fn copy_of<T: Duplicate>(value: &T, alloc: Global) -> Result<T, AllocError>
    ensures { IfOk result (λ copied. copied ≡ value.now) }
{
    value.copy(alloc)
}

/// Where the second column of a Row lies by a copy of the placement.
fn place_in_copy(alloc: Global, placement: &Placement, row: u64) -> Result<(u8, Place), AllocError>
    requires { HasPlace placement.now 1 }
{
    let copied = copy_of(placement, alloc)?;
    Ok(place_of(&copied, 1, row))
}

#[test]
fn copies_of_moving_placements_hold_the_same(rt: HostRuntime) -> Result<(), Fail> {
    let placement = moving(rt.alloc(), 1, 2, 5)?;
    let moved = place_in_copy(rt.alloc(), &placement, 1)?;
    assert_eq!(rt; moved, (0, at!(0, 1)));
    let left = place_in_copy(rt.alloc(), &placement, 2)?;
    assert_eq!(rt; left, (1, CONV));
    Ok(())
}

#[test]
fn copies_of_settled_placements_hold_the_same(rt: HostRuntime) -> Result<(), Fail> {
    let placement = settled(rt.alloc(), 0, C3, at!(0, 1))?;
    let place = place_in_copy(rt.alloc(), &placement, 9)?;
    assert_eq!(rt; place, (0, at!(0, 1)));
    Ok(())
}

/// Whether a copy of a fold holds the same shapes and places.
fn fold_is_copied(alloc: Global, shapes: &[Shape], places: &[Place]) -> Result<bool, AllocError> {
    let fold = fold_of(alloc, shapes, places)?;
    let copied = copy_of(&fold, alloc)?;
    Ok(
        copied.shapes.as_slice() == fold.shapes.as_slice()
            && copied.places.as_slice() == fold.places.as_slice(),
    )
}

#[test]
fn copies_of_folds_hold_the_same(rt: HostRuntime) -> Result<(), Fail> {
    let alloc = rt.alloc();
    assert!(rt; fold_is_copied(alloc, &[C3], &[CONV, at!(0, 1)])?);
    assert_eq!(rt; copy_of(&C5, alloc)?, C5);
    assert_eq!(rt; copy_of(&at!(3, 4), alloc)?, at!(3, 4));
    Ok(())
}
