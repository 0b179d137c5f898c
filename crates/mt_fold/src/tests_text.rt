use crate::Shape::{C1, C2, C3, C5};
use crate::{Fold, Place, Shape, Shapes, fold_text, valid};
use mt_list::List;
use mt_tree::{Column, Columns, Kind, ReplyText};
use mt_value::{Str, StrFault};
use std::alloc::{AllocError, Global};
use std::test::Fail;

/// The conventional row.
const CONV: Place = Place::Conv;

/// A place in a chunk, also in a constant.
macro_rules! at {
    ($chunk:expr, $field:expr) => {
        Place::Field {
            chunk: $chunk,
            field: $field,
        }
    };
}

/// The name and the kind of a column.
type Given = (&'static str, Kind);

/// Columns.
fn columns_of(alloc: Global, given: &[Given]) -> Result<Columns, StrFault> {
    let mut columns = List::new(alloc);
    for (name, kind) in given {
        columns.push(Column {
            name: Str::from_bytes(alloc, name.as_bytes())?,
            kind: *kind,
            not_null: false,
            key: false,
        })?;
    }
    Ok(columns)
}

/// A list of these shapes.
fn shapes_of(alloc: Global, shapes: &[Shape]) -> Result<Shapes, AllocError> {
    Ok(List::from_vec(Vec::from_slice(alloc, shapes)?))
}

/// A fold.
fn fold_of(alloc: Global, shapes: &[Shape], places: &[Place]) -> Result<Fold, AllocError> {
    Ok(Fold {
        shapes: shapes_of(alloc, shapes)?,
        places: List::from_vec(Vec::from_slice(alloc, places)?),
    })
}

/// How a fold of these columns is printed, behind what stands there; nothing where it does not fit them.
fn printed(
    alloc: Global,
    fold: &Fold,
    columns: &Columns,
    before: &[u8],
) -> Result<Option<ReplyText>, AllocError> {
    if !valid(fold, columns, columns.len()) {
        return Ok(None);
    }
    let mut text = ReplyText::from_bytes(alloc, before)?;
    fold_text(fold, columns, &mut text)?;
    Ok(Some(text))
}

/// Whether this is printed of a fold of some columns.
fn prints(
    alloc: Global,
    columns: &[Given],
    shapes: &[Shape],
    places: &[Place],
    wanted: &[u8],
) -> Result<bool, StrFault> {
    let columns = columns_of(alloc, columns)?;
    let fold = fold_of(alloc, shapes, places)?;
    Ok(match printed(alloc, &fold, &columns, b"old ")? {
        Some(text) => text.as_bytes() == wanted,
        None => false,
    })
}

/// The columns of a table.
const ACCOUNT: [Given; 4] = [
    ("aid", Kind::Integer),
    ("name", Kind::Varchar(40)),
    ("hospital", Kind::Varchar(40)),
    ("beds", Kind::Integer),
];

/// The shapes of a fold, the places of those columns, and what is printed.
static TEXTS: [(&[Shape], &[Place], &[u8]); 5] = [
    (&[], &[CONV; 4], b"old CONV (aid, name, hospital, beds)"),
    (
        &[C3],
        &[CONV, CONV, at!(0, 1), at!(0, 0)],
        b"old CONV (aid, name), C3 (beds, hospital)",
    ),
    (
        &[C2, C3],
        &[CONV, at!(0, 0), at!(1, 1), at!(1, 0)],
        b"old CONV (aid), C2 (name), C3 (beds, hospital)",
    ),
    (
        &[C2, C1, C2],
        &[CONV, at!(0, 0), at!(2, 0), at!(1, 0)],
        b"old CONV (aid), C2 (name), C1 (beds), C2 (hospital)",
    ),
    (
        &[C5],
        &[at!(0, 1), at!(0, 2), at!(0, 3), at!(0, 0)],
        b"old C5 (beds, aid, name, hospital)",
    ),
];

/// What stood before stays in front.
#[test]
fn texts_of_folds(rt: HostRuntime) -> Result<(), Fail> {
    for (shapes, places, wanted) in &TEXTS {
        assert!(rt;
            prints(rt.alloc(), &ACCOUNT, shapes, places, wanted)?,
            "{shapes:?}"
        );
    }
    assert!(rt; prints(rt.alloc(), &[], &[], &[], b"old ")?);
    Ok(())
}
