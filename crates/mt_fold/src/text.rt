ghost use Rattle.std.specs.Prelude.{◌≡◌, ◌++◌, ◌≤◌, true, flat_map, length, IfOk, OnOk};
ghost use Rattle.std.specs.List.{list_any, range_with_len};
ghost use Rattle.mt_fold.specs.declared.fold.Place.TheVariants.{Conv, Field};
ghost use Rattle.mt_fold.specs.Folds.{IsValidFold};
ghost use Rattle.mt_fold.specs.Parts.{first_behind, parts_text, separator};
ghost use Rattle.mt_fold.specs.Texts as texts;

use crate::{Fold, Place, Shape};
use mt_tree::{Column, Columns, ReplyText};
use std::alloc::AllocError;

/// Adds the fold as it is printed: `CONV` and the columns in the conventional row, and then each chunk,
/// its shape and its columns in the order of its fields, as in `CONV (id), C4 (a, b)`. `AllocError` is
/// want of memory; a part of the text may then stand at the end.
pub fn fold_text(fold: &Fold, columns: &Columns, into: &mut ReplyText) -> Result<(), AllocError>
    requires { IsValidFold fold.now columns.now (length columns.now) }
    ensures { OnOk result (into.new ≡ into.old ++ texts.fold_text fold.now columns.now) }
{
    let first = push_conv(fold, columns.as_slice(), into)?;
    push_chunks(fold, columns.as_slice(), first, into)
}

/// Adds the part of the conventional row, if a column lies there, and tells whether there is none.
fn push_conv(fold: &Fold, columns: &[Column], into: &mut ReplyText) -> Result<bool, AllocError>
    requires { length fold.now.places ≡ length columns.now }
    ensures text { OnOk result (into.new ≡ into.old ++ parts_text true (texts.conv_part (texts.names_at fold.now columns.now Conv))) }
    ensures first { IfOk result (λ first. first ≡ first_behind true (texts.conv_part (texts.names_at fold.now columns.now Conv))) }
{
    if !has_place(fold, Place::Conv) {
        return Ok(true);
    }
    into.push_bytes(b"CONV (")?;
    push_names(fold, columns, Place::Conv, true, into)?;
    into.push_bytes(b")")?;
    Ok(false)
}

/// Adds the part of each chunk. `first` tells whether the first chunk's part is the first of all.
fn push_chunks(
    fold: &Fold,
    columns: &[Column],
    mut first: bool,
    into: &mut ReplyText,
) -> Result<(), AllocError>
    requires { length fold.now.shapes ≤ 16 }
    ensures { OnOk result (into.new ≡ into.old ++ parts_text first (texts.chunk_parts fold.now columns.now)) }
{
    for (chunk, shape) in fold.shapes.as_slice().iter().enumerate() {
        push_separator(first, into)?;
        push_chunk(fold, columns, chunk as u8, *shape, into)?;
        first = false;
    }
    Ok(())
}

/// Adds a chunk's shape and its columns, in the order of its fields.
fn push_chunk(
    fold: &Fold,
    columns: &[Column],
    chunk: u8,
    shape: Shape,
    into: &mut ReplyText,
) -> Result<(), AllocError>
    ensures { OnOk result (into.new ≡ into.old ++ texts.group_text (texts.shape_name shape) (texts.chunk_names fold.now columns.now chunk shape)) }
{
    into.push_bytes(shape.name().as_bytes())?;
    into.push_bytes(b" (")?;
    push_fields(fold, columns, chunk, shape.width(), into)?;
    into.push_bytes(b")")
}

/// Adds the names of the columns in so many fields of a chunk, in the order of these fields.
fn push_fields(
    fold: &Fold,
    columns: &[Column],
    chunk: u8,
    width: u8,
    into: &mut ReplyText,
) -> Result<(), AllocError>
    ensures { OnOk result (into.new ≡ into.old
        ++ parts_text true (flat_map (λ field. texts.names_at fold.now columns.now (Field chunk field)) (range_with_len 0 width))) }
{
    let mut first = true;
    for field in 0..width {
        first = push_names(fold, columns, Place::Field { chunk, field }, first, into)?;
    }
    Ok(())
}

/// Adds the names of the columns at a place, in the order of the table. `first` tells whether they are
/// the first of their list, and the answer whether what comes behind them is.
fn push_names(
    fold: &Fold,
    columns: &[Column],
    place: Place,
    mut first: bool,
    into: &mut ReplyText,
) -> Result<bool, AllocError>
    ensures text { OnOk result (into.new ≡ into.old ++ parts_text first (texts.names_at fold.now columns.now place)) }
    ensures first { IfOk result (λ behind. behind ≡ first_behind first (texts.names_at fold.now columns.now place)) }
{
    for (at, column) in fold.places.as_slice().iter().zip(columns) {
        if is_place(place, *at) {
            push_separator(first, into)?;
            into.push_bytes(column.name.as_str().as_bytes())?;
            first = false;
        }
    }
    Ok(first)
}

/// Whether a column lies at that place.
fn has_place(fold: &Fold, place: Place) -> bool
    ensures { result ≡ list_any (texts.is_place place) fold.now.places }
{
    fold.places
        .as_slice()
        .iter()
        .any(|other| is_place(place, *other))
}

/// Whether two places are one.
fn is_place(place: Place, other: Place) -> bool
    ensures { result ≡ texts.is_place place other }
{
    place == other
}

/// Adds the comma and the space in front of what is not the first of its list.
fn push_separator(first: bool, into: &mut ReplyText) -> Result<(), AllocError>
    ensures { OnOk result (into.new ≡ into.old ++ separator first) }
{
    if first {
        Ok(())
    } else {
        into.push_bytes(b", ")
    }
}
