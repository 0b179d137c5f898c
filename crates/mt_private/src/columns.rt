//! The columns of a tenant's table.
ghost use Rattle.std.specs.Prelude.{◌≡◌, ◌++◌, flat_map, slice_get, option_copied, IfOk, OnOk};
ghost use Rattle.mt_catalog.specs.Found.{columns_among};
ghost use Rattle.mt_catalog.specs.State as state;

use mt_catalog::Extension;
use mt_list::List;
use mt_tree::{Column, Columns, Table};
use std::alloc::{AllocError, Global};

/// The columns of a base table, and then those of these extensions of it.
pub(crate) fn columns_among(
    alloc: Global,
    bases: &[Table],
    extensions: &[Extension],
    base: usize,
    numbers: &[u32],
) -> Result<Columns, AllocError>
    ensures { IfOk result (λ columns. columns ≡ columns_among bases.now extensions.now base numbers.now) }
{
    let mut columns = List::new(alloc);
    add_columns(&mut columns, base_columns(bases, base))?;
    add_extensions(&mut columns, extensions, numbers)?;
    Ok(columns)
}

/// Adds the columns of these extensions at the end.
fn add_extensions(
    columns: &mut Columns,
    extensions: &[Extension],
    numbers: &[u32],
) -> Result<(), AllocError>
    ensures { OnOk result (columns.new ≡ columns.old ++ flat_map (λ number. state.extension_columns (slice_get extensions.now number)) numbers.now) }
{
    for number in numbers {
        add_columns(columns, extension_columns(extensions, *number as usize))?;
    }
    Ok(())
}

/// Adds equal columns at the end.
fn add_columns(columns: &mut Columns, added: &[Column]) -> Result<(), AllocError>
    ensures { OnOk result (columns.new ≡ columns.old ++ added.now) }
{
    for column in added {
        columns.push(copied(column)?)?;
    }
    Ok(())
}

/// An equal column.
fn copied(column: &Column) -> Result<Column, AllocError>
    ensures { IfOk result (λ copied. copied ≡ column.now) }
{
    Ok(Column {
        name: column.name.copy()?,
        kind: column.kind,
        not_null: column.not_null,
        key: column.key,
    })
}

/// The columns of a base table; none where it is not there.
fn base_columns(bases: &[Table], number: usize) -> &[Column]
    ensures { result.now ≡ state.base_columns (slice_get bases.now number) }
{
    match member(bases, number) {
        None => &[],
        Some(base) => base.columns.as_slice(),
    }
}

/// The columns of an extension; none where it is not there.
fn extension_columns(extensions: &[Extension], number: usize) -> &[Column]
    ensures { result.now ≡ state.extension_columns (slice_get extensions.now number) }
{
    match member(extensions, number) {
        None => &[],
        Some(extension) => extension.columns.as_slice(),
    }
}

/// The member at a number, if there is one.
pub(crate) fn member<T>(members: &[T], number: usize) -> Option<&T>
    ensures { option_copied result ≡ slice_get members.now number }
{
    if number < members.len() {
        Some(&members[number])
    } else {
        None
    }
}
