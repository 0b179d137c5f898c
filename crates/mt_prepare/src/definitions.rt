//! What a schema step defines: tables, extensions, and the tables of a tenant.
ghost use Rattle.std.specs.Prelude.{◌≡◌, ◌≤◌, false, true, length, map, IfOk};
ghost use Rattle.mt_schema.specs.Refusals as refusals;
ghost use Rattle.mt_schema.specs.Steps as steps;

use mt_catalog::{Extension, TenantTable};
use mt_fold::{Fold, Place, Placement};
use mt_list::List;
use mt_schema::{has_name, table_number};
use mt_tree::{Column, Columns, Def, DefKind, Kind, Table};
use mt_value::Str;
use std::alloc::{AllocError, Global};

/// The kind of a column, which is one that there is.
fn kind_of(kind: DefKind) -> Kind
    requires { refusals.is_size_within kind ≡ true }
    ensures { result ≡ steps.kind_of kind }
{
    match kind {
        DefKind::Integer => Kind::Integer,
        DefKind::Varchar(size) => Kind::Varchar(size as u8),
    }
}

/// A column as it is defined, in a table whose key has these columns.
fn column_of(key: &[Str], def: &Def) -> Result<Column, AllocError>
    requires { refusals.is_size_within def.now.kind ≡ true }
    ensures { IfOk result (λ column. column ≡ steps.column_of key.now def.now) }
{
    let is_key = has_name(key, &def.name);
    Ok(Column {
        name: def.name.copy()?,
        kind: kind_of(def.kind),
        not_null: def.not_null || is_key,
        key: is_key,
    })
}

/// Columns as they are defined.
fn columns_of(alloc: Global, key: &[Str], defs: &[Def]) -> Result<Columns, AllocError>
    requires { refusals.are_outside defs.now ≡ false }
    ensures { IfOk result (λ columns. columns ≡ map (steps.column_of key.now) defs.now) }
{
    let mut columns = List::new(alloc);
    for def in defs {
        columns.push(column_of(key, def)?)?;
    }
    Ok(columns)
}

/// The table that a command defines.
pub(crate) fn defined_table(
    alloc: Global,
    name: &Str,
    columns: &[Def],
    key: &[Str],
) -> Result<Table, AllocError>
    requires { refusals.are_outside columns.now ≡ false }
    ensures { IfOk result (λ table. table ≡ steps.defined_table name.now columns.now key.now) }
{
    Ok(Table {
        name: name.copy()?,
        columns: columns_of(alloc, key, columns)?,
    })
}

/// The extension that a command defines.
pub(crate) fn defined_extension(
    alloc: Global,
    tables: &[Table],
    name: &Str,
    base: &Str,
    columns: &[Def],
) -> Result<Extension, AllocError>
    requires few { length tables.now ≤ 16 }
    requires inside { refusals.are_outside columns.now ≡ false }
    ensures { IfOk result (λ extension. extension ≡ steps.defined_extension tables.now name.now base.now columns.now) }
{
    Ok(Extension {
        name: name.copy()?,
        base: table_number(tables, base).unwrap_or(0) as u32,
        columns: columns_of(alloc, &[], columns)?,
    })
}

/// A table in which no row was ever made.
pub(crate) fn new_table(alloc: Global, table: &Table) -> Result<TenantTable, AllocError>
    ensures { IfOk result (λ made. made ≡ steps.new_table table.now) }
{
    let places = vec![in alloc; Place::Conv; table.columns.len()]?;
    Ok(TenantTable {
        made: 0,
        extended: List::new(alloc),
        placement: Placement::Settled {
            generation: 0,
            fold: Fold {
                shapes: List::new(alloc),
                places: List::from_vec(places),
            },
        },
    })
}
