ghost use Rattle.std.specs.Prelude.{◌≡◌, ◌≤◌, ◌++◌, map, bytes_eq, All};
ghost use Rattle.std.specs.Bool.{Decides};
ghost use Rattle.std.specs.List.{list_any};
ghost use Rattle.mt_catalog.specs.Clauses.{IsBeside};
ghost use Rattle.mt_catalog.specs.Rules.{AreApart, AreColumns, IsBase, IsColumn, IsExtension, IsKind, IsPlain, column_names};

use mt_catalog::{Catalog, Extension};
use mt_lexer::is_name;
use mt_tree::{Column, Columns, Kind, Table};
use mt_value::Str;

/// The most bytes that a VARCHAR column has.
const VARCHAR_SIZE: u8 = 120;

/// The greatest number of columns of a base table or of an extension.
const MOST_COLUMNS: usize = 16;

/// Whether there is this kind.
fn is_kind(kind: Kind) -> bool
    ensures { Decides result (IsKind kind) }
{
    match kind {
        Kind::Integer => true,
        Kind::Varchar(size) => 1 <= size && size <= VARCHAR_SIZE,
    }
}

/// Whether a column keeps the rules.
fn is_column(column: &Column) -> bool
    ensures { Decides result (IsColumn column.now) }
{
    is_name(&column.name) && is_kind(column.kind) && (!column.key || column.not_null)
}

/// Whether each column keeps the rules.
fn all_columns(columns: &[Column]) -> bool
    ensures { Decides result (All IsColumn columns.now) }
{
    let mut rest = columns;
    while let Some((first, others)) = rest.split_first() {
        if !is_column(first) {
            return false;
        }
        rest = others;
    }
    true
}

/// Whether one of the columns has this name.
fn has_name(columns: &[Column], name: &Str) -> bool
    ensures { result ≡ list_any (bytes_eq name.now) (column_names columns.now) }
{
    let mut rest = columns;
    while let Some((first, others)) = rest.split_first() {
        if *name == first.name {
            return true;
        }
        rest = others;
    }
    false
}

/// Whether no name stands twice among some columns.
pub(crate) fn own_columns_are_apart(columns: &[Column]) -> bool
    ensures { Decides result (AreApart (column_names columns.now)) }
{
    let mut rest = columns;
    while let Some((first, others)) = rest.split_first() {
        if has_name(others, &first.name) {
            return false;
        }
        rest = others;
    }
    true
}

/// Whether no name stands twice among some columns and those behind them.
fn columns_are_apart(columns: &[Column], behind: &[Column]) -> bool
    ensures { Decides result (AreApart (column_names columns.now ++ column_names behind.now)) }
{
    let mut rest = columns;
    while let Some((first, others)) = rest.split_first() {
        if has_name(others, &first.name) {
            return false;
        }
        if has_name(behind, &first.name) {
            return false;
        }
        rest = others;
    }
    own_columns_are_apart(behind)
}

/// Whether the columns of a base table or an extension keep the rules.
fn are_columns(columns: &Columns) -> bool
    ensures { Decides result (AreColumns columns.now) }
{
    let columns = columns.as_slice();
    is_count(columns.len()) && all_columns(columns) && own_columns_are_apart(columns)
}

/// Whether a base table or an extension has so many columns.
fn is_count(count: usize) -> bool
    ensures { Decides result ((1 ≤ count) × (count ≤ 16)) }
{
    1 <= count && count <= MOST_COLUMNS
}

/// Whether a base table keeps the rules.
fn is_base(table: &Table) -> bool
    ensures { Decides result (IsBase table.now) }
{
    is_name(&table.name) && are_columns(&table.columns)
}

/// Whether each base table keeps the rules.
pub(crate) fn all_bases(bases: &[Table]) -> bool
    ensures { Decides result (All IsBase bases.now) }
{
    let mut rest = bases;
    while let Some((first, others)) = rest.split_first() {
        if !is_base(first) {
            return false;
        }
        rest = others;
    }
    true
}

/// Whether one of the base tables has this name.
fn has_base_name(bases: &[Table], name: &Str) -> bool
    ensures { result ≡ list_any (bytes_eq name.now) (map (λ table. table.name) bases.now) }
{
    let mut rest = bases;
    while let Some((first, others)) = rest.split_first() {
        if *name == first.name {
            return true;
        }
        rest = others;
    }
    false
}

/// Whether no name stands twice among the base tables.
pub(crate) fn bases_are_apart(bases: &[Table]) -> bool
    ensures { Decides result (AreApart (map (λ table. table.name) bases.now)) }
{
    let mut rest = bases;
    while let Some((first, others)) = rest.split_first() {
        if has_base_name(others, &first.name) {
            return false;
        }
        rest = others;
    }
    true
}

/// Whether no column is of the key or NOT NULL.
fn all_plain(columns: &[Column]) -> bool
    ensures { Decides result (All IsPlain columns.now) }
{
    let mut rest = columns;
    while let Some((first, others)) = rest.split_first() {
        if !is_plain(first) {
            return false;
        }
        rest = others;
    }
    true
}

/// Whether a column is neither of the key nor NOT NULL.
fn is_plain(column: &Column) -> bool
    ensures { Decides result (IsPlain column.now) }
{
    !column.not_null && !column.key
}

/// Whether the columns of an extension keep the rules.
fn are_plain_columns(columns: &Columns) -> bool
    ensures { Decides result (AreColumns columns.now × All IsPlain columns.now) }
{
    are_columns(columns) && all_plain(columns.as_slice())
}

/// Whether the base table of an extension is there, and has columns of other names.
fn is_beside(bases: &[Table], extension: &Extension) -> bool
    ensures { Decides result (IsBeside bases.now extension.now) }
{
    match bases.get(extension.base as usize) {
        None => false,
        Some(base) => columns_are_apart(base.columns.as_slice(), extension.columns.as_slice()),
    }
}

/// Whether an extension keeps the rules.
fn is_extension(catalog: &Catalog, extension: &Extension) -> bool
    ensures { Decides result (IsExtension catalog.now extension.now) }
{
    is_name(&extension.name)
        && are_plain_columns(&extension.columns)
        && is_beside(catalog.bases.as_slice(), extension)
}

/// Whether each extension keeps the rules.
pub(crate) fn all_extensions(catalog: &Catalog, extensions: &[Extension]) -> bool
    ensures { Decides result (All (IsExtension catalog.now) extensions.now) }
{
    let mut rest = extensions;
    while let Some((first, others)) = rest.split_first() {
        if !is_extension(catalog, first) {
            return false;
        }
        rest = others;
    }
    true
}

/// Whether one of the extensions has this name.
fn has_extension_name(extensions: &[Extension], name: &Str) -> bool
    ensures { result ≡ list_any (bytes_eq name.now) (map (λ extension. extension.name) extensions.now) }
{
    let mut rest = extensions;
    while let Some((first, others)) = rest.split_first() {
        if *name == first.name {
            return true;
        }
        rest = others;
    }
    false
}

/// Whether no name stands twice among the extensions.
pub(crate) fn extensions_are_apart(extensions: &[Extension]) -> bool
    ensures { Decides result (AreApart (map (λ extension. extension.name) extensions.now)) }
{
    let mut rest = extensions;
    while let Some((first, others)) = rest.split_first() {
        if has_extension_name(others, &first.name) {
            return false;
        }
        rest = others;
    }
    true
}
