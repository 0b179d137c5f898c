//! What a catalogue has at a number or under a name, and the chunks for some columns.
ghost use Rattle.std.specs.Prelude.{◌≡◌, ◌≤◌, count_by, length, slice_get, option_copied, IfOk};
ghost use Rattle.std.specs.FinMap as finite;
ghost use Rattle.mt_codec.specs.declared.field.FieldKind.TheVariants.{Int, Text};
ghost use Rattle.mt_fold.specs.Extended.{kinds_of};
ghost use Rattle.mt_fold.specs.Shapes.{chunk_kind, same_sort};
ghost use Rattle.mt_catalog.specs.Rules.{IsCatalogue};
ghost use Rattle.mt_catalog.specs.State as state;
ghost use Rattle.mt_schema.specs.Refusals as tests;
ghost use Rattle.mt_schema.specs.Steps as steps;

use mt_catalog::{Catalog, Extension, TenantEntry, TenantTable};
use mt_cover::cover;
use mt_fold::Shapes;
use mt_tree::{Column, Kind, Table};
use mt_value::Str;
use std::alloc::{AllocError, Global};

/// The member at a number, counted from 0; `None` past the last.
pub fn member<T>(members: &[T], number: usize) -> Option<&T>
    ensures { option_copied result ≡ slice_get members.now number }
{
    if number < members.len() {
        Some(&members[number])
    } else {
        None
    }
}

/// Whether a name is one of these.
pub fn has_name(names: &[Str], name: &Str) -> bool
    ensures { result ≡ steps.has_name names.now name.now }
{
    names.iter().any(|other| *name == *other)
}

/// The number of the base table of that name: its place in the order in which they were made. `None`
/// where there is none.
pub fn table_number(tables: &[Table], name: &Str) -> Option<usize>
    ensures { result ≡ steps.table_number tables.now name.now }
{
    tables.iter().position(|table| table.name == *name)
}

/// The number of the extension of that name: its place in the order in which they were made. `None`
/// where there is none.
pub fn extension_number(extensions: &[Extension], name: &Str) -> Option<usize>
    ensures { result ≡ steps.extension_number extensions.now name.now }
{
    extensions
        .iter()
        .position(|extension| extension.name == *name)
}

/// The extension of that name; `None` where there is none.
pub fn extension_named<'a>(catalog: &'a Catalog, name: &Str) -> Option<&'a Extension>
    ensures { option_copied result ≡ tests.extension_named catalog.now name.now }
{
    match extension_number(catalog.extensions.as_slice(), name) {
        None => None,
        Some(number) => member(catalog.extensions.as_slice(), number),
    }
}

/// What is kept of the tenant of a number; `None` where there is no such tenant.
pub fn tenant_entry(catalog: &Catalog, tenant: u32) -> Option<&TenantEntry>
    ensures { option_copied result ≡ finite.get catalog.now.tenants tenant }
{
    catalog.tenants.get(&tenant)
}

/// What is kept of the tenant of a number as a command gives it, which may be one that no tenant can
/// have; `None` where there is no such tenant.
pub fn tenant_of(catalog: &Catalog, tenant: u64) -> Option<&TenantEntry>
    requires { IsCatalogue catalog.now }
    ensures { option_copied result ≡ finite.get catalog.now.tenants tenant }
{
    if tenant > u64::from(u32::MAX) {
        return None;
    }
    tenant_entry(catalog, tenant as u32)
}

/// A tenant's table of the base table of a number; `None` where there is no such tenant or base table.
pub fn tenant_table(catalog: &Catalog, tenant: u32, base: u32) -> Option<&TenantTable>
    ensures { option_copied result ≡ state.tenant_table catalog.now tenant base }
{
    match tenant_entry(catalog, tenant) {
        None => None,
        Some(entry) => member(entry.tables.as_slice(), base as usize),
    }
}

/// The quota of a tenant that was looked up; 0 where there is none.
pub fn quota_of(found: Option<&TenantEntry>) -> u64
    ensures { result ≡ tests.quota_of (option_copied found.entry) }
{
    match found {
        None => 0,
        Some(entry) => u64::from(entry.quota),
    }
}

/// The columns of a base table; none where it is not there.
pub(crate) fn base_columns(bases: &[Table], number: usize) -> &[Column]
    ensures { result.now ≡ state.base_columns (slice_get bases.now number) }
{
    match member(bases, number) {
        None => &[],
        Some(base) => base.columns.as_slice(),
    }
}

/// The columns of an extension; none where it is not there.
pub(crate) fn extension_columns(extensions: &[Extension], number: usize) -> &[Column]
    ensures { result.now ≡ state.extension_columns (slice_get extensions.now number) }
{
    match member(extensions, number) {
        None => &[],
        Some(extension) => extension.columns.as_slice(),
    }
}

/// Whether a column is an integer.
fn is_number(column: &Column) -> bool
    ensures { result ≡ same_sort Int (chunk_kind column.now.kind) }
{
    match column.kind {
        Kind::Integer => true,
        Kind::Varchar(_) => false,
    }
}

/// How many of these columns are integers.
fn numbers_in(columns: &[Column]) -> usize
    ensures { result ≡ count_by (same_sort Int) (kinds_of columns.now) }
{
    columns.iter().filter(|column| is_number(column)).count()
}

/// How many of these columns are texts.
fn texts_in(columns: &[Column]) -> usize
    ensures { result ≡ count_by (same_sort (Text 120)) (kinds_of columns.now) }
{
    columns.iter().filter(|column| !is_number(column)).count()
}

/// The shapes of the cheapest chunks that hold these columns. `AllocError` is want of memory.
pub fn cover_for(alloc: Global, columns: &[Column]) -> Result<Shapes, AllocError>
    requires { length columns.now ≤ 32 }
    ensures { IfOk result (λ shapes. shapes ≡ steps.cover_for columns.now) }
{
    cover(alloc, numbers_in(columns) as u32, texts_in(columns) as u32)
}
