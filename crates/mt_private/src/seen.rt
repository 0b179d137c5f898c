//! What a tenant sees of what is kept.
ghost use Rattle.std.specs.Prelude.{◌≡◌, option_copied, IfOk};
ghost use Rattle.std.specs.FinMap as finite;
ghost use Rattle.mt_catalog.specs.State.{extended_columns};
ghost use Rattle.mt_schema.specs.Steps as steps;
ghost use Rattle.mt_private.specs.Seen.{list_at, lists_of};

use crate::columns::{columns_among, member};
use crate::kept::TenantRows;
use crate::names::table_number;
use mt_catalog::{Catalog, TenantEntry};
use mt_list::List;
use mt_tree::{Columns, MarkedRow};
use mt_value::Str;
use std::alloc::{AllocError, Global};

/// What is kept of a tenant, if there is one.
pub(crate) fn tenant_of(catalog: &Catalog, tenant: u32) -> Option<&TenantEntry>
    ensures { option_copied result ≡ finite.get catalog.now.tenants tenant }
{
    catalog.tenants.get(&tenant)
}

/// The number of the base table of that name.
pub(crate) fn base_number(catalog: &Catalog, name: &Str) -> Option<usize>
    ensures { result ≡ steps.table_number catalog.now.bases name.now }
{
    table_number(catalog.bases.as_slice(), name)
}

/// The columns of a tenant's table of a base table, with these extensions.
pub(crate) fn columns_in(
    alloc: Global,
    catalog: &Catalog,
    base: usize,
    numbers: &[u32],
) -> Result<Columns, AllocError>
    ensures { IfOk result (λ columns. columns ≡ extended_columns catalog.now base numbers.now) }
{
    let bases = catalog.bases.as_slice();
    columns_among(alloc, bases, catalog.extensions.as_slice(), base, numbers)
}

/// The lists of a tenant.
pub(crate) fn lists_of(rows: &TenantRows, tenant: u32) -> &[List<MarkedRow>]
    ensures { result.now ≡ lists_of rows.now.entries tenant }
{
    match rows.get(&tenant) {
        None => &[],
        Some(lists) => lists.as_slice(),
    }
}

/// The rows of a table among a tenant's lists, also those in the trashcan.
pub(crate) fn rows_at(lists: &[List<MarkedRow>], base: usize) -> &[MarkedRow]
    ensures { result.now ≡ list_at lists.now base }
{
    match member(lists, base) {
        None => &[],
        Some(rows) => rows.as_slice(),
    }
}
