ghost use Rattle.std.specs.Prelude.{◌≡◌, ℕ, ◌≤◌, ◌++◌, All, flat_map, length, nat_eq, slice_get, Some, IfOk, OnOk};
ghost use Rattle.std.specs.Bool.{Decides};
ghost use Rattle.std.specs.HashMap.{IsUnique, values};
ghost use Rattle.mt_catalog.specs.declared.state.TenantTable.{TenantTable as Kept};
ghost use Rattle.mt_catalog.specs.Clauses.{AreBases, AreExtensions, AreFewApart, AreFewTenants, AreKept, AreMade, AreWithin, Extends, IsOfBase, KeepsMostRules, QuotasFit};
ghost use Rattle.mt_catalog.specs.Rules.{IsCatalogue, IsTenant, IsTenantTable, MovesMade};
ghost use Rattle.mt_catalog.specs.State as state;

use crate::members::{base_columns, extension_columns, member};
use crate::rules::{
    all_bases, all_extensions, bases_are_apart, extensions_are_apart, own_columns_are_apart,
};
use indexmap::IndexMap;
use mt_catalog::{Catalog, Extension, TenantEntry, TenantTable};
use mt_fold::{Placement, valid_placement};
use mt_list::List;
use mt_tree::{Column, Columns, Table};
use std::alloc::{AllocError, Global};

/// The most that all quotas are together.
const QUOTAS: u32 = 1_048_576;

/// An equal column.
fn copy_column(column: &Column) -> Result<Column, AllocError>
    ensures { IfOk result (λ copied. copied ≡ column.now) }
{
    Ok(Column {
        name: column.name.copy()?,
        kind: column.kind,
        not_null: column.not_null,
        key: column.key,
    })
}

/// Adds equal columns at the end.
fn add_columns(columns: &mut Columns, added: &[Column]) -> Result<(), AllocError>
    ensures { OnOk result (columns.new ≡ columns.old ++ added.now) }
{
    let mut rest = added;
    while let Some((first, others)) = rest.split_first() {
        columns.push(copy_column(first)?)?;
        rest = others;
    }
    Ok(())
}

/// Adds the columns of these extensions at the end.
fn add_extensions(
    columns: &mut Columns,
    extensions: &[Extension],
    numbers: &[u32],
) -> Result<(), AllocError>
    ensures { OnOk result (columns.new ≡ columns.old ++ flat_map (λ number. state.extension_columns (slice_get extensions.now number)) numbers.now) }
{
    let mut rest = numbers;
    while let Some((first, others)) = rest.split_first() {
        add_columns(columns, extension_columns(extensions, *first as usize))?;
        rest = others;
    }
    Ok(())
}

/// The columns of a tenant's table of a base table, with these extensions.
fn extended_columns(
    alloc: Global,
    catalog: &Catalog,
    base: usize,
    numbers: &[u32],
) -> Result<Columns, AllocError>
    ensures { IfOk result (λ columns. columns ≡ state.extended_columns catalog.now base numbers.now) }
{
    let mut columns = List::new(alloc);
    add_columns(&mut columns, base_columns(catalog.bases.as_slice(), base))?;
    add_extensions(&mut columns, catalog.extensions.as_slice(), numbers)?;
    Ok(columns)
}

/// Whether each of these extensions is there, and is one of the base table.
fn all_extend(extensions: &[Extension], base: usize, numbers: &[u32]) -> bool
    ensures { Decides result (All (Extends extensions.now base) numbers.now) }
{
    let mut rest = numbers;
    while let Some((first, others)) = rest.split_first() {
        if !extends(extensions, base, *first) {
            return false;
        }
        rest = others;
    }
    true
}

/// Whether an extension is there, and is one of the base table.
fn extends(extensions: &[Extension], base: usize, number: u32) -> bool
    ensures { Decides result (Extends extensions.now base number) }
{
    match member(extensions, number as usize) {
        None => false,
        Some(extension) => extension.base as usize == base,
    }
}

/// Whether the rows that move were made.
fn moves_made(made: u64, placement: &Placement) -> bool
    ensures { Decides result (MovesMade made placement.now) }
{
    match placement {
        Placement::Settled { .. } => true,
        Placement::Moving { upto, .. } => *upto <= made,
    }
}

/// Whether so many rows may have been made of a table, and those that move were.
fn are_made(table: &TenantTable) -> bool
    ensures { Decides result (AreMade table.now) }
{
    table.made <= 1 << 63 && moves_made(table.made, &table.placement)
}

/// Whether the columns of a tenant's table are few, and have names of their own.
fn are_few_apart(columns: &[Column]) -> bool
    ensures { Decides result (AreFewApart columns.now) }
{
    columns.len() <= 32 && own_columns_are_apart(columns)
}

/// Whether the rows and the extensions of a tenant's table keep the rules.
fn is_of_base(extensions: &[Extension], base: usize, table: &TenantTable) -> bool
    ensures { Decides result (IsOfBase extensions.now base table.now) }
{
    are_made(table) && all_extend(extensions, base, table.extended.as_slice())
}

/// Whether a tenant's table with these columns, of which so many are the base table's, keeps the rules.
fn are_kept(
    extensions: &[Extension],
    base: usize,
    base_len: usize,
    table: &TenantTable,
    columns: &Columns,
) -> bool
    ensures { Decides result (AreKept extensions.now base base_len table.now columns.now) }
{
    is_of_base(extensions, base, table)
        && are_few_apart(columns.as_slice())
        && valid_placement(&table.placement, columns, base_len)
}

/// Whether a tenant's table keeps the rules.
fn is_tenant_table(
    alloc: Global,
    catalog: &Catalog,
    base: usize,
    table: &TenantTable,
) -> Result<bool, AllocError>
    ensures { IfOk result (λ is. Decides is (IsTenantTable catalog.now base table.now)) }
{
    let columns = extended_columns(alloc, catalog, base, table.extended.as_slice())?;
    let base_len = base_columns(catalog.bases.as_slice(), base).len();
    let extensions = catalog.extensions.as_slice();
    Ok(are_kept(extensions, base, base_len, table, &columns))
}

/// Whether each of a tenant's tables keeps the rules.
fn all_tables(
    alloc: Global,
    catalog: &Catalog,
    tables: &List<TenantTable>,
) -> Result<bool, AllocError>
    ensures { IfOk result (λ are. Decides are ((base : ℕ) (table : Kept) → slice_get tables.now base ≡ Some table → IsTenantTable catalog.now base table)) }
{
    for base in 0..tables.len() {
        if !is_tenant_table(alloc, catalog, base, tables.get(base))? {
            return Ok(false);
        }
    }
    Ok(true)
}

/// Whether a tenant may have that number and that quota.
fn are_within(number: u32, quota: u32) -> bool
    ensures { Decides result (AreWithin number quota) }
{
    1 <= number && 1 <= quota && quota <= 65_536
}

/// Whether a tenant keeps the rules.
fn is_tenant(
    alloc: Global,
    catalog: &Catalog,
    number: u32,
    entry: &TenantEntry,
) -> Result<bool, AllocError>
    ensures { IfOk result (λ is. Decides is (IsTenant catalog.now number entry.now)) }
{
    if !are_within(number, entry.quota) || entry.tables.len() != catalog.bases.len() {
        return Ok(false);
    }
    all_tables(alloc, catalog, &entry.tables)
}

/// Whether each of these tenants keeps the rules of the catalogue.
fn all_tenants(
    alloc: Global,
    catalog: &Catalog,
    tenants: &IndexMap<u32, TenantEntry>,
) -> Result<bool, AllocError>
    ensures kept { IfOk result (λ are. Decides are (All (λ entry. IsTenant catalog.now entry.0 entry.1) tenants.now.entries)) }
    ensures unique { IsUnique nat_eq tenants.now }
{
    for (number, entry) in tenants {
        if !is_tenant(alloc, catalog, *number, entry)? {
            return Ok(false);
        }
    }
    Ok(true)
}

/// Whether the quotas together are small enough.
fn quotas_fit(tenants: &IndexMap<u32, TenantEntry>) -> bool
    ensures { Decides result (QuotasFit (values tenants.now)) }
{
    let mut left = QUOTAS;
    for entry in tenants.values() {
        if entry.quota > left {
            return false;
        }
        left -= entry.quota;
    }
    true
}

/// Whether the base tables keep the rules.
fn are_bases(bases: &[Table]) -> bool
    ensures { Decides result (AreBases bases.now) }
{
    bases.len() <= 16 && all_bases(bases) && bases_are_apart(bases)
}

/// Whether the extensions keep the rules.
fn are_extensions(catalog: &Catalog) -> bool
    ensures { Decides result (AreExtensions catalog.now) }
{
    let extensions = catalog.extensions.as_slice();
    extensions.len() <= 64
        && all_extensions(catalog, extensions)
        && extensions_are_apart(extensions)
}

/// Whether these tenants are few, and their quotas together small enough.
fn are_few(tenants: &IndexMap<u32, TenantEntry>) -> bool
    ensures fit { Decides result ((length tenants.now.entries ≤ 1000) × QuotasFit (values tenants.now)) }
    ensures unique { IsUnique nat_eq tenants.now }
{
    tenants.len() <= 1000 && quotas_fit(tenants)
}

/// Whether the catalogue's tenants are few, and their quotas together small enough.
fn are_few_tenants(catalog: &Catalog) -> bool
    ensures { Decides result (AreFewTenants catalog.now) }
{
    are_few(&catalog.tenants)
}

/// Whether base tables, extensions and quotas keep the rules.
fn keeps_most_rules(catalog: &Catalog) -> bool
    ensures { Decides result (KeepsMostRules catalog.now) }
{
    are_bases(catalog.bases.as_slice()) && are_extensions(catalog) && are_few_tenants(catalog)
}

/// Whether the catalogue keeps the rules: decided exactly, and `AllocError` for want of memory alone.
pub fn is_catalogue(alloc: Global, catalog: &Catalog) -> Result<bool, AllocError>
    ensures { IfOk result (λ is. Decides is (IsCatalogue catalog.now)) }
{
    if !keeps_most_rules(catalog) {
        return Ok(false);
    }
    all_tenants(alloc, catalog, &catalog.tenants)
}
