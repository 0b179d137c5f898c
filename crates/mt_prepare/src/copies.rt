//! Equal values of what a catalogue holds, and equal catalogues.
ghost use Rattle.std.specs.Prelude.{◌≡◌, ℕ, ◌++◌, Some, cond, map, nat_eq, IfOk, OnOk};
ghost use Rattle.indexmap.specs.IndexMap.{get, insert_entry};
ghost use Rattle.mt_prepare.specs.Copies.{with_new_tables};
ghost use Rattle.mt_schema.specs.Steps.{new_table};

use crate::definitions;
use indexmap::IndexMap;
use mt_catalog::{Catalog, Extension, Numbers, TenantEntry, TenantTable};
use mt_fold::Placement;
use mt_list::{Duplicate, List};
use mt_tree::{Column, Table};
use std::alloc::{AllocError, Global};

/// What the catalogue holds lists of, and of which an equal value can be made.
pub(crate) trait Copied: Drop {
    /// An equal value. `AllocError` is want of memory.
    fn copied(&self, alloc: Global) -> Result<Self, AllocError>
    where
        Self: Sized,
        ensures { IfOk result (λ copied. copied ≡ self.now) };
}

impl Copied for Column {
    fn copied(&self, _alloc: Global) -> Result<Column, AllocError> {
        Ok(Column {
            name: self.name.copy()?,
            kind: self.kind,
            not_null: self.not_null,
            key: self.key,
        })
    }
}

impl Copied for Table {
    fn copied(&self, alloc: Global) -> Result<Table, AllocError> {
        Ok(Table {
            name: self.name.copy()?,
            columns: copied_list(alloc, self.columns.as_slice())?,
        })
    }
}

impl Copied for Extension {
    fn copied(&self, alloc: Global) -> Result<Extension, AllocError> {
        Ok(Extension {
            name: self.name.copy()?,
            base: self.base,
            columns: copied_list(alloc, self.columns.as_slice())?,
        })
    }
}

impl Copied for TenantTable {
    fn copied(&self, alloc: Global) -> Result<TenantTable, AllocError> {
        Ok(TenantTable {
            made: self.made,
            extended: copied_numbers(alloc, self.extended.as_slice())?,
            placement: copied_placement(alloc, &self.placement)?,
        })
    }
}

/// A list of equal members.
pub(crate) fn copied_list<T: Copied>(alloc: Global, members: &[T]) -> Result<List<T>, AllocError>
    ensures { IfOk result (λ copied. copied ≡ members.now) }
{
    let mut copied = Vec::with_capacity(alloc, members.len())?;
    for member in members {
        copied.push(member.copied(alloc)?)?;
    }
    Ok(List::from_vec(copied))
}

/// The same numbers.
pub(crate) fn copied_numbers(alloc: Global, numbers: &[u32]) -> Result<Numbers, AllocError>
    ensures { IfOk result (λ copied. copied ≡ numbers.now) }
{
    Ok(List::from_vec(Vec::from_slice(alloc, numbers)?))
}

/// An equal placement.
pub(crate) fn copied_placement(
    alloc: Global,
    placement: &Placement,
) -> Result<Placement, AllocError>
    ensures { IfOk result (λ copied. copied ≡ placement.now) }
{
    placement.copy(alloc)
}

/// Adds a new table of each of these base tables.
pub(crate) fn add_new_tables(
    alloc: Global,
    tables: &mut List<TenantTable>,
    bases: &[Table],
) -> Result<(), AllocError>
    ensures { OnOk result (tables.new ≡ tables.old ++ map new_table bases.now) }
{
    let mut rest = bases;
    while let Some((first, others)) = rest.split_first() {
        tables.push(definitions::new_table(alloc, first)?)?;
        rest = others;
    }
    Ok(())
}

/// An equal tenant, with new tables of these base tables behind the others.
fn entry_with(
    alloc: Global,
    entry: &TenantEntry,
    bases: &[Table],
) -> Result<TenantEntry, AllocError>
    ensures { IfOk result (λ copied. copied ≡ with_new_tables bases.now entry.now) }
{
    let mut tables = copied_list(alloc, entry.tables.as_slice())?;
    add_new_tables(alloc, &mut tables, bases)?;
    Ok(TenantEntry {
        quota: entry.quota,
        tables,
    })
}

/// Keeps this of a tenant, in the place of what was kept before.
pub(crate) fn put_entry(
    tenants: &mut IndexMap<u32, TenantEntry>,
    number: u32,
    entry: TenantEntry,
) -> Result<(), AllocError>
    ensures entries { OnOk result (tenants.new.entries ≡ insert_entry nat_eq tenants.old.entries number entry) }
    ensures looked { OnOk result ((n : ℕ) → get nat_eq tenants.new n ≡ cond (nat_eq number n) (Some entry) (get nat_eq tenants.old n)) }
{
    tenants.insert(number, entry)?;
    Ok(())
}

/// Equal tenants in the same order, each with new tables of these base tables behind the others.
pub(crate) fn tenants_with(
    alloc: Global,
    tenants: &IndexMap<u32, TenantEntry>,
    bases: &[Table],
) -> Result<IndexMap<u32, TenantEntry>, AllocError>
    ensures { IfOk result (λ copied. copied.entries ≡ map (λ entry. (entry.0, with_new_tables bases.now entry.1)) tenants.now.entries) }
{
    let mut copied = IndexMap::with_capacity(alloc, tenants.len())?;
    for (number, entry) in tenants {
        let made = entry_with(alloc, entry, bases)?;
        put_entry(&mut copied, *number, made)?;
    }
    Ok(copied)
}

/// An equal catalogue.
pub(crate) fn copied_catalog(alloc: Global, catalog: &Catalog) -> Result<Catalog, AllocError>
    ensures { IfOk result (λ copied. copied ≡ catalog.now) }
{
    Ok(Catalog {
        bases: copied_list(alloc, catalog.bases.as_slice())?,
        extensions: copied_list(alloc, catalog.extensions.as_slice())?,
        tenants: tenants_with(alloc, &catalog.tenants, &[])?,
    })
}
