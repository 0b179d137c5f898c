//! The catalogue after a schema step that is not refused.
ghost use Rattle.std.specs.Prelude.{◌≡◌, ℕ, ◌+◌, ◌≤◌, [], ◌∷◌, ◌++◌, None, Some, length, slice_get, IfOk};
ghost use Rattle.std.specs.FinMap as finite;
ghost use Rattle.mt_tree.specs.declared.command.AdminCmd.TheVariants as commands;
ghost use Rattle.mt_catalog.specs.declared.state.TenantTable.{TenantTable as Kept};
ghost use Rattle.mt_catalog.specs.Rules.{IsCatalogue};
ghost use Rattle.mt_schema.specs.Refusals as refusals;
ghost use Rattle.mt_schema.specs.Steps as steps;

use crate::copies::{
    add_new_tables, copied_catalog, copied_list, copied_numbers, put_entry, tenants_with,
};
use crate::definitions::{defined_extension, defined_table};
use mt_catalog::{Catalog, Extension, TenantEntry, TenantTable};
use mt_fold::{Placement, extend_fold};
use mt_list::{Duplicate, List};
use mt_schema::{cover_for, extension_number, member, tenant_of};
use mt_tree::{AdminCmd, Columns, Table};
use mt_value::Str;
use std::alloc::{AllocError, Global};
use std::slice;

/// The catalogue with a base table more, of which each tenant has one.
fn with_base(alloc: Global, catalog: &Catalog, table: Table) -> Result<Catalog, AllocError>
    ensures { IfOk result (λ next. next ≡ record { bases = catalog.now.bases ++ table ∷ []; extensions = catalog.now.extensions; tenants = steps.in_each (steps.with_new_table table) catalog.now.tenants }) }
{
    let tenants = tenants_with(alloc, &catalog.tenants, slice::from_ref(&table))?;
    let mut bases = copied_list(alloc, catalog.bases.as_slice())?;
    bases.push(table)?;
    Ok(Catalog {
        bases,
        extensions: copied_list(alloc, catalog.extensions.as_slice())?,
        tenants,
    })
}

/// The catalogue with an extension more.
fn with_extension(
    alloc: Global,
    catalog: &Catalog,
    extension: Extension,
) -> Result<Catalog, AllocError>
    ensures { IfOk result (λ next. next ≡ record { bases = catalog.now.bases; extensions = catalog.now.extensions ++ extension ∷ []; tenants = catalog.now.tenants }) }
{
    let mut extensions = copied_list(alloc, catalog.extensions.as_slice())?;
    extensions.push(extension)?;
    Ok(Catalog {
        bases: copied_list(alloc, catalog.bases.as_slice())?,
        extensions,
        tenants: tenants_with(alloc, &catalog.tenants, &[])?,
    })
}

/// The catalogue in which this is kept of a tenant.
fn with_tenant(
    alloc: Global,
    catalog: &Catalog,
    tenant: u32,
    entry: TenantEntry,
) -> Result<Catalog, AllocError>
    ensures { IfOk result (λ next. next ≡ record { bases = catalog.now.bases; extensions = catalog.now.extensions; tenants = finite.insert catalog.now.tenants tenant entry }) }
{
    let mut tenants = tenants_with(alloc, &catalog.tenants, &[])?;
    put_entry(&mut tenants, tenant, entry)?;
    Ok(Catalog {
        bases: copied_list(alloc, catalog.bases.as_slice())?,
        extensions: copied_list(alloc, catalog.extensions.as_slice())?,
        tenants,
    })
}

/// The catalogue after CREATE TENANT.
fn made_tenant(
    alloc: Global,
    catalog: &Catalog,
    tenant: u64,
    quota: u64,
) -> Result<Catalog, AllocError>
    requires tenant { tenant ≤ 4294967295 }
    requires quota { quota ≤ 65536 }
    ensures { IfOk result (λ next. next ≡ steps.stepped catalog.now (commands.CreateTenant tenant quota)) }
{
    let mut tables = List::new(alloc);
    add_new_tables(alloc, &mut tables, catalog.bases.as_slice())?;
    let entry = TenantEntry {
        quota: quota as u32,
        tables,
    };
    with_tenant(alloc, catalog, tenant as u32, entry)
}

/// The catalogue after SET QUOTA.
fn with_quota(
    alloc: Global,
    catalog: &Catalog,
    tenant: u64,
    quota: u64,
) -> Result<Catalog, AllocError>
    requires rules { IsCatalogue catalog.now }
    requires quota { quota ≤ 65536 }
    ensures { IfOk result (λ next. next ≡ steps.stepped catalog.now (commands.SetQuota tenant quota)) }
{
    let Some(entry) = tenant_of(catalog, tenant) else {
        return copied_catalog(alloc, catalog);
    };
    let quota = quota as u32;
    let tables = copied_list(alloc, entry.tables.as_slice())?;
    with_tenant(alloc, catalog, tenant as u32, TenantEntry { quota, tables })
}

/// How a table lies that has chunks for further columns.
fn extended_placement(
    alloc: Global,
    added: &Columns,
    placement: &Placement,
) -> Result<Placement, AllocError>
    requires few { length added.now ≤ 32 }
    requires chunks { refusals.chunks_in placement.now + length (steps.cover_for added.now) ≤ 16 }
    ensures { IfOk result (λ extended. extended ≡ steps.extended_placement added.now placement.now) }
{
    match placement {
        Placement::Settled { generation, fold } => {
            let shapes = cover_for(alloc, added.as_slice())?;
            Ok(Placement::Settled {
                generation: *generation,
                fold: extend_fold(alloc, fold, added, &shapes)?,
            })
        }
        Placement::Moving { .. } => placement.copy(alloc),
    }
}

/// A table with an extension more.
fn extended_table(
    alloc: Global,
    number: u32,
    added: &Columns,
    table: &TenantTable,
) -> Result<TenantTable, AllocError>
    requires few { length added.now ≤ 32 }
    requires chunks { refusals.chunks_in table.now.placement + length (steps.cover_for added.now) ≤ 16 }
    ensures { IfOk result (λ extended. extended ≡ steps.with_extension number added.now table.now) }
{
    let mut extended = copied_numbers(alloc, table.extended.as_slice())?;
    extended.push(number)?;
    Ok(TenantTable {
        made: table.made,
        extended,
        placement: extended_placement(alloc, added, &table.placement)?,
    })
}

/// A tenant whose table has an extension more.
fn extended_entry(
    alloc: Global,
    entry: &TenantEntry,
    number: u32,
    extension: &Extension,
) -> Result<TenantEntry, AllocError>
    requires few { length extension.now.columns ≤ 32 }
    requires chunks { (table : Kept) → slice_get entry.now.tables extension.now.base ≡ Some table → refusals.chunks_in table.placement + length (steps.cover_for extension.now.columns) ≤ 16 }
    ensures { IfOk result (λ extended. extended ≡ steps.with_table extension.now.base (steps.with_extension number extension.now.columns) entry.now) }
{
    let base = extension.base as usize;
    let mut tables = copied_list(alloc, entry.tables.as_slice())?.into_vec();
    if let Some(table) = member(entry.tables.as_slice(), base) {
        tables[base] = extended_table(alloc, number, &extension.columns, table)?;
    }
    Ok(TenantEntry {
        quota: entry.quota,
        tables: List::from_vec(tables),
    })
}

/// The catalogue after EXTEND.
fn extended(
    alloc: Global,
    catalog: &Catalog,
    tenant: u64,
    name: &Str,
) -> Result<Catalog, AllocError>
    requires rules { IsCatalogue catalog.now }
    requires accepted { refusals.first_holding (refusals.extend_tests catalog.now tenant (refusals.extension_named catalog.now name.now)) ≡ None }
    ensures { IfOk result (λ next. next ≡ steps.stepped catalog.now (commands.Extend tenant name.now)) }
{
    let Some(number) = extension_number(catalog.extensions.as_slice(), name) else {
        return copied_catalog(alloc, catalog);
    };
    let Some(entry) = tenant_of(catalog, tenant) else {
        return copied_catalog(alloc, catalog);
    };
    let extension = catalog.extensions.get(number);
    let changed = extended_entry(alloc, entry, number as u32, extension)?;
    with_tenant(alloc, catalog, tenant as u32, changed)
}

/// The catalogue after a schema step that is not refused. Every other command leaves it.
pub(crate) fn stepped(
    alloc: Global,
    catalog: &Catalog,
    step: &AdminCmd,
) -> Result<Catalog, AllocError>
    requires rules { IsCatalogue catalog.now }
    requires accepted { (kept : ℕ) × (refusals.step_refusal catalog.now (λ tenant. kept) step.now ≡ None) }
    ensures { IfOk result (λ next. next ≡ steps.stepped catalog.now step.now) }
{
    match step {
        AdminCmd::CreateTable { name, columns, key } => {
            let table = defined_table(alloc, name, columns.as_slice(), key.as_slice())?;
            with_base(alloc, catalog, table)
        }
        AdminCmd::CreateExtension {
            name,
            base,
            columns,
        } => {
            let bases = catalog.bases.as_slice();
            let extension = defined_extension(alloc, bases, name, base, columns.as_slice())?;
            with_extension(alloc, catalog, extension)
        }
        AdminCmd::CreateTenant { tenant, quota } => made_tenant(alloc, catalog, *tenant, *quota),
        AdminCmd::Extend { tenant, extension } => extended(alloc, catalog, *tenant, extension),
        AdminCmd::SetQuota { tenant, quota } => with_quota(alloc, catalog, *tenant, *quota),
        _ => copied_catalog(alloc, catalog),
    }
}
