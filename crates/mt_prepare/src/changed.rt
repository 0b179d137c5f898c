//! The keys of the slots that a schema step puts or removes.
ghost use Rattle.std.specs.Prelude.{◌≡◌, ℕ, ◌+◌, ◌<◌, ◌≤◌, ◌^◌, ◌++◌, ◌==◌, if◌then◌else◌, List as Members, [], ◌∷◌, length, map, nat_eq, IfOk, None, OnOk};
ghost use Rattle.std.specs.FinMap as finite;
ghost use Rattle.std.specs.List.{IsDistinct, range_with_len};
ghost use Rattle.std.specs.Map.{keys_of};
ghost use Rattle.mt_tree.specs.declared.schema.Column.{Column};
ghost use Rattle.mt_fold.specs.Placements.{IsValidPlacement};
ghost use Rattle.mt_catslot.specs.declared.slot.Class.TheVariants as classes;
ghost use Rattle.mt_catslot.specs.declared.slot.CatKey.TheVariants as keys;
ghost use Rattle.mt_catalog.specs.Rules.{IsCatalogue};
ghost use Rattle.mt_catalog.specs.State as state;
ghost use Rattle.mt_schema.specs.Changed as spec;
ghost use Rattle.mt_schema.specs.Refusals as refusals;

use indexmap::IndexMap;
use mt_catalog::{Catalog, Extension, TenantEntry};
use mt_catslot::{CatKey, Class};
use mt_fold::Placement;
use mt_list::List;
use mt_schema::{extension_named, quota_of, tenant_entry, tenant_table};
use mt_tree::AdminCmd;
use mt_value::Str;
use std::alloc::{AllocError, Global};

/// The keys of the slots that a schema step that is not refused puts or removes. `AllocError` is want of
/// memory.
pub(crate) fn changed_keys(
    alloc: Global,
    catalog: &Catalog,
    step: &AdminCmd,
) -> Result<List<CatKey>, AllocError>
    requires rules { IsCatalogue catalog.now }
    requires accepted { (kept : ℕ → ℕ) × (refusals.step_refusal catalog.now kept step.now ≡ None) }
    ensures { IfOk result (λ changed. (tenants : Members ℕ) × spec.AreTenants tenants catalog.now × (changed ≡ spec.changed_keys catalog.now tenants step.now)) }
{
    match step {
        AdminCmd::CreateTable { columns, .. } => {
            table_keys(alloc, catalog, columns.len() as u32)
        }
        AdminCmd::CreateExtension { columns, .. } => {
            let number = catalog.extensions.len() as u32;
            relation_keys(alloc, Class::Extension, number, columns.len() as u32)
        }
        AdminCmd::CreateTenant { tenant, .. } => {
            tenant_keys(alloc, *tenant as u32, catalog.bases.len() as u32)
        }
        AdminCmd::Extend { tenant, extension } => {
            extended_keys(alloc, catalog, *tenant as u32, extension)
        }
        AdminCmd::SetQuota { tenant, quota } => quota_keys(alloc, catalog, *tenant as u32, *quota),
        _ => Ok(List::new(alloc)),
    }
}

/// The keys of a new base table or extension of so many columns.
fn relation_keys(
    alloc: Global,
    class: Class,
    number: u32,
    columns: u32,
) -> Result<List<CatKey>, AllocError>
    ensures { IfOk result (λ changed. changed ≡ keys.Relation class number ∷ spec.column_keys class number columns) }
{
    let mut changed = List::new(alloc);
    changed.push(CatKey::Relation { class, number })?;
    for position in 0..columns {
        changed.push(CatKey::Column {
            class,
            number,
            position,
        })?;
    }
    Ok(changed)
}

/// The keys of a new base table of so many columns, of which each tenant gets a table.
fn table_keys(alloc: Global, catalog: &Catalog, columns: u32) -> Result<List<CatKey>, AllocError>
    requires few { length catalog.now.bases ≤ 16 }
    ensures { IfOk result (λ changed. (tenants : Members ℕ) × spec.AreTenants tenants catalog.now
        × (changed ≡ keys.Relation classes.BaseTable (length catalog.now.bases) ∷ (spec.column_keys classes.BaseTable (length catalog.now.bases) columns ++ map (λ tenant. keys.Placement tenant (length catalog.now.bases)) tenants))) }
{
    let number = catalog.bases.len() as u32;
    let mut changed = relation_keys(alloc, Class::BaseTable, number, columns)?;
    add_tables(&mut changed, &catalog.tenants, number)?;
    Ok(changed)
}

/// Adds the keys of the tables that these tenants have of a base table.
fn add_tables(
    changed: &mut List<CatKey>,
    tenants: &IndexMap<u32, TenantEntry>,
    base: u32,
) -> Result<(), AllocError>
    ensures ok { OnOk result (changed.new ≡ changed.old ++ map (λ tenant. keys.Placement tenant base) (keys_of tenants.now.entries)) }
    ensures once { OnOk result (IsDistinct nat_eq (keys_of tenants.now.entries)) }
{
    for tenant in tenants.keys() {
        changed.push(CatKey::Placement {
            tenant: *tenant,
            base,
        })?;
    }
    Ok(())
}

/// The keys of a new tenant, who gets a table of each of so many base tables.
fn tenant_keys(alloc: Global, tenant: u32, bases: u32) -> Result<List<CatKey>, AllocError>
    ensures { IfOk result (λ changed. changed ≡ keys.Tenant tenant ∷ map (λ base. keys.Placement tenant base) (range_with_len 0 bases)) }
{
    let mut changed = List::new(alloc);
    changed.push(CatKey::Tenant { tenant })?;
    for base in 0..bases {
        changed.push(CatKey::Placement { tenant, base })?;
    }
    Ok(changed)
}

/// The keys that a tenant's table gets with an extension of that name.
fn extended_keys(
    alloc: Global,
    catalog: &Catalog,
    tenant: u32,
    name: &Str,
) -> Result<List<CatKey>, AllocError>
    requires rules { IsCatalogue catalog.now }
    ensures { IfOk result (λ changed. changed ≡ spec.extended_keys catalog.now tenant (refusals.extension_named catalog.now name.now)) }
{
    match extension_named(catalog, name) {
        None => Ok(List::new(alloc)),
        Some(extension) => added_keys(alloc, catalog, tenant, extension),
    }
}

/// The keys that a tenant's table gets with an extension.
fn added_keys(
    alloc: Global,
    catalog: &Catalog,
    tenant: u32,
    extension: &Extension,
) -> Result<List<CatKey>, AllocError>
    requires rules { IsCatalogue catalog.now }
    requires few { length extension.now.columns ≤ 16 }
    ensures { IfOk result (λ changed. changed ≡ spec.table_keys catalog.now tenant extension.now.base (length extension.now.columns) (state.tenant_table catalog.now tenant extension.now.base)) }
{
    let base = extension.base;
    let Some(table) = tenant_table(catalog, tenant, base) else {
        return Ok(List::new(alloc));
    };
    let position = table.extended.len() as u32;
    let first = width_of(&table.placement) as u32;
    let generation = generation_of(&table.placement);
    let mut changed = List::new(alloc);
    changed.push(CatKey::Extended {
        tenant,
        base,
        position,
    })?;
    let count = extension.columns.len() as u32;
    add_fields(&mut changed, tenant, base, generation, first, count)?;
    Ok(changed)
}

/// The generation of the fold of a table that is settled.
fn generation_of(placement: &Placement) -> u8
    ensures { result ≡ spec.generation_of placement.now }
{
    match placement {
        Placement::Settled { generation, .. } | Placement::Moving { generation, .. } => *generation,
    }
}

/// How many columns a table has that lies like this.
fn width_of(placement: &Placement) -> usize
    ensures { (columns : Members Column) (base_len : ℕ) → IsValidPlacement placement.now columns base_len → result ≡ length columns }
{
    match placement {
        Placement::Settled { fold, .. } | Placement::Moving { before: fold, .. } => {
            fold.places.len()
        }
    }
}

/// Adds the keys of so many columns of a fold from a first one on.
fn add_fields(
    changed: &mut List<CatKey>,
    tenant: u32,
    base: u32,
    generation: u8,
    first: u32,
    count: u32,
) -> Result<(), AllocError>
    requires { first + count < 2 ^ 32 }
    ensures { OnOk result (changed.new ≡ changed.old ++ map (λ column. keys.Field tenant base generation column) (range_with_len first count)) }
{
    for behind in 0..count {
        changed.push(CatKey::Field {
            tenant,
            base,
            generation,
            column: first + behind,
        })?;
    }
    Ok(())
}

/// The key of a tenant whose quota changes to this one; none where it is this one.
fn quota_keys(
    alloc: Global,
    catalog: &Catalog,
    tenant: u32,
    quota: u64,
) -> Result<List<CatKey>, AllocError>
    ensures { IfOk result (λ changed. changed ≡ (if refusals.quota_of (finite.get catalog.now.tenants tenant) == quota then [] else keys.Tenant tenant ∷ [])) }
{
    let mut changed = List::new(alloc);
    if quota_of(tenant_entry(catalog, tenant)) == quota {
        return Ok(changed);
    }
    changed.push(CatKey::Tenant { tenant })?;
    Ok(changed)
}
