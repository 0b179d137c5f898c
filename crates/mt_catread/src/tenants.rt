ghost use Rattle.std.specs.Prelude.{◌≡◌, ℕ, ◌<◌, ◌≤◌, All, Some, length, cond, flat_map, nat_eq, slice_get, IfOk, IsErrOf, IsSome, OnOk};
ghost use Rattle.indexmap.specs.IndexMap.{get};
ghost use Rattle.mt_catslot.specs.declared.slot.CatKey.TheVariants as keys;
ghost use Rattle.mt_catalog.specs.Found.{AreFoundBases, AreFoundNumbers, IsFoundEntry, IsFoundTable, IsFoundTenant, IsOfNone, columns_among, tenant_found};
ghost use Rattle.mt_catalog.specs.Keyed.{slot_in};
ghost use Rattle.mt_catalog.specs.Small.{AreNarrow, AreSmallBases};
ghost use Rattle.mt_catalog.specs.State.{extension_columns};

use crate::CatFault;
use crate::folds::read_folds;
use crate::lookups::{extended_at, placement_at, tenant_at};
use indexmap::IndexMap;
use mt_catalog::{Extension, Numbers, TenantEntry, TenantTable};
use mt_catcheck::SlotMap;
use mt_catslot::CatKey;
use mt_list::List;
use mt_tree::Table;
use std::alloc::Global;

/// The extensions of a tenant's table.
fn read_numbers(alloc: Global, slots: &SlotMap, tenant: u32, base: u32) -> Result<Numbers, CatFault>
    ensures ok { IfOk result (λ numbers. AreFoundNumbers (slot_in slots.now.entries) tenant base numbers) }
    ensures few { IfOk result (λ numbers. length numbers ≤ 32) }
    ensures damaged { IsErrOf result CatFault.Damaged → IsOfNone (slot_in slots.now.entries) }
{
    let mut numbers = List::new(alloc);
    for position in 0..33 {
        let Some(extension) = extended_at(slots, tenant, base, position) else {
            return Ok(numbers);
        };
        numbers.push(extension)?;
    }
    Err(CatFault::Damaged)
}

/// How many columns an extension has; none where it is not there.
fn width_of(extensions: &List<Extension>, number: u32) -> u32
    requires { AreNarrow extensions.now }
    ensures is { result ≡ length (extension_columns (slice_get extensions.now number)) }
    ensures few { result ≤ 16 }
{
    let number = number as usize;
    if number < extensions.len() {
        extensions.get(number).columns.len() as u32
    } else {
        0
    }
}

/// How many columns these extensions have.
fn widths_of(extensions: &List<Extension>, numbers: &[u32]) -> u32
    requires narrow { AreNarrow extensions.now }
    requires few { length numbers.now ≤ 32 }
    ensures is { result ≡ length (flat_map (λ number. extension_columns (slice_get extensions.now number)) numbers.now) }
    ensures few { result ≤ 512 }
{
    let mut width = 0;
    for number in numbers {
        width += width_of(extensions, *number);
    }
    width
}

/// How many columns a tenant's table of a base table has that has these extensions.
fn width_among(bases: &List<Table>, extensions: &List<Extension>, base: u32, numbers: &[u32]) -> u32
    requires there { base < length bases.now }
    requires small { AreSmallBases bases.now }
    requires narrow { AreNarrow extensions.now }
    requires few { length numbers.now ≤ 32 }
    ensures { result ≡ length (columns_among bases.now extensions.now base numbers.now) }
{
    let base_len = bases.get(base as usize).columns.len() as u32;
    base_len + widths_of(extensions, numbers)
}

/// A tenant's table of a base table.
fn read_table(
    alloc: Global,
    slots: &SlotMap,
    bases: &List<Table>,
    extensions: &List<Extension>,
    tenant: u32,
    base: u32,
) -> Result<TenantTable, CatFault>
    requires tenant { IsSome (tenant_found (slot_in slots.now.entries (keys.Tenant tenant))) }
    requires bases { AreFoundBases (slot_in slots.now.entries) bases.now }
    requires there { base < length bases.now }
    requires small { AreSmallBases bases.now }
    requires narrow { AreNarrow extensions.now }
    ensures ok { IfOk result (λ table. IsFoundTable (slot_in slots.now.entries) bases.now extensions.now tenant base table) }
    ensures damaged { IsErrOf result CatFault.Damaged → IsOfNone (slot_in slots.now.entries) }
{
    let Some((made, motion)) = placement_at(slots, tenant, base) else {
        return Err(CatFault::Damaged);
    };
    let extended = read_numbers(alloc, slots, tenant, base)?;
    let columns = width_among(bases, extensions, base, extended.as_slice());
    let placement = read_folds(alloc, slots, tenant, base, motion, columns)?;
    Ok(TenantTable {
        made,
        extended,
        placement,
    })
}

/// A tenant's tables, one of each base table.
fn read_tables(
    alloc: Global,
    slots: &SlotMap,
    bases: &List<Table>,
    extensions: &List<Extension>,
    tenant: u32,
) -> Result<List<TenantTable>, CatFault>
    requires tenant { IsSome (tenant_found (slot_in slots.now.entries (keys.Tenant tenant))) }
    requires bases { AreFoundBases (slot_in slots.now.entries) bases.now }
    requires small { AreSmallBases bases.now }
    requires narrow { AreNarrow extensions.now }
    ensures size { IfOk result (λ tables. length tables ≡ length bases.now) }
    ensures ok { IfOk result (λ tables. (base : ℕ) (table : TenantTable) → slice_get tables base ≡ Some table → IsFoundTable (slot_in slots.now.entries) bases.now extensions.now tenant base table) }
    ensures damaged { IsErrOf result CatFault.Damaged → IsOfNone (slot_in slots.now.entries) }
{
    let mut tables = List::new(alloc);
    for base in 0..bases.len() as u32 {
        let table = read_table(alloc, slots, bases, extensions, tenant, base)?;
        tables.push(table)?;
    }
    Ok(tables)
}

/// A tenant by whose key a slot stands.
fn read_tenant(
    alloc: Global,
    slots: &SlotMap,
    bases: &List<Table>,
    extensions: &List<Extension>,
    tenant: u32,
) -> Result<TenantEntry, CatFault>
    requires key { IsSome (slot_in slots.now.entries (keys.Tenant tenant)) }
    requires bases { AreFoundBases (slot_in slots.now.entries) bases.now }
    requires small { AreSmallBases bases.now }
    requires narrow { AreNarrow extensions.now }
    ensures ok { IfOk result (λ entry. IsFoundEntry (slot_in slots.now.entries) bases.now extensions.now tenant entry) }
    ensures damaged { IsErrOf result CatFault.Damaged → IsOfNone (slot_in slots.now.entries) }
{
    let Some(quota) = tenant_at(slots, tenant) else {
        return Err(CatFault::Damaged);
    };
    let tables = read_tables(alloc, slots, bases, extensions, tenant)?;
    Ok(TenantEntry { quota, tables })
}

/// Adds a tenant with this number to those that were read.
fn add_tenant(
    alloc: Global,
    slots: &SlotMap,
    bases: &List<Table>,
    extensions: &List<Extension>,
    tenant: u32,
    tenants: &mut IndexMap<u32, TenantEntry>,
) -> Result<(), CatFault>
    requires key { IsSome (slot_in slots.now.entries (keys.Tenant tenant)) }
    requires bases { AreFoundBases (slot_in slots.now.entries) bases.now }
    requires small { AreSmallBases bases.now }
    requires narrow { AreNarrow extensions.now }
    ensures ok { OnOk result ((entry : TenantEntry) × IsFoundEntry (slot_in slots.now.entries) bases.now extensions.now tenant entry × ((number : ℕ) → get nat_eq tenants.new number ≡ cond (nat_eq tenant number) (Some entry) (get nat_eq tenants.old number))) }
    ensures damaged { IsErrOf result CatFault.Damaged → IsOfNone (slot_in slots.now.entries) }
{
    let entry = read_tenant(alloc, slots, bases, extensions, tenant)?;
    match tenants.insert(tenant, entry) {
        Ok(_) => Ok(()),
        Err(_) => Err(CatFault::Memory),
    }
}

/// The tenants.
pub(crate) fn read_tenants(
    alloc: Global,
    slots: &SlotMap,
    bases: &List<Table>,
    extensions: &List<Extension>,
) -> Result<IndexMap<u32, TenantEntry>, CatFault>
    requires bases { AreFoundBases (slot_in slots.now.entries) bases.now }
    requires small { AreSmallBases bases.now }
    requires narrow { AreNarrow extensions.now }
    ensures ok { IfOk result (λ tenants. (tenant : ℕ) → IsFoundTenant (slot_in slots.now.entries) bases.now extensions.now tenant (get nat_eq tenants tenant)) }
    ensures damaged { IsErrOf result CatFault.Damaged → IsOfNone (slot_in slots.now.entries) }
{
    let mut tenants = IndexMap::new(alloc);
    for key in slots.keys() {
        if let CatKey::Tenant { tenant } = *key {
            add_tenant(alloc, slots, bases, extensions, tenant, &mut tenants)?;
        }
    }
    Ok(tenants)
}
