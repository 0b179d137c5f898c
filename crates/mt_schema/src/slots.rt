//! The slot that a catalogue has with a key.
ghost use Rattle.std.specs.Prelude.{◌≡◌, slice_get, IfOk, option_and_then, option_copied, option_map};
ghost use Rattle.std.specs.FinMap as finite;
ghost use Rattle.mt_catslot.specs.declared.slot.Class.TheVariants as classes;
ghost use Rattle.mt_catslot.specs.declared.slot.CatSlot.TheVariants as slots;
ghost use Rattle.mt_catalog.specs.State as state;
ghost use Rattle.mt_catalog.specs.Slots as spec;

use crate::lookup::{base_columns, extension_columns, member, tenant_entry, tenant_table};
use mt_catalog::{Catalog, Extension};
use mt_catslot::{CatKey, CatSlot, Class, Motion};
use mt_fold::{Fold, Place, Placement};
use mt_tree::{Column, Table};
use std::alloc::AllocError;

/// The slot that a catalogue has with a key, if it has one. `AllocError` is want of memory.
pub(crate) fn slot_of(catalog: &Catalog, key: CatKey) -> Result<Option<CatSlot>, AllocError>
    ensures { IfOk result (λ slot. slot ≡ spec.slot_of catalog.now key) }
{
    match key {
        CatKey::Relation { class, number } => relation_slot(catalog, class, number),
        CatKey::Column {
            class,
            number,
            position,
        } => column_slot(catalog, class, number, position),
        CatKey::Tenant { tenant } => Ok(tenant_slot(catalog, tenant)),
        CatKey::Placement { tenant, base } => Ok(placement_slot(catalog, tenant, base)),
        CatKey::Extended {
            tenant,
            base,
            position,
        } => Ok(extended_slot(catalog, tenant, base, position)),
        CatKey::Field {
            tenant,
            base,
            generation,
            column,
        } => Ok(field_slot(catalog, tenant, base, generation, column)),
    }
}

/// The slot of a base table or an extension.
fn relation_slot(
    catalog: &Catalog,
    class: Class,
    number: u32,
) -> Result<Option<CatSlot>, AllocError>
    ensures { IfOk result (λ slot. slot ≡ spec.relation_slot catalog.now class number) }
{
    match class {
        Class::BaseTable => base_slot(catalog.bases.as_slice(), number),
        Class::Extension => extension_slot(catalog.extensions.as_slice(), number),
    }
}

/// The slot of a base table.
fn base_slot(bases: &[Table], number: u32) -> Result<Option<CatSlot>, AllocError>
    ensures { IfOk result (λ slot. slot ≡ option_map (λ table. slots.Relation classes.BaseTable number number table.name) (slice_get bases.now number)) }
{
    match member(bases, number as usize) {
        None => Ok(None),
        Some(table) => Ok(Some(CatSlot::Relation {
            class: Class::BaseTable,
            number,
            base: number,
            name: table.name.copy()?,
        })),
    }
}

/// The slot of an extension.
fn extension_slot(extensions: &[Extension], number: u32) -> Result<Option<CatSlot>, AllocError>
    ensures { IfOk result (λ slot. slot ≡ option_map (λ extension. slots.Relation classes.Extension number extension.base extension.name) (slice_get extensions.now number)) }
{
    match member(extensions, number as usize) {
        None => Ok(None),
        Some(extension) => Ok(Some(CatSlot::Relation {
            class: Class::Extension,
            number,
            base: extension.base,
            name: extension.name.copy()?,
        })),
    }
}

/// The columns of a base table or an extension; none where it is not there.
fn class_columns(catalog: &Catalog, class: Class, number: u32) -> &[Column]
    ensures { result.now ≡ spec.class_columns catalog.now class number }
{
    match class {
        Class::BaseTable => base_columns(catalog.bases.as_slice(), number as usize),
        Class::Extension => extension_columns(catalog.extensions.as_slice(), number as usize),
    }
}

/// The slot of a column of a base table or an extension.
fn column_slot(
    catalog: &Catalog,
    class: Class,
    number: u32,
    position: u32,
) -> Result<Option<CatSlot>, AllocError>
    ensures { IfOk result (λ slot. slot ≡ option_map (λ column. slots.Column class number position column.kind column.not_null column.key column.name) (slice_get (spec.class_columns catalog.now class number) position)) }
{
    match member(class_columns(catalog, class, number), position as usize) {
        None => Ok(None),
        Some(column) => Ok(Some(CatSlot::Column {
            class,
            number,
            position,
            kind: column.kind,
            not_null: column.not_null,
            key: column.key,
            name: column.name.copy()?,
        })),
    }
}

/// The slot of a tenant.
fn tenant_slot(catalog: &Catalog, tenant: u32) -> Option<CatSlot>
    ensures { result ≡ option_map (λ entry. slots.Tenant tenant entry.quota) (finite.get catalog.now.tenants tenant) }
{
    match tenant_entry(catalog, tenant) {
        None => None,
        Some(entry) => Some(CatSlot::Tenant {
            tenant,
            quota: entry.quota,
        }),
    }
}

/// How a table lies, its folds apart.
fn motion_of(placement: &Placement) -> Motion
    ensures { result ≡ spec.motion_of placement.now }
{
    match placement {
        Placement::Settled { generation, .. } => Motion::Settled {
            generation: *generation,
        },
        Placement::Moving {
            generation,
            frontier,
            upto,
            ..
        } => Motion::Moving {
            generation: *generation,
            frontier: *frontier,
            upto: *upto,
        },
    }
}

/// The slot of a tenant's table.
fn placement_slot(catalog: &Catalog, tenant: u32, base: u32) -> Option<CatSlot>
    ensures { result ≡ spec.placement_slot tenant base (state.tenant_table catalog.now tenant base) }
{
    match tenant_table(catalog, tenant, base) {
        None => None,
        Some(table) => Some(CatSlot::Placement {
            tenant,
            base,
            made: table.made,
            motion: motion_of(&table.placement),
        }),
    }
}

/// The slot of an extension of a tenant's table.
fn extended_slot(catalog: &Catalog, tenant: u32, base: u32, position: u32) -> Option<CatSlot>
    ensures { result ≡ spec.extended_slot tenant base position (state.tenant_table catalog.now tenant base) }
{
    match tenant_table(catalog, tenant, base) {
        None => None,
        Some(table) => number_slot(table.extended.as_slice(), tenant, base, position),
    }
}

/// The slot of the extension at a position of these.
fn number_slot(numbers: &[u32], tenant: u32, base: u32, position: u32) -> Option<CatSlot>
    ensures { result ≡ option_map (λ extension. slots.Extended tenant base position extension) (slice_get numbers.now position) }
{
    match member(numbers, position as usize) {
        None => None,
        Some(extension) => Some(CatSlot::Extended {
            tenant,
            base,
            position,
            extension: *extension,
        }),
    }
}

/// The fold of a generation, if the table has one.
fn fold_of(placement: &Placement, wanted: u8) -> Option<&Fold>
    ensures { option_copied result ≡ spec.fold_of placement.now wanted }
{
    match placement {
        Placement::Settled { generation, fold } => {
            if wanted == *generation {
                Some(fold)
            } else {
                None
            }
        }
        Placement::Moving {
            generation,
            before,
            after,
            ..
        } => {
            if wanted == *generation {
                Some(before)
            } else if wanted == 1u8.saturating_sub(*generation) {
                Some(after)
            } else {
                None
            }
        }
    }
}

/// The fold of a generation of a tenant's table, if there is one.
fn fold_in(catalog: &Catalog, tenant: u32, base: u32, generation: u8) -> Option<&Fold>
    ensures { option_copied result ≡ option_and_then (λ table. spec.fold_of table.placement generation) (state.tenant_table catalog.now tenant base) }
{
    match tenant_table(catalog, tenant, base) {
        None => None,
        Some(table) => fold_of(&table.placement, generation),
    }
}

/// The slot of a column of a tenant's table that lies in a chunk of the fold of a generation.
fn field_slot(
    catalog: &Catalog,
    tenant: u32,
    base: u32,
    generation: u8,
    column: u32,
) -> Option<CatSlot>
    ensures { result ≡ spec.field_slot tenant base generation column (state.tenant_table catalog.now tenant base) }
{
    match fold_in(catalog, tenant, base, generation) {
        None => None,
        Some(fold) => column_in_fold(fold, tenant, base, generation, column),
    }
}

/// The slot of a column of a fold; one in the conventional row has none.
fn column_in_fold(
    fold: &Fold,
    tenant: u32,
    base: u32,
    generation: u8,
    column: u32,
) -> Option<CatSlot>
    ensures { result ≡ spec.placed_slot tenant base generation column fold.now (slice_get fold.now.places column) }
{
    match member(fold.places.as_slice(), column as usize) {
        Some(Place::Field { chunk, field }) => {
            match member(fold.shapes.as_slice(), usize::from(*chunk)) {
                None => None,
                Some(shape) => Some(CatSlot::Field {
                    tenant,
                    base,
                    generation,
                    column,
                    shape: *shape,
                    chunk: *chunk,
                    field: *field,
                }),
            }
        }
        _ => None,
    }
}
