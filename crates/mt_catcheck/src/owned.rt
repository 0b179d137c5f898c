ghost use Rattle.std.specs.Prelude.{◌≡◌, All, slice_get, option_and_then, option_copied, option_map, Some};
ghost use Rattle.std.specs.Bool.{Decides};
ghost use Rattle.std.specs.FinMap as finite;
ghost use Rattle.std.specs.HashMap.{values};
ghost use Rattle.mt_fold.specs.declared.fold.Place.TheVariants as lies;
ghost use Rattle.mt_catslot.specs.declared.slot.Class.TheVariants as classes;
ghost use Rattle.mt_catslot.specs.declared.slot.CatSlot.TheVariants as slots;
ghost use Rattle.mt_catalog.specs.State as state;
ghost use Rattle.mt_catalog.specs.Slots as spec;

use crate::members::{base_columns, extension_columns, member};
use indexmap::IndexMap;
use mt_catalog::{Catalog, Extension, TenantEntry, TenantTable};
use mt_catslot::{CatKey, CatSlot, Class, Motion};
use mt_fold::{Fold, Place, Placement, Shape};
use mt_tree::{Column, Kind, Table};
use mt_value::Str;

/// Slots by their keys.
pub type SlotMap = IndexMap<CatKey, CatSlot>;

/// Whether the catalogue has each of these slots, whatever keys they stand by.
pub fn has_slots(catalog: &Catalog, slots: &SlotMap) -> bool
    ensures { Decides result (All (spec.HasSlot catalog.now) (values slots.now)) }
{
    for slot in slots.values() {
        if !has_slot(catalog, slot) {
            return false;
        }
    }
    true
}

/// Whether the catalogue has this slot.
fn has_slot(catalog: &Catalog, slot: &CatSlot) -> bool
    ensures { Decides result (spec.HasSlot catalog.now slot.now) }
{
    match slot {
        CatSlot::Relation {
            class,
            number,
            base,
            name,
        } => has_relation(catalog, *class, *number, *base, name),
        CatSlot::Column {
            class,
            number,
            position,
            kind,
            not_null,
            key,
            name,
        } => {
            let columns = class_columns(catalog, *class, *number);
            has_column(columns, *position, *kind, *not_null, *key, name)
        }
        CatSlot::Tenant { tenant, quota } => has_quota(catalog, *tenant, *quota),
        CatSlot::Placement {
            tenant,
            base,
            made,
            motion,
        } => has_placement(catalog, *tenant, *base, *made, *motion),
        CatSlot::Extended {
            tenant,
            base,
            position,
            extension,
        } => has_number(catalog, *tenant, *base, *position, *extension),
        CatSlot::Field {
            tenant,
            base,
            generation,
            column,
            shape,
            chunk,
            field,
        } => match fold_in(catalog, *tenant, *base, *generation) {
            None => false,
            Some(fold) => lies_in(fold, *column, *shape, *chunk, *field),
        },
    }
}

/// Whether a base table or an extension has this name, and is of that base table.
fn has_relation(catalog: &Catalog, class: Class, number: u32, base: u32, name: &Str) -> bool
    ensures { Decides result (spec.relation_slot catalog.now class number ≡ Some (slots.Relation class number base name.now)) }
{
    match class {
        Class::BaseTable => is_base_named(catalog.bases.as_slice(), number, base, name),
        Class::Extension => is_extension_named(catalog.extensions.as_slice(), number, base, name),
    }
}

/// Whether a base table has this name.
fn is_base_named(bases: &[Table], number: u32, base: u32, name: &Str) -> bool
    ensures { Decides result (option_map (λ table. slots.Relation classes.BaseTable number number table.name) (slice_get bases.now number) ≡ Some (slots.Relation classes.BaseTable number base name.now)) }
{
    match member(bases, number as usize) {
        None => false,
        Some(table) => base == number && table.name == *name,
    }
}

/// Whether an extension has this name, and is of that base table.
fn is_extension_named(extensions: &[Extension], number: u32, base: u32, name: &Str) -> bool
    ensures { Decides result (option_map (λ extension. slots.Relation classes.Extension number extension.base extension.name) (slice_get extensions.now number) ≡ Some (slots.Relation classes.Extension number base name.now)) }
{
    match member(extensions, number as usize) {
        None => false,
        Some(extension) => extension.base == base && extension.name == *name,
    }
}

/// The columns of a base table or an extension; none where it is not there.
fn class_columns(catalog: &Catalog, class: Class, number: u32) -> &[Column]
    ensures { result.now ≡ spec.class_columns catalog.now class number }
{
    match class {
        Class::BaseTable => base_columns(catalog.bases.as_slice(), number as usize),
        Class::Extension => extension_columns(catalog.extensions.as_slice(), number as usize),
    }
}

/// Whether the column at a position is this one.
fn has_column(
    columns: &[Column],
    position: u32,
    kind: Kind,
    not_null: bool,
    key: bool,
    name: &Str,
) -> bool
    ensures { Decides result (slice_get columns.now position ≡ Some (record { name = name.now; kind = kind; not_null = not_null; key = key })) }
{
    match member(columns, position as usize) {
        None => false,
        Some(column) => is_column(column, kind, not_null, key, name),
    }
}

/// Whether a column is this one.
fn is_column(column: &Column, kind: Kind, not_null: bool, key: bool, name: &Str) -> bool
    ensures { Decides result (column.now ≡ record { name = name.now; kind = kind; not_null = not_null; key = key }) }
{
    column.kind == kind && column.not_null == not_null && column.key == key && column.name == *name
}

/// A tenant, if there is one of that number.
fn tenant_of(catalog: &Catalog, tenant: u32) -> Option<&TenantEntry>
    ensures { option_copied result ≡ finite.get catalog.now.tenants tenant }
{
    catalog.tenants.get(&tenant)
}

/// Whether a tenant has this quota.
fn has_quota(catalog: &Catalog, tenant: u32, quota: u32) -> bool
    ensures { Decides result (option_map (λ entry. slots.Tenant tenant entry.quota) (finite.get catalog.now.tenants tenant) ≡ Some (slots.Tenant tenant quota)) }
{
    match tenant_of(catalog, tenant) {
        None => false,
        Some(entry) => entry.quota == quota,
    }
}

/// A tenant's table of a base table, if it is there.
fn table_of(catalog: &Catalog, tenant: u32, base: u32) -> Option<&TenantTable>
    ensures { option_copied result ≡ state.tenant_table catalog.now tenant base }
{
    match tenant_of(catalog, tenant) {
        None => None,
        Some(entry) => member(entry.tables.as_slice(), base as usize),
    }
}

/// Whether so many rows were made of a tenant's table, and they lie like this.
fn has_placement(catalog: &Catalog, tenant: u32, base: u32, made: u64, motion: Motion) -> bool
    ensures { Decides result (spec.placement_slot tenant base (state.tenant_table catalog.now tenant base) ≡ Some (slots.Placement tenant base made motion)) }
{
    match table_of(catalog, tenant, base) {
        None => false,
        Some(table) => table.made == made && motion_of(&table.placement) == motion,
    }
}

/// How a table lies, its folds apart.
fn motion_of(placement: &Placement) -> Motion
    ensures { result ≡ spec.motion_of placement.now }
{
    match placement {
        Placement::Settled { generation, .. } => Motion::Settled {
            generation: *generation,
        },
        Placement::Moving {
            generation,
            frontier,
            upto,
            ..
        } => Motion::Moving {
            generation: *generation,
            frontier: *frontier,
            upto: *upto,
        },
    }
}

/// Whether the extension of a tenant's table at a position is this one.
fn has_number(catalog: &Catalog, tenant: u32, base: u32, position: u32, extension: u32) -> bool
    ensures { Decides result (spec.extended_slot tenant base position (state.tenant_table catalog.now tenant base) ≡ Some (slots.Extended tenant base position extension)) }
{
    match table_of(catalog, tenant, base) {
        None => false,
        Some(table) => is_number(table.extended.as_slice(), position, extension),
    }
}

/// Whether the number at a position is this one.
fn is_number(numbers: &[u32], position: u32, number: u32) -> bool
    ensures { Decides result (slice_get numbers.now position ≡ Some number) }
{
    match member(numbers, position as usize) {
        None => false,
        Some(there) => *there == number,
    }
}

/// The fold of a generation of a tenant's table, if there is one.
fn fold_in(catalog: &Catalog, tenant: u32, base: u32, generation: u8) -> Option<&Fold>
    ensures { option_copied result ≡ option_and_then (λ table. spec.fold_of table.placement generation) (state.tenant_table catalog.now tenant base) }
{
    match table_of(catalog, tenant, base) {
        None => None,
        Some(table) => fold_of(&table.placement, generation),
    }
}

/// The fold of a generation, if the table has one.
fn fold_of(placement: &Placement, wanted: u8) -> Option<&Fold>
    ensures { option_copied result ≡ spec.fold_of placement.now wanted }
{
    match placement {
        Placement::Settled { generation, fold } => {
            if wanted == *generation {
                Some(fold)
            } else {
                None
            }
        }
        Placement::Moving {
            generation,
            before,
            after,
            ..
        } => {
            if wanted == *generation {
                Some(before)
            } else if wanted == 1u8.saturating_sub(*generation) {
                Some(after)
            } else {
                None
            }
        }
    }
}

/// Whether a column lies in that field of a chunk of that shape.
fn lies_in(fold: &Fold, column: u32, shape: Shape, chunk: u8, field: u8) -> bool
    ensures { Decides result ((slice_get fold.now.places column ≡ Some (lies.Field chunk field)) × (slice_get fold.now.shapes chunk ≡ Some shape)) }
{
    is_place(fold.places.as_slice(), column, chunk, field)
        && is_shape(fold.shapes.as_slice(), chunk, shape)
}

/// Whether the place of a column is that field.
fn is_place(places: &[Place], column: u32, chunk: u8, field: u8) -> bool
    ensures { Decides result (slice_get places.now column ≡ Some (lies.Field chunk field)) }
{
    match member(places, column as usize) {
        None => false,
        Some(place) => *place == (Place::Field { chunk, field }),
    }
}

/// Whether the shape of a chunk is this one.
fn is_shape(shapes: &[Shape], chunk: u8, shape: Shape) -> bool
    ensures { Decides result (slice_get shapes.now chunk ≡ Some shape) }
{
    match member(shapes, usize::from(chunk)) {
        None => false,
        Some(there) => *there == shape,
    }
}
