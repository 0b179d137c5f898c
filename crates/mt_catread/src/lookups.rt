ghost use Rattle.std.specs.Prelude.{◌≡◌, IfOk};
ghost use Rattle.mt_catslot.specs.declared.slot.CatKey.TheVariants as keys;
ghost use Rattle.mt_catalog.specs.Found.{column_found, extended_found, field_found, placement_found, relation_found, tenant_found};
ghost use Rattle.mt_catalog.specs.Keyed.{slot_in};

use crate::slot_map::slot_at;
use mt_catcheck::SlotMap;
use mt_catslot::{CatKey, CatSlot, Class, Motion};
use mt_fold::Shape;
use mt_tree::Column;
use mt_value::Str;
use std::alloc::AllocError;

/// The number of the base table, and the name, of a base table or an extension.
pub(crate) fn relation_at(
    slots: &SlotMap,
    class: Class,
    number: u32,
) -> Result<Option<(u32, Str)>, AllocError>
    ensures { IfOk result (λ relation. relation ≡ relation_found (slot_in slots.now.entries (keys.Relation class number))) }
{
    match slot_at(slots, CatKey::Relation { class, number }) {
        Some(CatSlot::Relation { base, name, .. }) => Ok(Some((*base, name.copy()?))),
        _ => Ok(None),
    }
}

/// A column of a base table or an extension.
pub(crate) fn column_at(
    slots: &SlotMap,
    class: Class,
    number: u32,
    position: u32,
) -> Result<Option<Column>, AllocError>
    ensures { IfOk result (λ column. column ≡ column_found (slot_in slots.now.entries (keys.Column class number position))) }
{
    match slot_at(
        slots,
        CatKey::Column {
            class,
            number,
            position,
        },
    ) {
        Some(
            CatSlot::Column {
                kind,
                not_null,
                key,
                name,
                ..
            },
        ) => Ok(Some(Column {
            name: name.copy()?,
            kind: *kind,
            not_null: *not_null,
            key: *key,
        })),
        _ => Ok(None),
    }
}

/// The quota of a tenant.
pub(crate) fn tenant_at(slots: &SlotMap, tenant: u32) -> Option<u32>
    ensures { result ≡ tenant_found (slot_in slots.now.entries (keys.Tenant tenant)) }
{
    match slot_at(slots, CatKey::Tenant { tenant }) {
        Some(CatSlot::Tenant { quota, .. }) => Some(*quota),
        _ => None,
    }
}

/// How many rows of a tenant's table were made, and how they lie.
pub(crate) fn placement_at(slots: &SlotMap, tenant: u32, base: u32) -> Option<(u64, Motion)>
    ensures { result ≡ placement_found (slot_in slots.now.entries (keys.Placement tenant base)) }
{
    match slot_at(slots, CatKey::Placement { tenant, base }) {
        Some(CatSlot::Placement { made, motion, .. }) => Some((*made, *motion)),
        _ => None,
    }
}

/// The number of the extension of a tenant's table at a position.
pub(crate) fn extended_at(slots: &SlotMap, tenant: u32, base: u32, position: u32) -> Option<u32>
    ensures { result ≡ extended_found (slot_in slots.now.entries (keys.Extended tenant base position)) }
{
    match slot_at(
        slots,
        CatKey::Extended {
            tenant,
            base,
            position,
        },
    ) {
        Some(CatSlot::Extended { extension, .. }) => Some(*extension),
        _ => None,
    }
}

/// The shape and the number of the chunk, and the field, in which a column lies.
pub(crate) fn field_at(
    slots: &SlotMap,
    tenant: u32,
    base: u32,
    generation: u8,
    column: u32,
) -> Option<(Shape, u8, u8)>
    ensures { result ≡ field_found (slot_in slots.now.entries (keys.Field tenant base generation column)) }
{
    match slot_at(
        slots,
        CatKey::Field {
            tenant,
            base,
            generation,
            column,
        },
    ) {
        Some(
            CatSlot::Field {
                shape,
                chunk,
                field,
                ..
            },
        ) => Some((*shape, *chunk, *field)),
        _ => None,
    }
}
