ghost use Rattle.std.specs.Prelude.{◌≡◌, ℕ, map, Some, IfOk, IsErrOf, IsSome};
ghost use Rattle.mt_catslot.specs.declared.slot.CatKey.TheVariants as keys;
ghost use Rattle.mt_catalog.specs.Slots.{motion_of};
ghost use Rattle.mt_catalog.specs.Found.{AreFoundFields, AreFoundFolds, IsFoundFold, IsOfNone, IsRunOf, place_found, placement_found, shape_found};
ghost use Rattle.mt_catalog.specs.Keyed.{slot_in};

use crate::CatFault;
use crate::lookups::field_at;
use mt_catcheck::SlotMap;
use mt_catslot::Motion;
use mt_fold::{Fold, Place, Placement, Places, Shape, Shapes};
use mt_list::List;
use std::alloc::{AllocError, Global};

/// The shape and the number of a chunk, and a field of it.
type ChunkField = (Shape, u8, u8);

/// The fields in which so many columns lie.
fn read_fields(
    alloc: Global,
    slots: &SlotMap,
    tenant: u32,
    base: u32,
    generation: u8,
    columns: u32,
) -> Result<List<Option<ChunkField>>, AllocError>
    ensures { IfOk result (λ fields. AreFoundFields (slot_in slots.now.entries) tenant base generation columns fields) }
{
    let mut fields = List::new(alloc);
    for column in 0..columns {
        fields.push(field_at(slots, tenant, base, generation, column))?;
    }
    Ok(fields)
}

/// The shape of a chunk, by the first of some fields that lies in it.
fn shape_at(fields: &[Option<ChunkField>], chunk: u8) -> Option<Shape>
    ensures { result ≡ shape_found fields.now chunk }
{
    let mut rest = fields;
    while let Some((first, others)) = rest.split_first() {
        if let Some((shape, at, _)) = *first {
            if at == chunk {
                return Some(shape);
            }
        }
        rest = others;
    }
    None
}

/// The shapes of the chunks in which some fields lie.
fn read_shapes(alloc: Global, fields: &[Option<ChunkField>]) -> Result<Shapes, CatFault>
    ensures ok { IfOk result (λ shapes. IsRunOf (shape_found fields.now) shapes) }
    ensures damaged { IsErrOf result CatFault.Damaged → IsSome (shape_found fields.now 16) }
{
    let mut shapes = List::new(alloc);
    for chunk in 0..17 {
        let Some(shape) = shape_at(fields, chunk) else {
            return Ok(shapes);
        };
        shapes.push(shape)?;
    }
    Err(CatFault::Damaged)
}

/// The place of a column.
fn place_of(field: Option<ChunkField>) -> Place
    ensures { result ≡ place_found field }
{
    match field {
        None => Place::Conv,
        Some((_, chunk, field)) => Place::Field { chunk, field },
    }
}

/// The places of columns that lie in these fields.
fn places_of(alloc: Global, fields: &[Option<ChunkField>]) -> Result<Places, AllocError>
    ensures { IfOk result (λ places. places ≡ map place_found fields.now) }
{
    let mut places = List::new(alloc);
    for field in fields {
        places.push(place_of(*field))?;
    }
    Ok(places)
}

/// The fold of one generation.
fn read_fold(
    alloc: Global,
    slots: &SlotMap,
    tenant: u32,
    base: u32,
    generation: u8,
    columns: u32,
) -> Result<Fold, CatFault>
    ensures ok { IfOk result (λ fold. IsFoundFold (slot_in slots.now.entries) tenant base generation columns fold) }
    ensures damaged { IsErrOf result CatFault.Damaged → IsOfNone (slot_in slots.now.entries) }
{
    let fields = read_fields(alloc, slots, tenant, base, generation, columns)?;
    let shapes = read_shapes(alloc, fields.as_slice())?;
    let places = places_of(alloc, fields.as_slice())?;
    Ok(Fold { shapes, places })
}

/// How the rows of a table of so many columns lie.
#[tactic(auto, using(crate::proofs::Generations::large_generation))]
pub(crate) fn read_folds(
    alloc: Global,
    slots: &SlotMap,
    tenant: u32,
    base: u32,
    motion: Motion,
    columns: u32,
) -> Result<Placement, CatFault>
    requires placed { (made : ℕ) × (placement_found (slot_in slots.now.entries (keys.Placement tenant base)) ≡ Some (made, motion)) }
    ensures motion { IfOk result (λ placement. motion_of placement ≡ motion) }
    ensures folds { IfOk result (λ placement. AreFoundFolds (slot_in slots.now.entries) tenant base columns placement) }
    ensures damaged { IsErrOf result CatFault.Damaged → IsOfNone (slot_in slots.now.entries) }
{
    match motion {
        Motion::Settled { generation } => Ok(Placement::Settled {
            generation,
            fold: read_fold(alloc, slots, tenant, base, generation, columns)?,
        }),
        Motion::Moving {
            generation,
            frontier,
            upto,
        } => {
            if generation > 1 {
                return Err(CatFault::Damaged);
            }
            Ok(Placement::Moving {
                generation,
                before: read_fold(alloc, slots, tenant, base, generation, columns)?,
                after: read_fold(alloc, slots, tenant, base, 1 - generation, columns)?,
                frontier,
                upto,
            })
        }
    }
}
