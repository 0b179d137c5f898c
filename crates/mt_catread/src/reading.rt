ghost use Rattle.std.specs.Prelude.{◌≡◌, ◌≤◌, All, length, IfOk, IsErrOf};
ghost use Rattle.mt_rowfile.specs.Layouts.{body_width};
ghost use Rattle.mt_rowfile.specs.Slots.{IsBody};
ghost use Rattle.mt_catread.specs.Entries.{AreKeyed};
ghost use Rattle.mt_catalog.specs.Found.{IsFound, IsOf, IsOfNone};
ghost use Rattle.mt_catalog.specs.Keyed.{slot_in};
ghost use Rattle.mt_catalog.specs.Reading.{IsDamagedCatalogue, SayCatalogue};
ghost use Rattle.mt_catalog.specs.Rules.{IsCatalogue};

use crate::relations::{read_bases, read_extensions};
use crate::slot_map::read_slots;
use crate::tenants::read_tenants;
use mt_catalog::{CatBodies, Catalog};
use mt_catcheck::{SlotMap, has_slots, is_catalogue};
use std::alloc::{AllocError, Global};
use thiserror::Error;

/// Why no catalogue was read.
#[derive(Clone, Copy, Debug, PartialEq, Eq, Error)]
pub enum CatFault {
    /// The slots are those of no catalogue that keeps the rules.
    #[error("damaged catalogue")]
    Damaged,
    #[error("out of memory")]
    Memory,
}

impl From<AllocError> for CatFault {
    ghost use Rattle.std.specs.Prelude.{◌≡◌};
    ghost use Rattle.mt_catread.specs.declared.reading.CatFault.TheVariants as faults;

    ghost from_gives = { λ _ fault. fault ≡ faults.Memory };

    fn from(_: AllocError) -> CatFault {
        CatFault::Memory
    }
}

/// The catalogue whose slots these are, in any order. `Damaged` exactly where they are those of no
/// catalogue that keeps the rules, `Memory` for want of memory.
pub fn read_catalog(alloc: Global, bodies: &CatBodies) -> Result<Catalog, CatFault>
    requires tables { All (λ body. (8 ≤ body.0) × (body.0 ≤ 13)) bodies.now }
    requires widths { All (λ body. length body.1 ≡ body_width body.0) bodies.now }
    requires readable { All (λ body. IsBody body.0 body.1) bodies.now }
    ensures ok { IfOk result (λ catalog. IsCatalogue catalog × SayCatalogue bodies.now catalog) }
    ensures damaged { IsErrOf result CatFault.Damaged → IsDamagedCatalogue bodies.now }
{
    let slots = read_slots(alloc, bodies)?;
    catalog_of(alloc, &slots)
}

/// The catalogue that has these slots and no other, where each stands by its own key.
pub(crate) fn catalog_of(alloc: Global, slots: &SlotMap) -> Result<Catalog, CatFault>
    ensures ok { AreKeyed slots.now.entries → IfOk result (λ catalog. IsOf (slot_in slots.now.entries) catalog) }
    ensures damaged { AreKeyed slots.now.entries → IsErrOf result CatFault.Damaged → IsOfNone (slot_in slots.now.entries) }
{
    let catalog = build_catalog(alloc, slots)?;
    if !has_slots(&catalog, slots) {
        return Err(CatFault::Damaged);
    }
    if !is_catalogue(alloc, &catalog)? {
        return Err(CatFault::Damaged);
    }
    Ok(catalog)
}

/// The catalogue that is made of what the slots say.
fn build_catalog(alloc: Global, slots: &SlotMap) -> Result<Catalog, CatFault>
    ensures ok { IfOk result (λ catalog. IsFound (slot_in slots.now.entries) catalog) }
    ensures damaged { IsErrOf result CatFault.Damaged → IsOfNone (slot_in slots.now.entries) }
{
    let bases = read_bases(alloc, slots)?;
    let extensions = read_extensions(alloc, slots)?;
    let tenants = read_tenants(alloc, slots, &bases, &extensions)?;
    Ok(Catalog {
        bases,
        extensions,
        tenants,
    })
}
