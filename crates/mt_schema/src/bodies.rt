//! The bodies of the slots that a catalogue has with some keys.
ghost use Rattle.std.specs.Prelude.{[], ◌∷◌, ◌++◌, List as Members, filter_map, IfOk, OnOk};
ghost use Rattle.mt_catslot.specs.declared.slot.CatSlot.{CatSlot};
ghost use Rattle.mt_catalog.specs.Rules.{IsCatalogue};
ghost use Rattle.mt_catalog.specs.Slots as spec;
ghost use Rattle.mt_schema.specs.Turns.{AreWritten};

use crate::slots::slot_of;
use mt_catalog::{CatBodies, Catalog};
use mt_catslot::{CatKey, write_body};
use mt_list::List;
use std::alloc::{AllocError, Global};

/// The bodies of the slots that a catalogue has with these keys, in their order, each with its table in
/// front; nothing for a key with which it has none. `AllocError` is want of memory.
pub fn written(alloc: Global, catalog: &Catalog, keys: &[CatKey]) -> Result<CatBodies, AllocError>
    requires { IsCatalogue catalog.now }
    ensures { IfOk result (λ bodies. AreWritten bodies (filter_map (spec.slot_of catalog.now) keys.now)) }
{
    let mut bodies = List::new(alloc);
    for key in keys {
        add_written(alloc, catalog, *key, &mut bodies)?;
    }
    Ok(bodies)
}

/// Adds the body of the slot that a catalogue has with a key, if it has one.
fn add_written(
    alloc: Global,
    catalog: &Catalog,
    key: CatKey,
    bodies: &mut CatBodies,
) -> Result<(), AllocError>
    requires { IsCatalogue catalog.now }
    ensures { (slots : Members CatSlot) → AreWritten bodies.old slots → OnOk result (AreWritten bodies.new (slots ++ filter_map (spec.slot_of catalog.now) (key ∷ []))) }
{
    match slot_of(catalog, key)? {
        None => Ok(()),
        Some(slot) => {
            let body = write_body(alloc, &slot)?;
            bodies.push((slot.table(), body))?;
            Ok(())
        }
    }
}
