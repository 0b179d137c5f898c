ghost use Rattle.std.specs.Prelude.{◌≡◌, ◌≤◌, [], ◌∷◌, ◌++◌, All, length, option_copied, None, IsSome, IfOk, IsErrOf, OnOk};
ghost use Rattle.mt_rowfile.specs.Layouts.{body_width};
ghost use Rattle.mt_rowfile.specs.Slots.{IsBody};
ghost use Rattle.mt_catslot.specs.Slots.{key_of};
ghost use Rattle.mt_catread.specs.Entries.{AreEntriesOf};
ghost use Rattle.mt_catalog.specs.Keyed.{slot_in};
ghost use Rattle.mt_catalog.specs.Reading.{IsDamagedCatalogue};

use crate::CatFault;
use indexmap::IndexMap;
use mt_catalog::CatBodies;
use mt_catcheck::SlotMap;
use mt_catslot::{CatKey, CatSlot, read_body};
use std::alloc::Global;

/// What the bodies say, by the keys. `Damaged` where one says nothing or a key stands twice.
pub(crate) fn read_slots(alloc: Global, bodies: &CatBodies) -> Result<SlotMap, CatFault>
    requires tables { All (λ body. (8 ≤ body.0) × (body.0 ≤ 13)) bodies.now }
    requires widths { All (λ body. length body.1 ≡ body_width body.0) bodies.now }
    requires readable { All (λ body. IsBody body.0 body.1) bodies.now }
    ensures ok { IfOk result (λ slots. AreEntriesOf bodies.now slots.entries) }
    ensures damaged { IsErrOf result CatFault.Damaged → IsDamagedCatalogue bodies.now }
{
    let mut slots = IndexMap::new(alloc);
    for (table, body) in bodies.as_slice() {
        let Some(slot) = read_body(alloc, *table, body.as_slice())? else {
            return Err(CatFault::Damaged);
        };
        add_slot(&mut slots, slot)?;
    }
    Ok(slots)
}

/// Puts one slot more. `Damaged` where there is one with its key.
pub(crate) fn add_slot(slots: &mut SlotMap, slot: CatSlot) -> Result<(), CatFault>
    ensures ok { OnOk result (slots.new.entries ≡ slots.old.entries ++ (key_of slot, slot) ∷ []) }
    ensures apart { OnOk result (slot_in slots.old.entries (key_of slot) ≡ None) }
    ensures damaged { IsErrOf result CatFault.Damaged → IsSome (slot_in slots.old.entries (key_of slot)) }
{
    let key = slot.key();
    if slots.contains_key(&key) {
        return Err(CatFault::Damaged);
    }
    match slots.insert(key, slot) {
        Ok(_) => Ok(()),
        Err(_) => Err(CatFault::Memory),
    }
}

/// The slot with this key.
pub(crate) fn slot_at(slots: &SlotMap, key: CatKey) -> Option<&CatSlot>
    ensures { option_copied result ≡ slot_in slots.now.entries key }
{
    slots.get(&key)
}
