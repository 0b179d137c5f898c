ghost use Rattle.std.specs.Prelude.{◌≡◌, ◌∷◌, [], OnOk, IsErrOf, All, filter_map, length, map};
ghost use Rattle.mt_physplan.specs.Content.{in_scan};
ghost use Rattle.mt_rowfile.specs.Layouts.{IsLayout, IsOfRows, slot_width};
ghost use Rattle.mt_rowfile.specs.Pages.{slots_of_page};
ghost use Rattle.mt_rowfile.specs.Slots.{IsSlot};
ghost use Rattle.mt_tables.specs.Rows.{KnownLayouts, layout_of, row_in};
ghost use Rattle.mt_tables.specs.Tables.{passing, with_entries};
ghost use Rattle.mt_chunkstore.specs.Asking.{key_at};

use mt_pages::PAGE_SIZE;
use mt_physplan::{PhysFault, Scan, SlotMap};
use mt_rowfile::{Layout, SlotFault, SlotHead, read_head, read_slot, slot_width, slots_per_page};
use std::alloc::Global;

/// The bytes in front of the slots of a page.
const PAGE_HEAD: usize = 8;

/// The mark of a slot that is not in use.
const FREE: u8 = 0;

/// Adds what the slots of a page hold that the scan asks for. Only a slot that it asks for is read
/// whole: `Disk` comes only where one of them cannot be read, `Memory` is want of memory.
pub(crate) fn collect(
    alloc: Global,
    layout: &Layout,
    scan: &Scan,
    page: &[u8; PAGE_SIZE],
    found: &mut SlotMap,
) -> Result<(), PhysFault>
    requires layout { IsLayout layout.now }
    requires rows { IsOfRows layout.now.head }
    ensures ok { OnOk result ((known : KnownLayouts) → layout_of known scan.now.table ≡ Some layout.now
        → found.new ≡ with_entries (passing (in_scan scan.now) (filter_map (row_in known) (map (λ bytes. (scan.now.table, bytes)) (slots_of_page layout.now page.now)))) found.old) }
    ensures disk { IsErrOf result PhysFault.Disk → All (IsSlot layout.now) (slots_of_page layout.now page.now) → ⊥ }
{
    let width = slot_width(layout);
    let mut rest = &page[PAGE_HEAD..];
    let count = slots_per_page(layout);
    for _i in 0..count {
        let (slot, behind) = rest.split_at(width);
        collect_slot(alloc, layout, scan, slot, found)?;
        rest = behind;
    }
    Ok(())
}

/// Adds what a slot holds, where it is in use and the scan asks for it.
fn collect_slot(
    alloc: Global,
    layout: &Layout,
    scan: &Scan,
    slot: &[u8],
    found: &mut SlotMap,
) -> Result<(), PhysFault>
    requires layout { IsLayout layout.now }
    requires rows { IsOfRows layout.now.head }
    requires width { length slot.now ≡ slot_width layout.now }
    ensures ok { OnOk result ((known : KnownLayouts) → layout_of known scan.now.table ≡ Some layout.now
        → found.new ≡ with_entries (passing (in_scan scan.now) (filter_map (row_in known) ((scan.now.table, slot.now) ∷ []))) found.old) }
    ensures disk { IsErrOf result PhysFault.Disk → IsSlot layout.now slot.now → ⊥ }
{
    if slot[0] == FREE || !asks_for(scan, &read_head(layout, slot)) {
        return Ok(());
    }
    match read_slot(alloc, layout, slot) {
        Ok(row) => Ok(found.put(scan.table, row)?),
        Err(SlotFault::Bad) => Err(PhysFault::Disk),
        Err(SlotFault::Memory) => Err(PhysFault::Memory),
    }
}

/// Whether the scan asks for the slot of its table with this head.
fn asks_for(scan: &Scan, head: &SlotHead) -> bool
    ensures { result ≡ in_scan scan.now (key_at scan.now.table head.now) }
{
    head.tenant == scan.tenant
        && head.base == scan.base
        && head.chunk == scan.chunk
        && scan.from <= head.row
        && head.row < scan.upto
}
