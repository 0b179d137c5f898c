ghost use Rattle.std.specs.Prelude.{◌≡◌, ◌-◌, ◌*◌, ◌<◌, ◌≤◌, IfOk, OnOk, IsTrue, IsErrOf, All, Some, filter_map, length, nat_eq, slice_index};
ghost use Rattle.std.specs.FinMap as finite;
ghost use Rattle.mt_machine.specs.Meaning.{Rose};
ghost use Rattle.mt_machine.specs.Leaves.{Looks};
ghost use Rattle.mt_machine.specs.declared.machine.Area.TheVariants as areas;
ghost use Rattle.mt_physplan.specs.Content.{in_scan};
ghost use Rattle.mt_rowfile.specs.Layouts.{IsLayout, IsOfRows};
ghost use Rattle.mt_rowfile.specs.Pages.{slots_of_page};
ghost use Rattle.mt_rowfile.specs.Slots.{IsSlot};
ghost use Rattle.mt_tables.specs.Pages.{bytes_at, page_count, table_at};
ghost use Rattle.mt_tables.specs.Rows.{ArePages, KnownLayouts, layout_of, row_in, sizes_of};
ghost use Rattle.mt_tables.specs.Tables.{passing, slots_below, with_entries};
ghost use Rattle.mt_directory.specs.Directory.{directory_of};
ghost use Rattle.mt_chunkstore.specs.Asking.{slots_on, with_asked};

use crate::page_scan::collect;
use mt_directory::Directory;
use mt_machine::Machine;
use mt_pages::{PAGE_SIZE, Pages};
use mt_physplan::{PhysFault, Scan, SlotMap};
use mt_rowfile::Layout;
use std::alloc::Global;

/// What the pages of a table hold that the scan asks for: each page of the table is read once, through
/// one buffer, and no page of another.
pub(crate) fn scan_rows<M: Machine>(
    m: &mut M,
    alloc: Global,
    pages: &mut Pages,
    directory: &Directory,
    layout: &Layout,
    scan: &Scan,
) -> Result<SlotMap, PhysFault>
    requires layout { IsLayout layout.now }
    requires rows { IsOfRows layout.now.head }
    requires table { scan.now.table ≤ 31 }
    requires sized { length directory.now.tables ≡ pages.old - 1 }
    ensures found { IfOk result (λ found. IsTrue (M.meaning m.new).tells → directory.now.tables ≡ directory_of pages.old ((M.meaning m.old).content areas.Pages)
        → (known : KnownLayouts) → layout_of known scan.now.table ≡ Some layout.now
        → found ≡ with_entries (passing (in_scan scan.now) (filter_map (row_in known) (slots_below (sizes_of known) pages.old ((M.meaning m.old).content areas.Pages)))) finite.empty) }
    ensures disk { IsErrOf result PhysFault.Disk → IsTrue (M.meaning m.new).tells → directory.now.tables ≡ directory_of pages.old ((M.meaning m.old).content areas.Pages)
        → (known : KnownLayouts) → layout_of known scan.now.table ≡ Some layout.now → page_count ((M.meaning m.old).content areas.Pages) ≡ pages.old
        → ArePages known ((M.meaning m.old).content areas.Pages) → Rose (M.meaning m.old).disk_faults (M.meaning m.new).disk_faults }
    ensures same { pages.new ≡ pages.old }
    ensures looks { Looks (M.meaning m.old) (M.meaning m.new) }
    ensures beneath { M.beneath m.old m.new }
{
    let mut found = SlotMap::new(alloc);
    let mut page = [0; PAGE_SIZE];
    let count = pages.count();
    for n in 1..count {
        if is_of_table(directory, n, scan.table) {
            scan_page(m, alloc, pages, layout, scan, n, &mut page, &mut found)?;
        }
    }
    Ok(found)
}

/// Whether a page belongs to a table.
fn is_of_table(directory: &Directory, n: u64, table: u32) -> bool
    requires from { 1 ≤ n }
    requires upto { n ≤ length directory.now.tables }
    ensures { result ≡ nat_eq (slice_index directory.now.tables (n - 1)) table }
{
    directory.table(n) == table
}

/// Reads a page of the table, and adds what it holds that the scan asks for.
fn scan_page<M: Machine>(
    m: &mut M,
    alloc: Global,
    pages: &mut Pages,
    layout: &Layout,
    scan: &Scan,
    n: u64,
    page: &mut [u8; PAGE_SIZE],
    found: &mut SlotMap,
) -> Result<(), PhysFault>
    requires layout { IsLayout layout.now }
    requires rows { IsOfRows layout.now.head }
    requires page { n < pages.old }
    ensures ok { OnOk result (IsTrue (M.meaning m.new).tells → table_at ((M.meaning m.old).content areas.Pages) n ≡ scan.now.table
        → (known : KnownLayouts) → layout_of known scan.now.table ≡ Some layout.now → found.new ≡ with_asked scan.now known (slots_on known ((M.meaning m.old).content areas.Pages) n) found.old) }
    ensures disk { IsErrOf result PhysFault.Disk → IsTrue (M.meaning m.new).tells → All (IsSlot layout.now) (slots_of_page layout.now (bytes_at ((M.meaning m.old).content areas.Pages) (4096 * n) 4096))
        → Rose (M.meaning m.old).disk_faults (M.meaning m.new).disk_faults }
    ensures same { pages.new ≡ pages.old }
    ensures looks { Looks (M.meaning m.old) (M.meaning m.new) }
    ensures beneath { M.beneath m.old m.new }
{
    pages.read(m, n, page)?;
    collect(alloc, layout, scan, page, found)
}
