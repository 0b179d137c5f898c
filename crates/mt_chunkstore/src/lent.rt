ghost use Rattle.std.specs.Prelude.{◌≡◌, List, ℕ, None, Some, IfOk, IfSome, IfNone, IsTrue, IsErrOf, refl};
ghost use Rattle.std.proofs.Common.{◌∙◌};
ghost use Rattle.mt_machine.specs.Meaning.{Rose};
ghost use Rattle.mt_machine.specs.Leaves.{Looks};
ghost use Rattle.mt_machine.specs.declared.machine.Area.TheVariants as areas;
ghost use Rattle.mt_physplan.specs.Content.{scanned};
ghost use Rattle.mt_rowfile.specs.Layouts.{IsLayout, IsOfRows};
ghost use Rattle.mt_tables.specs.Rows.{ArePages, layout_of, row_in, rows_of};
ghost use Rattle.mt_directory.specs.Known.{known_in};
ghost use Rattle.mt_chunkstore.specs.Lent.{LentScanned, lent_meaning};
ghost use Rattle.mt_chunkstore.specs.LentLaws.{lent_both, lent_itself};
ghost use Rattle.mt_chunkstore.specs.Standing.{SameStore, Stands};

use crate::Store;
use crate::table_scan::scan_rows;
use mt_directory::Layouts;
use mt_list::List;
use mt_machine::Machine;
use mt_physplan::{Phys, PhysFault, Scan};
use mt_rowfile::{Head, Layout, SlotRows};
use std::alloc::Global;

/// A store and its machine, lent for scans: physical tables, whose faults are those of the disk.
#[derive(Drop)]
pub struct Lent<'a, M> {
    pub store: &'a mut Store,
    pub machine: &'a mut M,
}

impl<M: Machine> Phys for Lent<'_, M> {
    ghost meaning = { λ lent. lent_meaning lent.store.now (M.meaning lent.machine.now) };

    ghost scanned = { λ old new. (new.store.ghost_name ≡ old.store.ghost_name) × (new.machine.ghost_name ≡ old.machine.ghost_name)
        × LentScanned old.store.now new.store.now (M.meaning old.machine.now) (M.meaning new.machine.now) × M.beneath old.machine.now new.machine.now };

    ghost ready = { λ lent. Stands lent.store.now (M.meaning lent.machine.now) };

    fn scan(&mut self, alloc: Global, scan: &Scan) -> Result<SlotRows, PhysFault> {
        self.store.scans.add(scan.table);
        look(self.machine, alloc, self.store, scan)
    }

    ghost scanned_itself = { λ lent. (refl, refl, lent_itself lent.store.now (M.meaning lent.machine.now) (M.moments_told lent.machine.now) (λ tells image out since. M.only_now lent.machine.now image out tells since), M.beneath_itself lent.machine.now) };

    ghost scanned_both = { λ first second third one two. (two.0 ∙ one.0, two.1 ∙ one.1, lent_both one.2 two.2, M.beneath_both first.machine.now second.machine.now third.machine.now one.3 two.3) };
}

/// The slots that a scan asks for, from the pages; the scan was counted before.
fn look<M: Machine>(
    m: &mut M,
    alloc: Global,
    store: &mut Store,
    scan: &Scan,
) -> Result<SlotRows, PhysFault>
    requires stands { Stands store.old (M.meaning m.old) }
    ensures rows { IfOk result (λ rows. IsTrue (M.meaning m.new).tells → ArePages (known_in store.old.layouts) ((M.meaning m.old).content areas.Pages)
        → rows ≡ scanned (rows_of (known_in store.old.layouts) ((M.meaning m.old).content areas.Pages)) scan.now) }
    ensures disk { IsErrOf result PhysFault.Disk → IsTrue (M.meaning m.new).tells → ArePages (known_in store.old.layouts) ((M.meaning m.old).content areas.Pages)
        → Rose (M.meaning m.old).disk_faults (M.meaning m.new).disk_faults }
    ensures same { SameStore store.old store.new }
    ensures scans { store.new.scans ≡ store.old.scans }
    ensures looks { Looks (M.meaning m.old) (M.meaning m.new) }
    ensures beneath { M.beneath m.old m.new }
{
    let Some(layout) = layout_of_rows(&store.layouts, scan.table) else {
        return Ok(List::new(alloc));
    };
    let found = scan_rows(m, alloc, &mut store.pages, &store.directory, layout, scan)?;
    Ok(found.into_slots(alloc)?)
}

/// The layout of a table, where it is known and slots of the table hold rows.
fn layout_of_rows(layouts: &Layouts, table: u32) -> Option<&Layout>
    ensures layout { IfSome result (λ layout. layout_of (known_in layouts.now) table ≡ Some layout.now) }
    ensures sound { IfSome result (λ layout. IsLayout layout.now) }
    ensures rows { IfSome result (λ layout. IsOfRows layout.now.head) }
    ensures none { IfNone result ((bytes : List ℕ) → row_in (known_in layouts.now) (table, bytes) ≡ None) }
{
    let layout = layouts.get(table)?;
    match layout.head {
        Head::Catalogue(_) => None,
        Head::Conventional | Head::Chunk => Some(layout),
    }
}
