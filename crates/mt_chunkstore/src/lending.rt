ghost use Rattle.std.specs.Prelude.{◌≡◌, IfOk, IsTrue, IsErrOf};
ghost use Rattle.mt_machine.specs.Keeps.{MayFail};
ghost use Rattle.mt_machine.specs.Meaning.{Rose};
ghost use Rattle.mt_machine.specs.Leaves.{Looks};
ghost use Rattle.mt_machine.specs.declared.machine.Area.TheVariants as areas;
ghost use Rattle.mt_physplan.specs.Content.{scanned};
ghost use Rattle.mt_physplan.specs.Phys.{scanned_once};
ghost use Rattle.mt_tables.specs.Rows.{ArePages, rows_of};
ghost use Rattle.mt_directory.specs.Known.{known_in};
ghost use Rattle.mt_chunkstore.specs.Standing.{SameStore, Stands};

use crate::{Lent, Store};
use mt_machine::Machine;
use mt_physplan::{Phys, PhysFault, Scan};
use mt_rowfile::SlotRows;
use std::alloc::Global;

/// Two scans, one after the other.
fn scan_both<P: Phys>(
    alloc: Global,
    phys: &mut P,
    first: &Scan,
    second: &Scan,
) -> Result<(SlotRows, SlotRows), PhysFault>
    requires ready { P.ready phys.old }
    ensures ready { P.ready phys.new }
    ensures rows { IfOk result (λ pair. (P.meaning phys.new).tells
        → (pair.0 ≡ scanned (P.meaning phys.old).content first.now) × (pair.1 ≡ scanned (P.meaning phys.old).content second.now)) }
    ensures told { (P.meaning phys.new).tells → (P.meaning phys.old).tells }
    ensures content { (P.meaning phys.new).tells → (P.meaning phys.new).content ≡ (P.meaning phys.old).content }
    ensures counted { IfOk result (λ _. (P.meaning phys.new).scans ≡ scanned_once second.now.table (scanned_once first.now.table (P.meaning phys.old).scans)) }
    ensures disk { IsErrOf result PhysFault.Disk → MayFail (P.meaning phys.new).tells (P.meaning phys.old).faults (P.meaning phys.new).faults }
    ensures kept { P.scanned phys.old phys.new }
{
    let anchors = phys.scan(alloc, first)?;
    let chunks = phys.scan(alloc, second)?;
    Ok((anchors, chunks))
}

/// Lends a store and its machine, and knows both again once they are given back.
pub(crate) fn look_twice<M: Machine>(
    alloc: Global,
    store: &mut Store,
    machine: &mut M,
    first: &Scan,
    second: &Scan,
) -> Result<(SlotRows, SlotRows), PhysFault>
    requires stands { Stands store.old (M.meaning machine.old) }
    ensures stands { Stands store.new (M.meaning machine.new) }
    ensures rows { IfOk result (λ pair. IsTrue (M.meaning machine.new).tells → ArePages (known_in store.old.layouts) ((M.meaning machine.old).content areas.Pages)
        → pair.1 ≡ scanned (rows_of (known_in store.old.layouts) ((M.meaning machine.old).content areas.Pages)) second.now) }
    ensures disk { IsErrOf result PhysFault.Disk → IsTrue (M.meaning machine.new).tells → ArePages (known_in store.old.layouts) ((M.meaning machine.old).content areas.Pages)
        → Rose (M.meaning machine.old).disk_faults (M.meaning machine.new).disk_faults }
    ensures same { SameStore store.old store.new }
    ensures looks { Looks (M.meaning machine.old) (M.meaning machine.new) }
    ensures beneath { M.beneath machine.old machine.new }
{
    let mut lent = Lent { store, machine };
    let pair = scan_both(alloc, &mut lent, first, second)?;
    Ok(pair)
}
