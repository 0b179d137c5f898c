ghost use Rattle.std.specs.Prelude.{◌≡◌, OnOk, OnErr, refl, slice_index};
ghost use Rattle.std.proofs.Common.{◌∙◌};
ghost use Rattle.std.specs.FinMap as finite;
ghost use Rattle.mt_physplan.specs.Keys.{IsRowKey, cell_of, key_in};
ghost use Rattle.mt_physplan.specs.Listed.{listed_meaning};
ghost use Rattle.mt_physplan.specs.Phys.{no_scans};

use crate::counts::ScanCounts;
use crate::{Phys, PhysFault, Scan, SlotMap};
use mt_rowfile::{SlotRow, SlotRows};
use std::alloc::{AllocError, Global};

/// Physical tables in memory: they tell what they hold, and no scan of them meets a fault.
#[derive(Debug, Drop)]
pub struct ListPhys {
    pub slots: SlotMap,
    pub counts: ScanCounts,
}

impl ListPhys {
    /// Tables without slots, and no scans. It takes no memory, and growth takes it from `alloc`.
    pub fn new(alloc: Global) -> ListPhys
        ensures slots { result.slots ≡ finite.empty }
        ensures scans { slice_index result.counts.each ≡ no_scans }
    {
        ListPhys {
            slots: SlotMap::new(alloc),
            counts: ScanCounts::new(),
        }
    }

    /// Puts a slot into a table, in the place of one with its key. `AllocError` is want of memory,
    /// and changes nothing.
    pub fn put(&mut self, table: u32, slot: SlotRow) -> Result<(), AllocError>
        requires { IsRowKey (key_in table slot) }
        ensures ok { OnOk result (self.new.slots ≡ finite.insert self.old.slots (key_in table slot) (cell_of slot)) }
        ensures err { OnErr result (self.new.slots ≡ self.old.slots) }
        ensures counts { self.new.counts ≡ self.old.counts }
    {
        self.slots.put(table, slot)
    }
}

impl Phys for ListPhys {
    ghost meaning = { λ phys. listed_meaning phys.slots phys.counts };

    ghost scanned = { λ old new. new.slots ≡ old.slots };

    ghost ready = { λ phys. Unit {0} };

    fn scan(&mut self, alloc: Global, scan: &Scan) -> Result<SlotRows, PhysFault> {
        self.counts.add(scan.table);
        Ok(self.slots.scan(alloc, scan)?)
    }

    ghost scanned_itself = { λ phys. refl };

    ghost scanned_both = { λ first second third one two. two ∙ one };
}
