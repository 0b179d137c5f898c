ghost use Rattle.std.specs.Prelude.{◌≡◌, OnOk};

use crate::table::{TABLE, TENANTS};
use mt_physplan::{Phys, PhysFault, Scan};
use mt_rowfile::SlotRow;
use mt_value::Value;
use std::alloc::Global;

/// What scans gave: how many slots, and the sum of their first values.
#[derive(Clone, Copy, Debug)]
pub(crate) struct Found {
    pub(crate) slots: u64,
    pub(crate) sum: i64,
}

impl Found {
    /// Adds the slots of one scan.
    fn add(&mut self, slots: &[SlotRow]) {
        self.slots = self.slots.saturating_add(slots.len() as u64);
        for slot in slots {
            if let [Value::Int(number), ..] = slot.values.as_slice() {
                self.sum = self.sum.wrapping_add(*number);
            }
        }
    }
}

/// All slots of the table, scanned tenant by tenant.
pub(crate) fn scan_all<P: Phys>(alloc: Global, phys: &mut P) -> Result<Found, PhysFault>
    requires { P.ready phys.old }
    ensures { P.ready phys.new }
{
    let mut found = Found { slots: 0, sum: 0 };
    for tenant in 1..=TENANTS {
        let scan = Scan {
            table: TABLE,
            tenant,
            base: 0,
            chunk: 0,
            from: 0,
            upto: u64::MAX,
        };
        found.add(phys.scan(alloc, &scan)?.as_slice());
    }
    Ok(found)
}
