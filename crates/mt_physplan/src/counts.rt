ghost use Rattle.std.specs.Prelude.{◌≡◌, slice_index};
ghost use Rattle.mt_physplan.specs.Phys.{no_scans, scanned_once};

/// The physical tables have numbers below this one.
const TABLES: usize = 32;

/// How often each physical table was scanned, by its number. A count stands still at the last value
/// of its type.
#[derive(Clone, Copy, Debug)]
pub struct ScanCounts {
    pub each: [u64; 32],
}

impl ScanCounts {
    /// No scan of any table.
    pub fn new() -> ScanCounts
        ensures { slice_index result.each ≡ no_scans }
    {
        ScanCounts { each: [0; TABLES] }
    }

    /// Counts one scan of a table. A table with a number above 31 has no count.
    #[tactic(auto, using(crate::proofs::Counted::counted_once))]
    pub fn add(&mut self, table: u32)
        ensures { slice_index self.new.each ≡ scanned_once table (slice_index self.old.each) }
    {
        let place = table as usize;
        if place < TABLES {
            self.each[place] = self.each[place].saturating_add(1);
        }
    }
}
