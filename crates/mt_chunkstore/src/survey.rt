ghost use Rattle.std.specs.Prelude.{◌≡◌, ◌⊎◌, ℕ, ◌+◌, ◌-◌, ◌*◌, ◌≤◌, ◌^◌, [], ◌∷◌, ◌++◌, IsTrue, IfOk, OnOk, Some, length, slice_index};
ghost use Rattle.byteorder.specs.Endian.{little_number};
ghost use Rattle.mt_machine.specs.Calls.{HasCause};
ghost use Rattle.mt_machine.specs.Leaves.{Looks};
ghost use Rattle.mt_machine.specs.declared.machine.Area.TheVariants as areas;
ghost use Rattle.mt_rowfile.specs.Layouts.{IsLayout};
ghost use Rattle.mt_tables.specs.Rows.{KnownLayouts, layout_of, sizes_of};
ghost use Rattle.mt_directory.specs.Directory.{directory_of, listed_table};
ghost use Rattle.mt_directory.specs.Known.{known_in};
ghost use Rattle.mt_chunkstore.specs.Found.{FoundCause, Surveyed, used_by, used_on};
ghost use Rattle.mt_staging.specs.Group.{used_in};

use byteorder::{ByteOrder, LittleEndian};
use mt_directory::{Directory, Layouts};
use mt_machine::{Failed, Machine};
use mt_pages::{PAGE_SIZE, Pages};
use mt_physplan::PhysFault;
use mt_rowfile::{Layout, free_slots, slots_per_page};
use std::alloc::{AllocError, Global};

/// The physical tables have numbers below this one.
pub(crate) const TABLES: usize = 32;

/// What the pages hold by table: the table of each page behind page 0, and the slots in use.
#[derive(Debug, Drop)]
pub(crate) struct Survey {
    pub(crate) directory: Directory,
    // by table
    pub(crate) used: [u64; TABLES],
}

impl Survey {
    /// Reads each page behind page 0 once. `Disk` is a read that failed, `Memory` want of memory.
    pub(crate) fn load<M: Machine>(
        m: &mut M,
        alloc: Global,
        pages: &mut Pages,
        layouts: &Layouts,
    ) -> Result<Survey, PhysFault>
        ensures ok { IfOk result (λ survey. Surveyed (known_in layouts.now) pages.old survey.directory.tables survey.used (M.meaning m.new)) }
        ensures same { pages.new ≡ pages.old }
        ensures looks { Looks (M.meaning m.old) (M.meaning m.new) }
        ensures cause { FoundCause result (M.meaning m.old).disk_faults (M.meaning m.new).disk_faults }
        ensures beneath { M.beneath m.old m.new }
    {
        let mut survey = Survey {
            directory: Directory::new(alloc),
            used: [0; TABLES],
        };
        let mut page = [0; PAGE_SIZE];
        for n in 1..pages.count() {
            pages.read(m, n, &mut page)?;
            survey.add(layouts, &page)?;
        }
        Ok(survey)
    }

    /// Adds the next page. `AllocError` is want of memory.
    fn add(&mut self, layouts: &Layouts, page: &[u8; PAGE_SIZE]) -> Result<(), AllocError>
        requires { (table : ℕ) → slice_index self.old.used table ≤ 2 ^ 41 }
        ensures tables { OnOk result (self.new.directory.tables ≡ self.old.directory.tables ++ listed_table (little_number 4 page.now) ∷ []) }
        ensures used { OnOk result ((table : ℕ) → slice_index self.new.used table ≡ slice_index self.old.used table + used_on (known_in layouts.now) table page.now) }
    {
        self.directory.push(table_of(page))?;
        count_page(&mut self.used, layouts, page);
        Ok(())
    }
}

/// The table that a page belongs to.
fn table_of(page: &[u8; PAGE_SIZE]) -> u32
    ensures { result ≡ little_number 4 page.now }
{
    LittleEndian::read_u32(page)
}

/// How many slots of a page are in use, by their marks alone.
fn used_slots(layout: &Layout, page: &[u8; PAGE_SIZE]) -> u64
    requires { IsLayout layout.now }
    ensures used { result ≡ used_by (Some layout.now) page.now }
    ensures few { result ≤ 4088 }
{
    (slots_per_page(layout) - free_slots(layout, page)) as u64
}

/// Counts the slots in use of a page for its table, where its layout is known.
fn count_page(used: &mut [u64; TABLES], layouts: &Layouts, page: &[u8; PAGE_SIZE])
    requires { (table : ℕ) → slice_index used.old table ≤ 2 ^ 41 }
    ensures { (table : ℕ) → slice_index used.new table ≡ slice_index used.old table + used_on (known_in layouts.now) table page.now }
{
    let table = table_of(page);
    if let Some(layout) = layouts.get(table) {
        used[table as usize] += used_slots(layout, page);
    }
}

/// The slots in use of a table by this layout. It reads the pages of the table alone, each once.
pub(crate) fn count_used<M: Machine>(
    m: &mut M,
    pages: &mut Pages,
    directory: &Directory,
    table: u32,
    layout: &Layout,
) -> Result<u64, Failed>
    requires from { 1 ≤ table }
    requires upto { table ≤ 31 }
    requires sized { length directory.now.tables ≡ pages.old - 1 }
    requires listed { IsTrue (M.meaning m.old).tells → directory.now.tables ≡ directory_of pages.old ((M.meaning m.old).content areas.Pages) }
    requires sound { IsLayout layout.now }
    ensures used { IfOk result (λ used. IsTrue (M.meaning m.new).tells → (known : KnownLayouts) → layout_of known table ≡ Some layout.now
        → used ≡ used_in (sizes_of known) table pages.old ((M.meaning m.new).content areas.Pages)) }
    ensures same { pages.new ≡ pages.old }
    ensures looks { Looks (M.meaning m.old) (M.meaning m.new) }
    ensures cause { HasCause (M.meaning m.old).disk_faults (M.meaning m.new).disk_faults result }
    ensures beneath { M.beneath m.old m.new }
{
    let mut used = 0;
    let mut page = [0; PAGE_SIZE];
    let count = pages.count();
    for n in 1..count {
        if directory.table(n) == table {
            pages.read(m, n, &mut page)?;
            used += used_slots(layout, &page);
        }
    }
    Ok(used)
}
