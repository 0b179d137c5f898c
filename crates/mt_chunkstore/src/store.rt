ghost use Rattle.std.specs.Prelude.{◌≡◌, ◌<◌, ◌≤◌, ◌*◌, IfOk, OnOk, OnErr, IsTrue, IsErrOf};
ghost use Rattle.mt_machine.specs.Calls.{HasCause};
ghost use Rattle.mt_machine.specs.Leaves.{Leaves, Looks};
ghost use Rattle.mt_machine.specs.declared.machine.Area.TheVariants as areas;
ghost use Rattle.mt_journal.specs.Commits.{KeepsReplay, OldOrReplays};
ghost use Rattle.mt_rowfile.specs.declared.layout.Head.TheVariants.{Conventional};
ghost use Rattle.mt_rowfile.specs.Layouts.{IsLayout};
ghost use Rattle.mt_tables.specs.Pages.{bytes_at};
ghost use Rattle.mt_directory.specs.Known.{known_in, with_layout};
ghost use Rattle.mt_chunkstore.specs.Opened.{IsOpened, OpenFails, StoreCause};
ghost use Rattle.mt_chunkstore.specs.Standing.{SameStore, Stands, has_size, size_in, sizes_in};

use crate::survey::{Survey, TABLES, count_used};
use crate::{Sizes, TableSize};
use mt_directory::{Directory, Layouts};
use mt_journal::{Journal, RecoverFault};
use mt_list::List;
use mt_machine::{Failed, Machine};
use mt_pages::{PAGE_SIZE, Pages, PagesFault};
use mt_physplan::{PhysFault, ScanCounts};
use mt_rowfile::Layout;
use std::alloc::{AllocError, Global};
use thiserror::Error;

/// Why a disk was not opened as a store.
#[derive(Clone, Copy, Debug, PartialEq, Eq, Error)]
pub enum StoreFault {
    #[error("disk fault")]
    Disk,
    /// The log has an open group that does not decode.
    #[error("damaged log")]
    Log,
    /// Page 0 is neither blank nor one that counts the pages.
    #[error("damaged page 0")]
    Control,
    #[error("out of memory")]
    Memory,
}

impl From<RecoverFault> for StoreFault {
    ghost use Rattle.std.specs.Prelude.{◌≡◌};
    ghost use Rattle.mt_chunkstore.specs.Opened.{log_fault};

    ghost from_gives = { λ fault answer. answer ≡ log_fault fault };

    fn from(fault: RecoverFault) -> StoreFault {
        match fault {
            RecoverFault::Disk => StoreFault::Disk,
            RecoverFault::Damaged => StoreFault::Log,
        }
    }
}

impl From<PagesFault> for StoreFault {
    ghost use Rattle.std.specs.Prelude.{◌≡◌};
    ghost use Rattle.mt_chunkstore.specs.Opened.{control_fault};

    ghost from_gives = { λ fault answer. answer ≡ control_fault fault };

    fn from(fault: PagesFault) -> StoreFault {
        match fault {
            PagesFault::Disk => StoreFault::Disk,
            PagesFault::Damaged => StoreFault::Control,
        }
    }
}

impl From<PhysFault> for StoreFault {
    ghost use Rattle.std.specs.Prelude.{◌≡◌};
    ghost use Rattle.mt_chunkstore.specs.Opened.{page_fault};

    ghost from_gives = { λ fault answer. answer ≡ page_fault fault };

    fn from(fault: PhysFault) -> StoreFault {
        match fault {
            PhysFault::Disk => StoreFault::Disk,
            PhysFault::Memory => StoreFault::Memory,
        }
    }
}

impl From<Failed> for StoreFault {
    ghost use Rattle.std.specs.Prelude.{◌≡◌};
    ghost use Rattle.mt_chunkstore.specs.declared.store.StoreFault.TheVariants as faults;

    ghost from_gives = { λ _ fault. fault ≡ faults.Disk };

    fn from(_: Failed) -> StoreFault {
        StoreFault::Disk
    }
}

impl From<AllocError> for StoreFault {
    ghost use Rattle.std.specs.Prelude.{◌≡◌};
    ghost use Rattle.mt_chunkstore.specs.declared.store.StoreFault.TheVariants as faults;

    ghost from_gives = { λ _ fault. fault ≡ faults.Memory };

    fn from(_: AllocError) -> StoreFault {
        StoreFault::Memory
    }
}

/// The physical tables on a disk.
#[derive(Debug, Drop)]
pub struct Store {
    pub(crate) journal: Journal,
    pub(crate) pages: Pages,
    pub(crate) layouts: Layouts,
    pub(crate) directory: Directory,
    // slots in use, by table
    pub(crate) used: [u64; TABLES],
    pub(crate) scans: ScanCounts,
}

impl Store {
    /// Opens the disk: replays its log, reads page 0, and looks at every page once for its table and
    /// its slots in use. No conventional table is known. `Log` comes exactly where the log does not
    /// decode, and nothing was written then; `Control` exactly where page 0 is damaged; `Disk` is a
    /// call of the machine that failed, `Memory` want of memory. After each the disk replays to what
    /// it did.
    pub fn load<M: Machine>(m: &mut M, alloc: Global) -> Result<Store, StoreFault>
        ensures ok { IfOk result (λ store. IsOpened store (M.meaning m.old) (M.meaning m.new)) }
        ensures fails { OpenFails result (M.meaning m.old) (M.meaning m.new) }
        ensures untouched { IsErrOf result StoreFault.Log → Looks (M.meaning m.old) (M.meaning m.new) }
        ensures content { IsTrue (M.meaning m.new).tells → KeepsReplay (M.meaning m.old).content (M.meaning m.new).content }
        ensures any_moment { Leaves (OldOrReplays (M.meaning m.old)) (M.meaning m.old) (M.meaning m.new) }
        ensures cause { StoreCause result (M.meaning m.old).disk_faults (M.meaning m.new).disk_faults }
        ensures beneath { M.beneath m.old m.new }
    {
        let journal = Journal::recover(m)?;
        let mut pages = Pages::load(m)?;
        let layouts = Layouts::new(alloc)?;
        let Survey { directory, used } = Survey::load(m, alloc, &mut pages, &layouts)?;
        Ok(Store {
            journal,
            pages,
            layouts,
            directory,
            used,
            scans: ScanCounts::new(),
        })
    }

    /// The number of pages, page 0 among them.
    pub fn pages(&self) -> u64
        ensures { result ≡ self.now.pages }
    {
        self.pages.count()
    }

    /// Reads page `n`, counted from 0. After `Failed` the buffer may hold anything.
    pub fn read_page<M: Machine>(
        &mut self,
        m: &mut M,
        n: u64,
        into: &mut [u8; PAGE_SIZE],
    ) -> Result<(), Failed>
        requires stands { Stands self.old (M.meaning m.old) }
        requires page { n < self.old.pages }
        ensures bytes { OnOk result (IsTrue (M.meaning m.new).tells → into.new ≡ bytes_at ((M.meaning m.old).content areas.Pages) (4096 * n) 4096) }
        ensures same { SameStore self.old self.new }
        ensures scans { self.new.scans ≡ self.old.scans }
        ensures stands { Stands self.new (M.meaning m.new) }
        ensures looks { Looks (M.meaning m.old) (M.meaning m.new) }
        ensures cause { HasCause (M.meaning m.old).disk_faults (M.meaning m.new).disk_faults result }
        ensures beneath { M.beneath m.old m.new }
    {
        self.pages.read(m, n, into)
    }

    /// The physical tables that have a page and a layout that is known, ascending: the table, its
    /// pages and its slots in use. `AllocError` is want of memory.
    pub fn sizes(&self, alloc: Global) -> Result<Sizes, AllocError>
        ensures { IfOk result (λ sizes. sizes ≡ sizes_in self.now) }
    {
        let mut sizes = List::new(alloc);
        for table in 1..TABLES as u32 {
            if self.has_size(table) {
                sizes.push(self.size(table))?;
            }
        }
        Ok(sizes)
    }

    /// Whether a table has a page, and a layout that is known.
    fn has_size(&self, table: u32) -> bool
        requires { 1 ≤ table }
        ensures { result ≡ has_size self.now table }
    {
        self.layouts.get(table).is_some() && self.directory.pages(table) >= 1
    }

    /// A table, its pages and its slots in use.
    fn size(&self, table: u32) -> TableSize
        requires from { 1 ≤ table }
        requires upto { table ≤ 31 }
        ensures { result ≡ size_in self.now table }
    {
        TableSize {
            table,
            pages: self.directory.pages(table),
            used: self.used[table as usize],
        }
    }

    /// Makes the layout of a conventional table known, in the place of one that was, and counts the
    /// table's slots in use by it. `Disk` is a read that failed, and leaves the store as it was; it
    /// takes no memory.
    pub fn add_layout<M: Machine>(
        &mut self,
        m: &mut M,
        table: u32,
        layout: Layout,
    ) -> Result<(), PhysFault>
        requires stands { Stands self.old (M.meaning m.old) }
        requires from { 16 ≤ table }
        requires upto { table ≤ 31 }
        requires head { layout.head ≡ Conventional }
        requires sound { IsLayout layout }
        ensures stands { Stands self.new (M.meaning m.new) }
        ensures layouts { OnOk result (known_in self.new.layouts ≡ with_layout table layout (known_in self.old.layouts)) }
        ensures journal { self.new.journal ≡ self.old.journal }
        ensures pages { self.new.pages ≡ self.old.pages }
        ensures directory { self.new.directory ≡ self.old.directory }
        ensures scans { self.new.scans ≡ self.old.scans }
        ensures err { OnErr result (self.new ≡ self.old) }
        ensures looks { Looks (M.meaning m.old) (M.meaning m.new) }
        ensures cause { HasCause (M.meaning m.old).disk_faults (M.meaning m.new).disk_faults result }
        ensures beneath { M.beneath m.old m.new }
    {
        let used = count_used(m, &mut self.pages, &self.directory, table, &layout)?;
        self.layouts.set(table, layout);
        self.used[table as usize] = used;
        Ok(())
    }
}
