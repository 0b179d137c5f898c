ghost use Rattle.std.specs.Prelude.{◌≡◌, ◌+◌, ◌-◌, ◌≤◌, [], ◌∷◌, ◌++◌, length, slice_index, nat_eq, count_by, OnOk, OnErr};
ghost use Rattle.mt_directory.specs.Directory.{listed_table};

use std::alloc::{AllocError, Global};
use std::marker::Model;

/// The highest number of a physical table.
const LAST_TABLE: u32 = 31;

/// The table of each page behind page 0, in page order, one byte each.
#[derive(Debug, Drop)]
pub struct Directory {
    tables: Vec<u8>,
}

impl Model for Directory {
    ghost use Rattle.std.specs.Prelude.{◌-◌, vec_capacity, vec_len};
    ghost use Rattle.mt_directory.specs.Directory.{DirectoryState};

    ghost Value = { DirectoryState };

    ghost view = { λ it. record { tables = it.tables.items; room = vec_capacity it.tables - vec_len it.tables } };
}

impl Directory {
    /// The directory of a disk with no page behind page 0. It takes no memory.
    pub fn new(alloc: Global) -> Directory
        ensures { result.tables ≡ [] }
    {
        Directory {
            tables: Vec::new(alloc),
        }
    }

    /// The number of pages in it.
    pub fn len(&self) -> usize
        ensures { result ≡ length self.now.tables }
    {
        self.tables.len()
    }

    /// Adds the next page, by the number of its table. `AllocError` is want of memory, and leaves the
    /// directory as it was.
    pub fn push(&mut self, table: u32) -> Result<(), AllocError>
        ensures ok { OnOk result (self.new.tables ≡ self.old.tables ++ listed_table table ∷ []) }
        ensures err { OnErr result (self.new ≡ self.old) }
    {
        self.tables.reserve(1)?;
        self.tables.push_reserved(listed(table));
        Ok(())
    }

    /// Makes room for so many pages more. `AllocError` is want of memory; the pages are as they were
    /// after both.
    pub fn reserve(&mut self, pages: usize) -> Result<(), AllocError>
        ensures room { OnOk result (pages ≤ self.new.room) }
        ensures same { self.new.tables ≡ self.old.tables }
        ensures more { self.old.room ≤ self.new.room }
    {
        self.tables.reserve(pages)
    }

    /// Adds the next page in the room that was made. It takes no memory.
    pub fn push_reserved(&mut self, table: u32)
        requires { 1 ≤ self.old.room }
        ensures tables { self.new.tables ≡ self.old.tables ++ listed_table table ∷ [] }
        ensures room { self.old.room ≡ self.new.room + 1 }
    {
        self.tables.push_reserved(listed(table));
    }

    /// The table of page `page`, counted from 1; 0 where its number is that of no table.
    pub fn table(&self, page: u64) -> u32
        requires from { 1 ≤ page }
        requires upto { page ≤ length self.now.tables }
        ensures { result ≡ slice_index self.now.tables (page - 1) }
    {
        u32::from(self.tables[(page - 1) as usize])
    }

    /// How many pages a table has.
    pub fn pages(&self, table: u32) -> u64
        requires { 1 ≤ table }
        ensures { result ≡ count_by (λ t. nat_eq t table) self.now.tables }
    {
        self.tables
            .iter()
            .filter(|listed| u32::from(**listed) == table)
            .count() as u64
    }
}

// A page keeps one byte, and 0 for a number that no table has.
fn listed(table: u32) -> u8
    ensures { result ≡ listed_table table }
{
    if table <= LAST_TABLE { table as u8 } else { 0 }
}
