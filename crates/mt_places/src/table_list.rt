ghost use Rattle.std.specs.Prelude.{◌≡◌, ◌<◌, ◌≤◌, ◌^◌, ◌&&◌, ℕ, [], length, count_by, slice_get, IfOk, OnErr, OnOk};
ghost use Rattle.std.specs.List.{list_any};
ghost use Rattle.mt_rowfile.specs.Layouts.{IsLayout};
ghost use Rattle.mt_places.specs.Held.{extended, noted, offered, shortened, table_in, trimmed, unnamed, with_table};
ghost use Rattle.mt_places.specs.Named.{is_of, is_put, table_of};
ghost use Rattle.mt_places.specs.Walked.{free_by, positions_by};

use crate::named::{is_put, table_of};
use crate::table_places::TablePlaces;
use crate::walk::{offer_free, page_positions};
use mt_physplan::Change;
use mt_rowfile::Layout;
use std::alloc::{AllocError, Global};
use std::marker::Model;

/// The physical tables have numbers below this one.
const TABLES: usize = 32;

/// What is known of each table, by its number; of tables behind these nothing is.
#[derive(Debug, Drop)]
pub(crate) struct TableList {
    alloc: Global,
    tables: Vec<TablePlaces>,
}

impl Model for TableList {
    ghost use Rattle.std.specs.Prelude.{List, ◌≤◌, length};
    ghost use Rattle.std.specs.Coded.{coded_list};
    ghost use Rattle.mt_places.specs.Held.{TableState, table_code};

    ghost Value = { List TableState };

    ghost coded = { coded_list table_code };

    ghost view = { λ it. it.tables.items };

    ghost invariant = { λ it. 32 ≤ length it.tables.items };
}

impl TableList {
    /// The tables that changes name. `AllocError` is want of memory.
    pub fn asked(alloc: Global, changes: &[Change]) -> Result<TableList, AllocError>
        requires { length changes.now ≤ 2 ^ 22 }
        ensures named { IfOk result (λ tables. (t : ℕ) → (table_in tables t).named ≡ list_any (is_of t) changes.now) }
        ensures wanted { IfOk result (λ tables. (t : ℕ) → (table_in tables t).wanted ≡ count_by (λ change. is_put change && is_of t change) changes.now) }
        ensures free { IfOk result (λ tables. (t : ℕ) → (table_in tables t).free ≡ []) }
    {
        let mut tables = TableList::new(alloc)?;
        for change in changes {
            tables.note(change)?;
        }
        Ok(tables)
    }

    /// Tables that no change names. `AllocError` is want of memory.
    fn new(alloc: Global) -> Result<TableList, AllocError>
        ensures { IfOk result (λ tables. (t : ℕ) → table_in tables t ≡ unnamed) }
    {
        let mut tables = Vec::new(alloc);
        reach(alloc, &mut tables, TABLES - 1)?;
        Ok(TableList { alloc, tables })
    }

    /// Takes note of a change. `AllocError` is want of memory.
    fn note(&mut self, change: &Change) -> Result<(), AllocError>
        requires { (table_in self.old (table_of change.now)).wanted < 2 ^ 32 }
        ensures { OnOk result ((t : ℕ) → table_in self.new t ≡ with_table (table_of change.now) (noted (is_put change.now)) (table_in self.old) t) }
    {
        let table = table_of(change) as usize;
        reach(self.alloc, &mut self.tables, table)?;
        self.tables[table].note(is_put(change));
        Ok(())
    }

    /// Whether a change names the table.
    pub fn names(&self, table: u32) -> bool
        ensures { result ≡ (table_in self.now table).named }
    {
        let table = table as usize;
        if table >= self.tables.len() {
            return false;
        }
        self.tables[table].is_named()
    }

    /// Looks for free slots in a page of a table. `AllocError` is want of memory.
    pub fn look(
        &mut self,
        layout: &Layout,
        table: u32,
        page: u64,
        bytes: &[u8; 4096],
    ) -> Result<(), AllocError>
        requires layout { IsLayout layout.now }
        requires page { page < 2 ^ 28 }
        ensures { OnOk result (table ≤ 31 → (t : ℕ) → table_in self.new t ≡ with_table table (offered (free_by layout.now table page bytes.now)) (λ t. trimmed (table_in self.old t)) t) }
    {
        trim_all(&mut self.tables);
        let table = table as usize;
        if table >= TABLES {
            return Ok(());
        }
        offer_free(&mut self.tables[table], layout, page, bytes)
    }

    /// Takes the first free position of a table; none where there is none. It takes no memory.
    pub fn take(&mut self, table: u32) -> Option<u64>
        ensures first { result ≡ slice_get (table_in self.old table).free 0 }
        ensures rest { (t : ℕ) → table_in self.new t ≡ with_table table shortened (table_in self.old) t }
    {
        let table = table as usize;
        if table >= self.tables.len() {
            return None;
        }
        self.tables[table].take()
    }

    /// Adds the slots of a page of a table, all of them free. `AllocError` is want of memory, and
    /// leaves the tables as they were.
    pub fn offer_page(&mut self, layout: &Layout, table: u32, page: u64) -> Result<(), AllocError>
        requires layout { IsLayout layout.now }
        requires page { page < 2 ^ 28 }
        requires table { table ≤ 31 }
        ensures ok { OnOk result ((t : ℕ) → table_in self.new t ≡ with_table table (extended (positions_by layout.now page)) (table_in self.old) t) }
        ensures err { OnErr result (self.new ≡ self.old) }
    {
        let positions = page_positions(self.alloc, layout, page)?;
        self.tables[table as usize].extend(&positions)
    }
}

/// Adds tables that no change names, until there is one with this number. `AllocError` is want of
/// memory.
fn reach(alloc: Global, tables: &mut Vec<TablePlaces>, table: usize) -> Result<(), AllocError>
    ensures reached { OnOk result (table < length tables.new.items) }
    ensures longer { length tables.old.items ≤ length tables.new.items }
    ensures same { (t : ℕ) → table_in tables.new.items t ≡ table_in tables.old.items t }
{
    while tables.len() <= table {
        tables.push(TablePlaces::new(alloc))?;
    }
    Ok(())
}

/// Keeps no more free positions of each table than are looked for.
fn trim_all(tables: &mut [TablePlaces])
    ensures { (t : ℕ) → table_in tables.new t ≡ trimmed (table_in tables.old t) }
{
    for table in tables.iter_mut() {
        table.trim();
    }
}
