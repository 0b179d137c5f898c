ghost use Rattle.std.specs.Prelude.{◌≡◌, ◌<◌, ◌≤◌, ◌^◌, ◌∷◌, [], ℕ, List, length, IfOk, IsTrue, OnErr, OnOk};
ghost use Rattle.std.specs.FinMap as finite;
ghost use Rattle.mt_rowfile.specs.Layouts.{IsLayout};
ghost use Rattle.mt_tables.specs.Plan.{without_first};
ghost use Rattle.mt_tables.specs.Rows.{KnownLayouts, layout_of};
ghost use Rattle.mt_places.specs.Held.{state_of};
ghost use Rattle.mt_places.specs.Places.{IsBegun, IsLooked, with_free_page};

use crate::body_places::BodyPlaces;
use crate::row_places::RowPlaces;
use crate::table_list::TableList;
use crate::walk::{look_for_all_bodies, look_for_all_rows};
use mt_physplan::{Changes, Key};
use mt_rowfile::{CatBody, Layout};
use std::alloc::{AllocError, Global};
use std::marker::Model;

/// Where the slots stand that changes name, and where free slots do. Contracts see what is kept, and
/// speak of the state that it stands for.
#[derive(Debug, Drop)]
pub struct Places {
    rows: RowPlaces,
    bodies: BodyPlaces,
    tables: TableList,
}

impl Model for Places {
    ghost use Rattle.mt_places.specs.Held.{Held, held_code};

    ghost Value = { Held };

    ghost coded = { held_code };

    ghost view = { λ it. record { rows = it.rows; bodies = it.bodies; tables = it.tables } };
}

impl Places {
    /// Asks for what the changes name. Nothing is found yet. `AllocError` is want of memory.
    pub fn new(alloc: Global, changes: &Changes) -> Result<Places, AllocError>
        requires { length changes.now ≤ 2 ^ 22 }
        ensures { IfOk result (λ places. IsBegun changes.now (state_of places)) }
    {
        let changes = changes.as_slice();
        Ok(Places {
            rows: RowPlaces::asked(alloc, changes)?,
            bodies: BodyPlaces::asked(alloc, changes)?,
            tables: TableList::asked(alloc, changes)?,
        })
    }

    /// Whether a change names the table.
    pub fn names(&self, table: u32) -> bool
        ensures { result ≡ (state_of self.now).named table }
    {
        self.tables.names(table)
    }

    /// Looks through the slots of a page of a table for what is asked for and for free positions.
    /// `AllocError` is want of memory.
    pub fn look(
        &mut self,
        layout: &Layout,
        table: u32,
        page: u64,
        bytes: &[u8; 4096],
    ) -> Result<(), AllocError>
        requires layout { IsLayout layout.now }
        requires page { page < 2 ^ 28 }
        ensures { OnOk result ((known : KnownLayouts) → layout_of known table ≡ Some layout.now → IsLooked known table page bytes.now (state_of self.old) (state_of self.new)) }
    {
        self.tables.look(layout, table, page, bytes)?;
        look_for_all_rows(&mut self.rows, layout, table, page, bytes);
        look_for_all_bodies(&mut self.bodies, layout, table, page, bytes);
        Ok(())
    }

    /// Where the row with a key that is asked for stands, if anywhere.
    pub fn row(&self, key: &Key) -> Option<u64>
        requires { IsTrue (finite.contains_key (state_of self.now).rows key.now) }
        ensures { finite.get (state_of self.now).rows key.now ≡ Some result }
    {
        self.rows.find(key).flatten()
    }

    /// Says where a row that is asked for stands from now on. It takes no memory.
    pub fn set_row(&mut self, key: &Key, position: Option<u64>)
        requires { IsTrue (finite.contains_key (state_of self.old).rows key.now) }
        ensures rows { (state_of self.new).rows ≡ finite.insert (state_of self.old).rows key.now position }
        ensures bodies { (state_of self.new).bodies ≡ (state_of self.old).bodies }
        ensures named { (state_of self.new).named ≡ (state_of self.old).named }
        ensures free { (state_of self.new).free ≡ (state_of self.old).free }
        ensures wanted { (state_of self.new).wanted ≡ (state_of self.old).wanted }
    {
        self.rows.place(key, position);
    }

    /// Where a slot of the catalogue that is asked for stands, if anywhere.
    pub fn body(&self, table: u32, body: &CatBody) -> Option<u64>
        requires { IsTrue (finite.contains_key (state_of self.now).bodies (table, body.now)) }
        ensures { finite.get (state_of self.now).bodies (table, body.now) ≡ Some result }
    {
        self.bodies.find(table, body.as_slice()).flatten()
    }

    /// Says where a slot of the catalogue that is asked for stands from now on. It takes no memory.
    pub fn set_body(&mut self, table: u32, body: &CatBody, position: Option<u64>)
        requires { IsTrue (finite.contains_key (state_of self.old).bodies (table, body.now)) }
        ensures bodies { (state_of self.new).bodies ≡ finite.insert (state_of self.old).bodies (table, body.now) position }
        ensures rows { (state_of self.new).rows ≡ (state_of self.old).rows }
        ensures named { (state_of self.new).named ≡ (state_of self.old).named }
        ensures free { (state_of self.new).free ≡ (state_of self.old).free }
        ensures wanted { (state_of self.new).wanted ≡ (state_of self.old).wanted }
    {
        self.bodies.place(table, body.as_slice(), position);
    }

    /// Takes the first free position of a table; none where there is none. It takes no memory.
    pub fn take_free(&mut self, table: u32) -> Option<u64>
        ensures taken { (position : ℕ) → result ≡ Some position → (rest : List ℕ) × ((state_of self.old).free table ≡ position ∷ rest) }
        ensures none { result ≡ None → (state_of self.old).free table ≡ [] }
        ensures free { (state_of self.new).free ≡ without_first table (state_of self.old).free }
        ensures named { (state_of self.new).named ≡ (state_of self.old).named }
        ensures rows { (state_of self.new).rows ≡ (state_of self.old).rows }
        ensures bodies { (state_of self.new).bodies ≡ (state_of self.old).bodies }
        ensures wanted { (state_of self.new).wanted ≡ (state_of self.old).wanted }
    {
        self.tables.take(table)
    }

    /// Adds the slots of a page of a table, all of them free. `AllocError` is want of memory, and
    /// leaves the places as they were.
    pub fn offer_page(&mut self, layout: &Layout, table: u32, page: u64) -> Result<(), AllocError>
        requires layout { IsLayout layout.now }
        requires page { page < 2 ^ 28 }
        requires table { table ≤ 31 }
        ensures ok { OnOk result ((state_of self.new).free ≡ with_free_page layout.now table page (state_of self.old).free) }
        ensures err { OnErr result (state_of self.new ≡ state_of self.old) }
        ensures named { (state_of self.new).named ≡ (state_of self.old).named }
        ensures rows { (state_of self.new).rows ≡ (state_of self.old).rows }
        ensures bodies { (state_of self.new).bodies ≡ (state_of self.old).bodies }
        ensures wanted { (state_of self.new).wanted ≡ (state_of self.old).wanted }
    {
        self.tables.offer_page(layout, table, page)
    }
}
