ghost use Rattle.std.specs.Prelude.{◌≡◌, ℕ, List, ◌⊎◌, ◌*◌, ◌+◌, ◌-◌, ◌^◌, ◌<◌, ◌≤◌, [], ◌∷◌, ◌++◌, length, Option, Some, None, IfOk, OnOk, OnErr, IsErrOf, IsTrue, slice_index, slice_get};
ghost use Rattle.std.specs.FinMap as finite;
ghost use Rattle.std.proofs.Props.{props};
ghost use Rattle.mt_journal.specs.Commits.{payload_size};
ghost use Rattle.mt_journal.specs.Layout.{Area};
ghost use Rattle.mt_rowfile.specs.Layouts.{IsLayout, IsOfRows, body_width, slots_per_page};
ghost use Rattle.mt_rowfile.specs.declared.layout.Head.TheVariants.{Catalogue};
ghost use Rattle.mt_rowfile.specs.Fields.{AreKinds};
ghost use Rattle.mt_rowfile.specs.Slots.{FitsLayout, HasNumbers, slot_bytes};
ghost use Rattle.mt_physplan.specs.Keys.{key_in};
ghost use Rattle.mt_physplan.specs.declared.change.Change.{Change};
ghost use Rattle.mt_places.specs.Named.{table_of};
ghost use Rattle.mt_places.specs.Held.{state_of};
ghost use Rattle.mt_tables.specs.Rows.{AreKnown, KnownLayouts, layout_of};
ghost use Rattle.mt_staging.specs.Few.{AreFew};

use crate::StageFault;
use crate::parts::{TABLES, count_one, key_of, make_key, see_kinds, write, write_body};
use mt_journal::Body;
use mt_list::List;
use mt_pages::{PAGE_SIZE, Pages};
use mt_physplan::{Change, Key};
use mt_places::Places;
use mt_rowfile::{CatBody, Layout, SlotRow, slot_width, write_slot};
use std::alloc::{AllocError, Global};

/// The most pages that there are.
const PAGES_MAX: u64 = 1 << 28;

/// How many bytes a slot of the catalogue has at most.
const CATALOGUE_SLOT: usize = 45;

/// The mark of a slot that is not in use.
const FREE: u8 = 0;

/// A group of ranges while it is chosen for changes, one after another.
#[derive(Debug, Drop)]
pub struct Group {
    places: Places,
    body: Body,
    // the table of each page that the group makes
    added: List<u32>,
    // how many slots of each table it takes and frees
    taken: [u64; TABLES],
    freed: [u64; TABLES],
    ghost few_taken: { AreFew body taken } by { Prim.hlevel props },
    ghost few_freed: { AreFew body freed } by { Prim.hlevel props },
}

impl Group {
    ghost use Rattle.mt_staging.specs.Group.{IsAsked, IsGroup, IsLost, NeedsPage, Suits};
    ghost use Rattle.mt_staging.specs.States.{IsEmptyGroup, group_of};
    ghost use Rattle.mt_staging.specs.Steps.{FindsFree, MakesPage, PutFaults, TakesAway, WriteFaults, WritesFree, WritesOver, PutsSlot, with_body, with_row};

    /// A group of no ranges. `AllocError` is want of memory.
    pub fn new(alloc: Global, places: Places) -> Result<Group, AllocError>
        ensures { IfOk result (λ group. IsEmptyGroup (state_of places) (group_of group)) }
    {
        Ok(Group {
            places,
            body: Body::new(alloc)?,
            added: List::new(alloc),
            taken: [0; TABLES],
            freed: [0; TABLES],
        })
    }

    /// The ranges so far.
    pub fn body(&self) -> &Body
        ensures { result.now ≡ (group_of self.now).ranges }
    {
        &self.body
    }

    /// How many pages the group makes.
    pub fn added_count(&self) -> usize
        ensures { result ≡ length (group_of self.now).added }
    {
        self.added.len()
    }

    /// The table of the page that it makes, counted from 0.
    pub fn added_table(&self, i: usize) -> u32
        requires { i < length (group_of self.now).added }
        ensures { slice_get (group_of self.now).added i ≡ Some result }
    {
        *self.added.get(i)
    }

    /// How many free slots of a table it takes; none of a table above 31.
    pub fn taken(&self, table: u32) -> u64
        ensures { result ≡ (group_of self.now).taken table }
    {
        self.taken.get(table as usize).copied().unwrap_or(0)
    }

    /// How many slots of a table it frees; none of a table above 31.
    pub fn freed(&self, table: u32) -> u64
        ensures { result ≡ (group_of self.now).freed table }
    {
        self.freed.get(table as usize).copied().unwrap_or(0)
    }

    /// Adds the ranges of a change of a table with this layout. `Disk` comes only where the change marks or removes what
    /// does not stand, or a page is wanted and there are 2^28; `Memory` is want of memory. After a fault the group is not
    /// used again.
    pub fn add(&mut self, layout: &Layout, pages: &Pages, change: &Change) -> Result<(), StageFault>
        requires layout { IsLayout layout.now }
        requires suits { Suits layout.now change.now }
        requires table { table_of change.now ≤ 31 }
        requires asked { IsAsked change.now (group_of self.old).places }
        requires few { length (group_of self.old).ranges ≤ 3 * 2 ^ 22 }
        ensures ok { OnOk result ((known : KnownLayouts) (area : Area) (start : ℕ → ℕ) (changes : List Change) → AreKnown known → layout_of known (table_of change.now) ≡ Some layout.now
            → IsGroup known pages.now area start changes (group_of self.old) → IsGroup known pages.now area start (changes ++ change.now ∷ []) (group_of self.new)) }
        ensures few { OnOk result (length (group_of self.new).ranges ≤ length (group_of self.old).ranges + 3) }
        ensures small { OnOk result (payload_size (group_of self.new).ranges ≤ payload_size (group_of self.old).ranges + 12324) }
        ensures pages { OnOk result (pages.now + length (group_of self.old).added ≤ 2 ^ 28 → pages.now + length (group_of self.new).added ≤ 2 ^ 28) }
        ensures asked { OnOk result ((other : Change) → IsAsked other (group_of self.old).places → IsAsked other (group_of self.new).places) }
        ensures disk { IsErrOf result StageFault.Disk → (known : KnownLayouts) (area : Area) (start : ℕ → ℕ) (changes : List Change) → AreKnown known → layout_of known (table_of change.now) ≡ Some layout.now
            → IsGroup known pages.now area start changes (group_of self.old)
            → IsLost change.now (group_of self.old).places ⊎ ((2 ^ 28 ≤ pages.now + length (group_of self.old).added) × NeedsPage change.now (group_of self.old).places) }
    {
        match change {
            Change::Put { table, slot } => self.put(layout, pages, *table, slot),
            Change::Mark {
                table,
                tenant,
                row,
                mark,
            } => self.mark(&make_key(*table, *tenant, 0, 0, *row), *mark),
            Change::Remove {
                table,
                tenant,
                base,
                chunk,
                row,
            } => self.remove(&make_key(*table, *tenant, *base, *chunk, *row)),
            Change::PutCat { table, body } => self.put_body(layout, pages, *table, body),
            Change::RemoveCat { table, body } => self.remove_body(*table, body),
        }
    }

    /// Makes a page of a table, of which no slot is free.
    fn make_page(&mut self, layout: &Layout, pages: &Pages, table: u32) -> Result<(), StageFault>
        requires layout { IsLayout layout.now }
        requires table { table ≤ 31 }
        requires few { length (group_of self.old).ranges ≤ 3 * 2 ^ 22 }
        requires none_left { (group_of self.old).places.free table ≡ [] }
        ensures ok { OnOk result (MakesPage layout.now table pages.now (group_of self.old) (group_of self.new)) }
        ensures disk { IsErrOf result StageFault.Disk → 2 ^ 28 ≤ pages.now + length (group_of self.old).added }
        ensures ranges { OnOk result (length (group_of self.new).ranges ≡ length (group_of self.old).ranges + 2) }
    {
        let extra = self.added.len() as u64;
        if extra >= PAGES_MAX - pages.count() {
            return Err(StageFault::Disk);
        }
        pages.plan_new_page(table, extra + 1, &mut self.body)?;
        self.places
            .offer_page(layout, table, pages.count() + extra)?;
        self.added.push(table)?;
        Ok(())
    }

    /// A free position of a table, which is taken; a page is made where there is none.
    fn free_place(&mut self, layout: &Layout, pages: &Pages, table: u32) -> Result<u64, StageFault>
        requires layout { IsLayout layout.now }
        requires room { 1 ≤ slots_per_page layout.now }
        requires table { table ≤ 31 }
        requires few { length (group_of self.old).ranges ≤ 3 * 2 ^ 22 }
        ensures ok { IfOk result (λ position. FindsFree layout.now table pages.now position (group_of self.old) (group_of self.new)) }
        ensures disk { IsErrOf result StageFault.Disk → ((group_of self.old).places.free table ≡ []) × (2 ^ 28 ≤ pages.now + length (group_of self.old).added) }
        ensures ranges { OnOk result (length (group_of self.new).ranges ≤ length (group_of self.old).ranges + 2) }
    {
        if let Some(position) = self.places.take_free(table) {
            return Ok(position);
        }
        self.make_page(layout, pages, table)?;
        match self.places.take_free(table) {
            Some(position) => Ok(position),
            None => unreachable!(),
        }
    }

    /// Puts a slot of a row that stands nowhere.
    fn put_new(
        &mut self,
        layout: &Layout,
        pages: &Pages,
        key: &Key,
        bytes: &[u8],
    ) -> Result<(), StageFault>
        requires layout { IsLayout layout.now }
        requires room { 1 ≤ slots_per_page layout.now }
        requires table { key.now.table ≤ 31 }
        requires few { length (group_of self.old).ranges ≤ 3 * 2 ^ 22 }
        requires short { length bytes.now ≤ 4096 }
        requires nowhere { finite.get (group_of self.old).places.rows key.now ≡ Some None }
        ensures ok { OnOk result (WritesFree layout.now key.now.table pages.now (finite.get (group_of self.old).places.rows key.now) bytes.now (with_row key.now) (group_of self.old) (group_of self.new)) }
        ensures disk { IsErrOf result StageFault.Disk → PutFaults layout.now key.now.table pages.now (finite.get (group_of self.old).places.rows key.now) bytes.now (group_of self.old) }
        ensures ranges { OnOk result (length (group_of self.new).ranges ≤ length (group_of self.old).ranges + 3) }
    {
        let position = self.free_place(layout, pages, key.table)?;
        write(&mut self.body, position, bytes)?;
        self.places.set_row(key, Some(position));
        count_one(&mut self.taken, key.table);
        Ok(())
    }

    /// Marks a row. `Disk` comes where it stands nowhere, or not in the pages.
    fn mark(&mut self, key: &Key, mark: u8) -> Result<(), StageFault>
        requires asked { IsTrue (finite.contains_key (group_of self.old).places.rows key.now) }
        requires few { length (group_of self.old).ranges ≤ 3 * 2 ^ 22 }
        ensures ok { OnOk result (WritesOver (finite.get (group_of self.old).places.rows key.now) (mark ∷ []) (group_of self.old) (group_of self.new)) }
        ensures disk { IsErrOf result StageFault.Disk → WriteFaults (finite.get (group_of self.old).places.rows key.now) (mark ∷ []) }
    {
        match self.places.row(key) {
            Some(position) => write(&mut self.body, position, &[mark]),
            None => Err(StageFault::Disk),
        }
    }

    /// Removes a row. Its slot is not taken by this group.
    fn remove(&mut self, key: &Key) -> Result<(), StageFault>
        requires asked { IsTrue (finite.contains_key (group_of self.old).places.rows key.now) }
        requires table { key.now.table ≤ 31 }
        requires few { length (group_of self.old).ranges ≤ 3 * 2 ^ 22 }
        ensures ok { OnOk result (TakesAway key.now.table (finite.get (group_of self.old).places.rows key.now) (with_row key.now) (group_of self.old) (group_of self.new)) }
        ensures disk { IsErrOf result StageFault.Disk → WriteFaults (finite.get (group_of self.old).places.rows key.now) (0 ∷ []) }
    {
        match self.places.row(key) {
            Some(position) => {
                write(&mut self.body, position, &[FREE])?;
                self.places.set_row(key, None);
                count_one(&mut self.freed, key.table);
                Ok(())
            }
            None => Err(StageFault::Disk),
        }
    }

    /// Puts a slot of a row, over the one that stands or where one is free.
    fn put(
        &mut self,
        layout: &Layout,
        pages: &Pages,
        table: u32,
        slot: &SlotRow,
    ) -> Result<(), StageFault>
        requires layout { IsLayout layout.now }
        requires rows { IsOfRows layout.now.head }
        requires fits { FitsLayout layout.now slot.now }
        requires room { 1 ≤ slots_per_page layout.now }
        requires table { table ≤ 31 }
        requires few { length (group_of self.old).ranges ≤ 3 * 2 ^ 22 }
        requires asked { IsTrue (finite.contains_key (group_of self.old).places.rows (key_in table slot.now)) }
        ensures ok { OnOk result (PutsSlot layout.now table pages.now (finite.get (group_of self.old).places.rows (key_in table slot.now)) (slot_bytes layout.now slot.now) (with_row (key_in table slot.now)) (group_of self.old) (group_of self.new)) }
        ensures disk { IsErrOf result StageFault.Disk → PutFaults layout.now table pages.now (finite.get (group_of self.old).places.rows (key_in table slot.now)) (slot_bytes layout.now slot.now) (group_of self.old) }
        ensures ranges { OnOk result (length (group_of self.new).ranges ≤ length (group_of self.old).ranges + 3) }
        ensures numbers { HasNumbers slot.now }
        ensures kinds { AreKinds layout.now.kinds }
    {
        see_kinds(layout.kinds.as_slice());
        let key = key_of(table, slot);
        let mut buffer = [0; PAGE_SIZE];
        let (bytes, _) = buffer.split_at_mut(slot_width(layout));
        write_slot(layout, slot, bytes);
        match self.places.row(&key) {
            Some(position) => write(&mut self.body, position, bytes),
            None => self.put_new(layout, pages, &key, bytes),
        }
    }

    /// Puts a slot of the catalogue that stands nowhere.
    fn put_new_body(
        &mut self,
        layout: &Layout,
        pages: &Pages,
        table: u32,
        body: &CatBody,
        bytes: &[u8],
    ) -> Result<(), StageFault>
        requires layout { IsLayout layout.now }
        requires room { 1 ≤ slots_per_page layout.now }
        requires table { table ≤ 31 }
        requires few { length (group_of self.old).ranges ≤ 3 * 2 ^ 22 }
        requires short { length bytes.now ≤ 4096 }
        requires nowhere { finite.get (group_of self.old).places.bodies (table, body.now) ≡ Some None }
        ensures ok { OnOk result (WritesFree layout.now table pages.now (finite.get (group_of self.old).places.bodies (table, body.now)) bytes.now (with_body (table, body.now)) (group_of self.old) (group_of self.new)) }
        ensures disk { IsErrOf result StageFault.Disk → PutFaults layout.now table pages.now (finite.get (group_of self.old).places.bodies (table, body.now)) bytes.now (group_of self.old) }
        ensures ranges { OnOk result (length (group_of self.new).ranges ≤ length (group_of self.old).ranges + 3) }
    {
        let position = self.free_place(layout, pages, table)?;
        write(&mut self.body, position, bytes)?;
        self.places.set_body(table, body, Some(position));
        count_one(&mut self.taken, table);
        Ok(())
    }

    /// Puts a slot of the catalogue, over the one that stands or where one is free.
    fn put_body(
        &mut self,
        layout: &Layout,
        pages: &Pages,
        table: u32,
        body: &CatBody,
    ) -> Result<(), StageFault>
        requires layout { IsLayout layout.now }
        requires head { layout.now.head ≡ Catalogue table }
        requires size { length body.now ≡ body_width table }
        requires table { table ≤ 31 }
        requires few { length (group_of self.old).ranges ≤ 3 * 2 ^ 22 }
        requires asked { IsTrue (finite.contains_key (group_of self.old).places.bodies (table, body.now)) }
        ensures ok { OnOk result (PutsSlot layout.now table pages.now (finite.get (group_of self.old).places.bodies (table, body.now)) (1 ∷ body.now) (with_body (table, body.now)) (group_of self.old) (group_of self.new)) }
        ensures disk { IsErrOf result StageFault.Disk → PutFaults layout.now table pages.now (finite.get (group_of self.old).places.bodies (table, body.now)) (1 ∷ body.now) (group_of self.old) }
        ensures ranges { OnOk result (length (group_of self.new).ranges ≤ length (group_of self.old).ranges + 3) }
    {
        let mut buffer = [0; CATALOGUE_SLOT];
        let (bytes, _) = buffer.split_at_mut(body.len() + 1);
        write_body(body, bytes);
        match self.places.body(table, body) {
            Some(position) => write(&mut self.body, position, bytes),
            None => self.put_new_body(layout, pages, table, body, bytes),
        }
    }

    /// Removes a slot of the catalogue. Its slot is not taken by this group.
    fn remove_body(&mut self, table: u32, body: &CatBody) -> Result<(), StageFault>
        requires asked { IsTrue (finite.contains_key (group_of self.old).places.bodies (table, body.now)) }
        requires table { table ≤ 31 }
        requires few { length (group_of self.old).ranges ≤ 3 * 2 ^ 22 }
        ensures ok { OnOk result (TakesAway table (finite.get (group_of self.old).places.bodies (table, body.now)) (with_body (table, body.now)) (group_of self.old) (group_of self.new)) }
        ensures disk { IsErrOf result StageFault.Disk → WriteFaults (finite.get (group_of self.old).places.bodies (table, body.now)) (0 ∷ []) }
    {
        match self.places.body(table, body) {
            Some(position) => {
                write(&mut self.body, position, &[FREE])?;
                self.places.set_body(table, body, None);
                count_one(&mut self.freed, table);
                Ok(())
            }
            None => Err(StageFault::Disk),
        }
    }
}
