ghost use Rattle.std.specs.Prelude.{◌≡◌, ◌⊎◌, ℕ, List, ◌+◌, ◌-◌, ◌*◌, ◌<◌, ◌≤◌, ◌^◌, [], ◌∷◌, ◌++◌, length, All, IfOk, OnOk, IsTrue, IsErrOf, Some};
ghost use Rattle.mt_machine.specs.Leaves.{Looks};
ghost use Rattle.mt_machine.specs.declared.machine.Area.TheVariants as areas;
ghost use Rattle.mt_journal.specs.Commits.{payload_size};
ghost use Rattle.mt_journal.specs.Layout.{Area};
ghost use Rattle.mt_rowfile.specs.declared.layout.Layout.{Layout};
ghost use Rattle.mt_physplan.specs.declared.change.Change.{Change};
ghost use Rattle.mt_tables.specs.Pages.{bytes_at};
ghost use Rattle.mt_tables.specs.Rows.{layout_of, sizes_of};
ghost use Rattle.mt_directory.specs.Known.{known_in};
ghost use Rattle.mt_places.specs.Held.{state_of};
ghost use Rattle.mt_places.specs.Named as named;
ghost use Rattle.mt_places.specs.Places.{IsLooked};
ghost use Rattle.mt_staging.specs.Group.{IsAsked, IsGroup, IsLost, NeedsPage};
ghost use Rattle.mt_staging.specs.States.{group_of};
ghost use Rattle.mt_chunkstore.specs.Changes.{IsSuited, MayChange, free_at_start};
ghost use Rattle.mt_chunkstore.specs.Staged.{IsStaged, StageCause};
ghost use Rattle.mt_chunkstore.specs.Standing.{Stands};
ghost use Rattle.mt_chunkstore.specs.Walked.{Begins, IsChosen, IsFound, LookCause};

use crate::Store;
use mt_directory::{Directory, Layouts};
use mt_machine::{Failed, Machine};
use mt_pages::{PAGE_SIZE, Pages};
use mt_physplan::{Change, Changes};
use mt_places::Places;
use mt_staging::{Group, StageFault};
use std::alloc::{AllocError, Global};

/// A group that was chosen for changes, and all memory that its commit needs.
#[derive(Debug, Drop)]
pub struct Staged {
    pub(crate) group: Group,
}

impl Store {
    /// Chooses slots for changes and takes all memory that their commit needs. The group's rule: new
    /// keys take the slots that were free before, and no more pages are made than the rest needs.
    /// `Disk` is a read that failed, or a disk that is not what it was; `Memory` is want of memory.
    /// After both the store and its machine stand as before, and so they do after `Ok`.
    pub fn stage<M: Machine>(
        &mut self,
        m: &mut M,
        alloc: Global,
        changes: &Changes,
    ) -> Result<Staged, StageFault>
        requires stands { Stands self.old (M.meaning m.old) }
        requires few { length changes.now ≤ 2 ^ 22 }
        requires suited { All (IsSuited (known_in self.old.layouts)) changes.now }
        ensures staged { IfOk result (λ staged. IsStaged changes.now (group_of staged.group) self.new (M.meaning m.new)) }
        ensures journal { self.new.journal ≡ self.old.journal }
        ensures pages { self.new.pages ≡ self.old.pages }
        ensures layouts { self.new.layouts ≡ self.old.layouts }
        ensures used { self.new.used ≡ self.old.used }
        ensures scans { self.new.scans ≡ self.old.scans }
        ensures tables { self.new.directory.tables ≡ self.old.directory.tables }
        ensures stands { Stands self.new (M.meaning m.new) }
        ensures looks { Looks (M.meaning m.old) (M.meaning m.new) }
        ensures cause { StageCause result (known_in self.old.layouts) changes.now self.old.pages (M.meaning m.old) (M.meaning m.new) }
        ensures beneath { M.beneath m.old m.new }
    {
        let places = look_through(
            m,
            alloc,
            &mut self.pages,
            &self.directory,
            &self.layouts,
            changes,
        )?;
        let group = choose(alloc, &self.layouts, &self.pages, changes, places)?;
        self.directory.reserve(group.added_count())?;
        Ok(Staged { group })
    }
}

/// The table that a change names.
fn table_of(change: &Change) -> u32
    ensures { result ≡ named.table_of change.now }
{
    match change {
        Change::Put { table, .. }
        | Change::Mark { table, .. }
        | Change::Remove { table, .. }
        | Change::PutCat { table, .. }
        | Change::RemoveCat { table, .. } => *table,
    }
}

/// Looks once through the pages of the tables that the changes name, and of no others. `Disk` is a
/// read that failed, `Memory` want of memory.
pub(crate) fn look_through<M: Machine>(
    m: &mut M,
    alloc: Global,
    pages: &mut Pages,
    directory: &Directory,
    layouts: &Layouts,
    changes: &Changes,
) -> Result<Places, StageFault>
    requires few { length changes.now ≤ 2 ^ 22 }
    requires suited { All (IsSuited (known_in layouts.now)) changes.now }
    requires sized { length directory.now.tables ≡ pages.old - 1 }
    ensures found { IfOk result (λ places. IsFound (known_in layouts.now) changes.now pages.old directory.now.tables pages.old (M.meaning m.new) (state_of places)) }
    ensures same { pages.new ≡ pages.old }
    ensures looks { Looks (M.meaning m.old) (M.meaning m.new) }
    ensures cause { LookCause result (M.meaning m.old).disk_faults (M.meaning m.new).disk_faults }
    ensures beneath { M.beneath m.old m.new }
{
    let mut places = Places::new(alloc, changes)?;
    let mut page = [0; PAGE_SIZE];
    let count = pages.count();
    for n in 1..count {
        let table = directory.table(n);
        if places.names(table) {
            look_at(m, pages, layouts, table, n, &mut page, &mut places)?;
        }
    }
    Ok(places)
}

/// Reads a page of a table, and looks through it where the layout of the table is known.
fn look_at<M: Machine>(
    m: &mut M,
    pages: &mut Pages,
    layouts: &Layouts,
    table: u32,
    n: u64,
    page: &mut [u8; PAGE_SIZE],
    places: &mut Places,
) -> Result<(), StageFault>
    requires page { n < pages.old }
    requires few { pages.old ≤ 2 ^ 28 }
    ensures looked { OnOk result (IsTrue (M.meaning m.new).tells → (layout : Layout) → layout_of (known_in layouts.now) table ≡ Some layout
        → IsLooked (known_in layouts.now) table n (bytes_at ((M.meaning m.old).content areas.Pages) (4096 * n) 4096) (state_of places.old) (state_of places.new)) }
    ensures asked { OnOk result ((change : Change) → IsAsked change (state_of places.old) → IsAsked change (state_of places.new)) }
    ensures same { pages.new ≡ pages.old }
    ensures looks { Looks (M.meaning m.old) (M.meaning m.new) }
    ensures cause { LookCause result (M.meaning m.old).disk_faults (M.meaning m.new).disk_faults }
    ensures beneath { M.beneath m.old m.new }
{
    match pages.read(m, n, page) {
        Ok(()) => Ok(look_by(layouts, table, n, page, places)?),
        Err(Failed) => Err(StageFault::Disk),
    }
}

/// Looks through a page of a table, where its layout is known.
fn look_by(
    layouts: &Layouts,
    table: u32,
    n: u64,
    page: &[u8; PAGE_SIZE],
    places: &mut Places,
) -> Result<(), AllocError>
    requires page { n < 2 ^ 28 }
    ensures looked { OnOk result ((layout : Layout) → layout_of (known_in layouts.now) table ≡ Some layout → IsLooked (known_in layouts.now) table n page.now (state_of places.old) (state_of places.new)) }
    ensures asked { OnOk result ((change : Change) → IsAsked change (state_of places.old) → IsAsked change (state_of places.new)) }
{
    match layouts.get(table) {
        Some(layout) => places.look(layout, table, n, page),
        None => Ok(()),
    }
}

/// Chooses the ranges of each change, one after another. `Disk` comes only where the changes may not
/// be made of the pages, `Memory` is want of memory.
pub(crate) fn choose(
    alloc: Global,
    layouts: &Layouts,
    pages: &Pages,
    changes: &Changes,
    places: Places,
) -> Result<Group, StageFault>
    requires few { length changes.now ≤ 2 ^ 22 }
    requires suited { All (IsSuited (known_in layouts.now)) changes.now }
    requires asked { All (λ change. IsAsked change (state_of places)) changes.now }
    ensures ok { IfOk result (λ group. IsChosen (known_in layouts.now) changes.now pages.now (state_of places) (group_of group)) }
    ensures disk { IsErrOf result StageFault.Disk → (area : Area)
        → Begins (known_in layouts.now) pages.now area (free_at_start (known_in layouts.now) changes.now pages.now area) (state_of places)
        → MayChange (known_in layouts.now) changes.now pages.now area → ⊥ }
{
    // what is known of a count of pages, 2^28 at most, is known once it is asked for
    prove!(pages.count() > 0);
    let mut group = Group::new(alloc, places)?;
    for i in 0..changes.len() {
        add(layouts, pages, changes.get(i), &mut group)?;
    }
    Ok(group)
}

/// Adds the ranges of one change more. `Disk` comes only where what it marks or removes does not stand,
/// or where it needs a page and there are as many as there may be.
fn add(
    layouts: &Layouts,
    pages: &Pages,
    change: &Change,
    group: &mut Group,
) -> Result<(), StageFault>
    requires suited { IsSuited (known_in layouts.now) change.now }
    requires asked { IsAsked change.now (group_of group.old).places }
    requires few { length (group_of group.old).ranges ≤ 3 * 2 ^ 22 }
    ensures ok { OnOk result ((area : Area) (start : ℕ → ℕ) (changes : List Change) → IsGroup (known_in layouts.now) pages.now area start changes (group_of group.old)
        → IsGroup (known_in layouts.now) pages.now area start (changes ++ change.now ∷ []) (group_of group.new)) }
    ensures few { OnOk result (length (group_of group.new).ranges ≤ length (group_of group.old).ranges + 3) }
    ensures small { OnOk result (payload_size (group_of group.new).ranges ≤ payload_size (group_of group.old).ranges + 12324) }
    ensures pages { OnOk result (pages.now + length (group_of group.old).added ≤ 2 ^ 28 → pages.now + length (group_of group.new).added ≤ 2 ^ 28) }
    ensures asked { OnOk result ((other : Change) → IsAsked other (group_of group.old).places → IsAsked other (group_of group.new).places) }
    ensures disk { IsErrOf result StageFault.Disk → (area : Area) (start : ℕ → ℕ) (changes : List Change) → IsGroup (known_in layouts.now) pages.now area start changes (group_of group.old)
        → IsLost change.now (group_of group.old).places ⊎ ((2 ^ 28 ≤ pages.now + length (group_of group.old).added) × NeedsPage change.now (group_of group.old).places × (1 ≤ (sizes_of (known_in layouts.now)).count (named.table_of change.now))) }
{
    let Some(layout) = layouts.get(table_of(change)) else {
        unreachable!();
    };
    group.add(layout, pages, change)
}
