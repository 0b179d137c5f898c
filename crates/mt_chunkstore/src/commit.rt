ghost use Rattle.std.specs.Prelude.{◌≡◌, ◌<◌, ◌≤◌, ◌+◌, ◌^◌, ◌++◌, ℕ, List, IsTrue, OnOk, length, map, slice_index};
ghost use Rattle.mt_machine.specs.Calls.{HasCause};
ghost use Rattle.mt_machine.specs.Leaves.{Leaves};
ghost use Rattle.mt_machine.specs.declared.machine.Area.TheVariants as areas;
ghost use Rattle.mt_journal.specs.Commits.{ReplaysToEither, StandsFor, payload_size};
ghost use Rattle.mt_journal.specs.Replay.{with_ranges};
ghost use Rattle.mt_physplan.specs.declared.change.Change.{Change};
ghost use Rattle.mt_directory.specs.Directory.{listed_table};
ghost use Rattle.mt_staging.specs.States.{group_of};
ghost use Rattle.mt_chunkstore.specs.Staged.{Allowed, IsCommitted, IsStaged, StopsWhole};
ghost use Rattle.mt_chunkstore.specs.Standing.{Stands, used_after};

use crate::survey::TABLES;
use crate::{Staged, Store};
use mt_directory::Directory;
use mt_journal::{Body, Journal};
use mt_machine::{Failed, Machine};
use mt_staging::Group;

impl Store {
    /// Commits what was staged: at Ok the changes are made, and each stop from then on leaves them. A
    /// stop within the call leaves the pages of before or those with all changes. The log is emptied
    /// first where it is long. It takes no memory. After `Failed` the store is not used again.
    pub fn commit<M: Machine>(&mut self, m: &mut M, staged: Staged) -> Result<(), Failed>
        requires stands { Stands self.old (M.meaning m.old) }
        // nothing was committed since that `stage`
        requires staged { (changes : List Change) × IsStaged changes (group_of staged.group) self.old (M.meaning m.old) }
        ensures ok { OnOk result ((changes : List Change) → IsStaged changes (group_of staged.group) self.old (M.meaning m.old) → Allowed changes self.old (M.meaning m.old)
            → IsCommitted changes self.old self.new (M.meaning m.old) (M.meaning m.new)) }
        ensures any_moment { (changes : List Change) → IsStaged changes (group_of staged.group) self.old (M.meaning m.old) → Allowed changes self.old (M.meaning m.old)
            → Leaves (StopsWhole changes self.old (M.meaning m.old)) (M.meaning m.old) (M.meaning m.new) }
        ensures cause { HasCause (M.meaning m.old).disk_faults (M.meaning m.new).disk_faults result }
        ensures beneath { M.beneath m.old m.new }
    {
        commit_body(&mut self.journal, m, staged.group.body())?;
        self.take_over(&staged.group);
        Ok(())
    }

    /// Takes over a group that was committed.
    fn take_over(&mut self, group: &Group)
        requires few { self.old.pages + length (group_of group.now).added ≤ 2 ^ 28 }
        requires room { length (group_of group.now).added ≤ self.old.directory.room }
        ensures pages { self.new.pages ≡ self.old.pages + length (group_of group.now).added }
        ensures tables { self.new.directory.tables ≡ self.old.directory.tables ++ map listed_table (group_of group.now).added }
        ensures used { (table : ℕ) → table < 32 → slice_index self.new.used table ≡ used_after (slice_index self.old.used table) ((group_of group.now).taken table) ((group_of group.now).freed table) }
        ensures journal { self.new.journal ≡ self.old.journal }
        ensures layouts { self.new.layouts ≡ self.old.layouts }
        ensures scans { self.new.scans ≡ self.old.scans }
        ensures some { 1 ≤ self.old.pages }
    {
        prove!(self.pages.count() >= 1);
        self.pages.committed(group.added_count() as u64);
        list_pages(&mut self.directory, group);
        count_slots(&mut self.used, group);
    }
}

/// Commits the ranges, and empties the log before where it is long.
fn commit_body<M: Machine>(journal: &mut Journal, m: &mut M, body: &Body) -> Result<(), Failed>
    requires stands { StandsFor journal.old (M.meaning m.old) }
    requires size { payload_size body.now ≤ 2 ^ 41 }
    ensures stands { OnOk result (StandsFor journal.new (M.meaning m.new)) }
    ensures pages { OnOk result (IsTrue (M.meaning m.new).tells → (M.meaning m.new).content areas.Pages ≡ with_ranges body.now ((M.meaning m.old).content areas.Pages)) }
    ensures any_moment { Leaves (ReplaysToEither ((M.meaning m.old).content areas.Pages) (with_ranges body.now ((M.meaning m.old).content areas.Pages))) (M.meaning m.old) (M.meaning m.new) }
    ensures cause { HasCause (M.meaning m.old).disk_faults (M.meaning m.new).disk_faults result }
    ensures beneath { M.beneath m.old m.new }
{
    if journal.needs_reset() {
        journal.reset(m)?;
    }
    journal.commit(m, body)
}

/// Lists the pages that a group made.
fn list_pages(directory: &mut Directory, group: &Group)
    requires { length (group_of group.now).added ≤ directory.old.room }
    ensures { directory.new.tables ≡ directory.old.tables ++ map listed_table (group_of group.now).added }
{
    for i in 0..group.added_count() {
        directory.push_reserved(group.added_table(i));
    }
}

/// Counts the slots that a group took and freed.
fn count_slots(used: &mut [u64; TABLES], group: &Group)
    ensures { (table : ℕ) → table < 32 → slice_index used.new table ≡ used_after (slice_index used.old table) ((group_of group.now).taken table) ((group_of group.now).freed table) }
{
    for table in 0..TABLES {
        used[table] = used[table]
            .saturating_add(group.taken(table as u32))
            .saturating_sub(group.freed(table as u32));
    }
}
