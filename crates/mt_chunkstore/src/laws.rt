ghost use Rattle.std.specs.Prelude.{ℕ, List, Result};
ghost use Rattle.mt_machine.specs.declared.machine.Failed.{Failed};
ghost use Rattle.mt_machine.specs.Calls.{Emits};
ghost use Rattle.mt_machine.specs.Leaves.{Looks};
ghost use Rattle.mt_physplan.specs.declared.change.Change.{Change};
ghost use Rattle.mt_staging.specs.Group.{GroupState};
ghost use Rattle.mt_chunkstore.specs.declared.store.Store.{Store};
ghost use Rattle.mt_chunkstore.specs.Staged.{IsStaged};
ghost use Rattle.mt_chunkstore.specs.Standing.{Stands};
ghost use Rattle.mt_chunkstore.specs.StandsLaws.{KeepsStanding};

use mt_machine::Machine;

/// A store stands for a machine still after calls that tell nothing more, leave its pages and keep
/// what its journal asks for. Calls that only look do so, and so does an emit. It does nothing.
pub fn standing_is_kept<M: Machine>()
    ensures kept { (store : Store) (old new : M) → Stands store (M.meaning old) → KeepsStanding (M.meaning old) (M.meaning new) → Stands store (M.meaning new) }
    ensures looks { (old new : M) → Looks (M.meaning old) (M.meaning new) → KeepsStanding (M.meaning old) (M.meaning new) }
    ensures emit { (old new : M) (answer : Result (Unit {0}) Failed) (bytes : List ℕ) → Emits answer bytes (M.meaning old) (M.meaning new) → KeepsStanding (M.meaning old) (M.meaning new) }
{}

/// A group that was staged for a store is staged for it still after such calls. It does nothing.
pub fn staging_is_kept<M: Machine>()
    ensures { (changes : List Change) (group : GroupState) (store : Store) (old new : M) → IsStaged changes group store (M.meaning old) → KeepsStanding (M.meaning old) (M.meaning new)
        → IsStaged changes group store (M.meaning new) }
{}
