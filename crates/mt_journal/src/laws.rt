ghost use Rattle.std.specs.Prelude.{◌≡◌, ℕ, List, Result};
ghost use Rattle.mt_machine.specs.declared.machine.Failed.{Failed};
ghost use Rattle.mt_machine.specs.Calls.{Emits};
ghost use Rattle.mt_machine.specs.Keeps.{Keeps};
ghost use Rattle.mt_machine.specs.Leaves.{Looks};
ghost use Rattle.mt_machine.specs.Meaning.{Disk};
ghost use Rattle.mt_journal.specs.Layout.{Area, Range};
ghost use Rattle.mt_journal.specs.Chain.{IsChain, IsDamaged};
ghost use Rattle.mt_journal.specs.Commits.{StandsFor, HasChain, MayLeave};
ghost use Rattle.mt_journal.specs.Replay.{Replays};

use mt_machine::Machine;

/// A log has at most one chain, and none where it is damaged; a disk replays to one thing at most.
pub fn chains_are_determined()
    ensures chain { (log : Area) (groups other : List (List Range)) (tail end : ℕ) → IsChain log groups tail → IsChain log other end → (groups ≡ other) × (tail ≡ end) }
    ensures damaged { (log : Area) (groups : List (List Range)) (tail : ℕ) → IsDamaged log → IsChain log groups tail → ⊥ }
    ensures replay { (disk : Disk) (pages other : Area) → Replays disk pages → Replays disk other → pages ≡ other }
{}

/// A journal stands for a machine still after calls that change neither area, and after an emit; and
/// it stands for a machine just where the machine keeps a chain with the journal's tail.
pub fn standing_is_kept<M: Machine>()
    ensures looks { (tail : ℕ) (old new : M) → StandsFor tail (M.meaning old) → Looks (M.meaning old) (M.meaning new) → StandsFor tail (M.meaning new) }
    ensures emit { (tail : ℕ) (old new : M) (answer : Result (Unit {0}) Failed) (bytes : List ℕ) → StandsFor tail (M.meaning old) → Emits answer bytes (M.meaning old) (M.meaning new) → StandsFor tail (M.meaning new) }
    ensures keeps { (tail : ℕ) (machine : M) → StandsFor tail (M.meaning machine) → Keeps (HasChain tail) (MayLeave tail) (M.meaning machine) }
    ensures stands { (tail : ℕ) (machine : M) → Keeps (HasChain tail) (MayLeave tail) (M.meaning machine) → StandsFor tail (M.meaning machine) }
{}
