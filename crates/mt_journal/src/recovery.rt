ghost use Rattle.std.specs.Prelude.{◌≡◌, ◌⊎◌, ℕ, ◌+◌, ◌<◌, ◌≤◌, ◌^◌, List, [], ◌∷◌, IsTrue, IsErr, IsErrOf, IfOk, OnOk, length};
ghost use Rattle.mt_machine.specs.Calls.{HasCause};
ghost use Rattle.mt_machine.specs.Leaves.{Looks};
ghost use Rattle.mt_machine.specs.declared.machine.Area.TheVariants.{Log, Pages};
ghost use Rattle.mt_journal.specs.Layout.{Range};
ghost use Rattle.mt_journal.specs.Replay.{all_ranges};
ghost use Rattle.mt_journal.specs.Commits.{DiskCause};
ghost use Rattle.mt_journal.specs.Steps.{IsQuiet, Changes, IsCopied, Places, ArePlaced};
ghost use Rattle.mt_journal.specs.Walk.{FindsChain, ToldChain, ToldGroup, ToldRanges, ToldRange};

use crate::RecoverFault;
use crate::group::{next_group, range_within};
use mt_machine::{Area, Failed, Machine};

/// How many bytes are copied at a time.
const PIECE: usize = 4096;

// Walks the whole chain of open groups, and answers where it ends. Nothing is written.
pub(crate) fn chain_end<M: Machine>(m: &mut M) -> Result<u64, RecoverFault>
    ensures found { FindsChain result (M.meaning m.old) (M.meaning m.new) }
    ensures bounds { IfOk result (λ end. end < 2 ^ 42) }
    ensures looks { Looks (M.meaning m.old) (M.meaning m.new) }
    ensures cause { DiskCause result (M.meaning m.old).disk_faults (M.meaning m.new).disk_faults }
    ensures beneath { M.beneath m.old m.new }
{
    let mut at = 0;
    while let Some(group) = next_group(m, at)? {
        at = group.at + group.length;
    }
    Ok(at)
}

// Writes the ranges of the whole chain in their places. `Damaged` comes only where the log reads
// otherwise than before, which a machine that tells its content rules out.
pub(crate) fn replay<M: Machine>(m: &mut M, end: u64) -> Result<(), RecoverFault>
    requires { end < 2 ^ 42 }
    ensures quiet { IsQuiet (M.meaning m.old) (M.meaning m.new) }
    ensures places { (groups : List (List Range)) → ToldChain (M.meaning m.old) groups end → Places (all_ranges groups) (M.meaning m.old) (M.meaning m.new) }
    ensures placed { OnOk result ((groups : List (List Range)) → ToldChain (M.meaning m.old) groups end → ArePlaced (all_ranges groups) (M.meaning m.old) (M.meaning m.new)) }
    ensures damaged { IsErrOf result RecoverFault.Damaged → (groups : List (List Range)) → ToldChain (M.meaning m.old) groups end → IsTrue (M.meaning m.new).tells → ⊥ }
    ensures cause { DiskCause result (M.meaning m.old).disk_faults (M.meaning m.new).disk_faults }
    ensures beneath { M.beneath m.old m.new }
{
    let mut at = 0;
    while at < end {
        at = replay_group(m, at)?;
    }
    Ok(())
}

// Writes the ranges of one group in their places, and answers where the next gate is.
fn replay_group<M: Machine>(m: &mut M, at: u64) -> Result<u64, RecoverFault>
    requires { at < 2 ^ 42 }
    ensures quiet { IsQuiet (M.meaning m.old) (M.meaning m.new) }
    ensures places { (ranges : List Range) (end : ℕ) → ToldGroup (M.meaning m.old) at ranges end → Places ranges (M.meaning m.old) (M.meaning m.new) }
    ensures placed { OnOk result ((ranges : List Range) (end : ℕ) → ToldGroup (M.meaning m.old) at ranges end → ArePlaced ranges (M.meaning m.old) (M.meaning m.new)) }
    ensures next { IfOk result (λ next. (ranges : List Range) (end : ℕ) → ToldGroup (M.meaning m.old) at ranges end → IsTrue (M.meaning m.new).tells → next ≡ end) }
    ensures bounds { IfOk result (λ next. (at < next) × (next < 2 ^ 42)) }
    ensures damaged { IsErrOf result RecoverFault.Damaged → (ranges : List Range) (end : ℕ) → ToldGroup (M.meaning m.old) at ranges end → IsTrue (M.meaning m.new).tells → ⊥ }
    ensures cause { DiskCause result (M.meaning m.old).disk_faults (M.meaning m.new).disk_faults }
    ensures beneath { M.beneath m.old m.new }
{
    let Some(group) = next_group(m, at)? else {
        return Err(RecoverFault::Damaged);
    };
    let end = group.at + group.length;
    replay_ranges(m, group.at + 4, end)?;
    Ok(end)
}

// Writes the ranges from one place of the log to another in their places.
fn replay_ranges<M: Machine>(m: &mut M, at: u64, end: u64) -> Result<(), RecoverFault>
    requires order { at ≤ end }
    requires within { end < 2 ^ 42 }
    ensures quiet { IsQuiet (M.meaning m.old) (M.meaning m.new) }
    ensures places { (ranges : List Range) → ToldRanges (M.meaning m.old) at ranges end → Places ranges (M.meaning m.old) (M.meaning m.new) }
    ensures placed { OnOk result ((ranges : List Range) → ToldRanges (M.meaning m.old) at ranges end → ArePlaced ranges (M.meaning m.old) (M.meaning m.new)) }
    ensures damaged { IsErrOf result RecoverFault.Damaged → (ranges : List Range) → ToldRanges (M.meaning m.old) at ranges end → IsTrue (M.meaning m.new).tells → ⊥ }
    ensures cause { DiskCause result (M.meaning m.old).disk_faults (M.meaning m.new).disk_faults }
    ensures beneath { M.beneath m.old m.new }
{
    let mut place = at;
    while place < end {
        place = replay_range(m, place, end)?;
    }
    Ok(())
}

// Writes one range in its place, and answers what is behind it in the log.
fn replay_range<M: Machine>(m: &mut M, at: u64, end: u64) -> Result<u64, RecoverFault>
    requires order { at ≤ end }
    requires within { end < 2 ^ 42 }
    ensures quiet { IsQuiet (M.meaning m.old) (M.meaning m.new) }
    ensures places { (range : Range) → ToldRange (M.meaning m.old) at range end → Places (range ∷ []) (M.meaning m.old) (M.meaning m.new) }
    ensures placed { OnOk result ((range : Range) → ToldRange (M.meaning m.old) at range end → ArePlaced (range ∷ []) (M.meaning m.old) (M.meaning m.new)) }
    ensures next { IfOk result (λ next. (range : Range) → ToldRange (M.meaning m.old) at range end → IsTrue (M.meaning m.new).tells → next ≡ at + 12 + length range.bytes) }
    ensures bounds { IfOk result (λ next. (at + 12 ≤ next) × (next ≤ end)) }
    ensures damaged { IsErrOf result RecoverFault.Damaged → (range : Range) → ToldRange (M.meaning m.old) at range end → IsTrue (M.meaning m.new).tells → ⊥ }
    ensures cause { DiskCause result (M.meaning m.old).disk_faults (M.meaning m.new).disk_faults }
    ensures beneath { M.beneath m.old m.new }
{
    let Some(range) = range_within(m, at, end)? else {
        return Err(RecoverFault::Damaged);
    };
    copy(m, range.bytes_at, range.position, range.length as u64)?;
    Ok(range.next)
}

// Copies bytes from the log to the pages, piece by piece.
fn copy<M: Machine>(m: &mut M, from: u64, to: u64, count: u64) -> Result<(), Failed>
    requires source { from + count ≤ 2 ^ 42 }
    requires goal { to + count ≤ 2 ^ 42 }
    ensures changes { Changes Pages to count (M.meaning m.old) (M.meaning m.new) }
    ensures copied { OnOk result (IsTrue (M.meaning m.new).tells → IsCopied from to count (M.meaning m.old).content (M.meaning m.new).content) }
    ensures cause { HasCause (M.meaning m.old).disk_faults (M.meaning m.new).disk_faults result }
    ensures beneath { M.beneath m.old m.new }
{
    let mut buffer = [0; PIECE];
    let mut done = 0;
    while done < count {
        let size = (count - done).min(PIECE as u64) as usize;
        copy_through(m, from + done, to + done, &mut buffer[..size])?;
        done += size as u64;
    }
    Ok(())
}

// Copies as many bytes as the buffer has.
fn copy_through<M: Machine>(m: &mut M, from: u64, to: u64, buffer: &mut [u8]) -> Result<(), Failed>
    requires source { from + length buffer.old ≤ 2 ^ 42 }
    requires goal { to + length buffer.old ≤ 2 ^ 42 }
    ensures changes { Changes Pages to (length buffer.old) (M.meaning m.old) (M.meaning m.new) }
    ensures copied { OnOk result (IsTrue (M.meaning m.new).tells → IsCopied from to (length buffer.old) (M.meaning m.old).content (M.meaning m.new).content) }
    ensures cause { HasCause (M.meaning m.old).disk_faults (M.meaning m.new).disk_faults result }
    ensures beneath { M.beneath m.old m.new }
{
    m.read(Area::Log, from, buffer)?;
    m.write(Area::Pages, to, buffer)?;
    Ok(())
}
