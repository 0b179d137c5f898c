ghost use Rattle.std.specs.Prelude.{◌≡◌, ◌⊎◌, ℕ, ◌+◌, ◌<◌, ◌≤◌, ◌^◌, List, IsTrue, IsErr, OnOk, All, length};
ghost use Rattle.mt_machine.specs.Calls.{HasCause, Torn};
ghost use Rattle.mt_machine.specs.Leaves.{Leaves};
ghost use Rattle.mt_machine.specs.declared.machine.Area.TheVariants.{Log, Pages};
ghost use Rattle.mt_journal.specs.Spelling.{Fits};
ghost use Rattle.mt_journal.specs.Steps.{IsQuiet, IsDurable, Changes, IsBehind, Places, ArePlaced, OldOrFirstGate, ClosesFirst};

use crate::Body;
use crate::group::CLOSED;
use byteorder::{ByteOrder, LittleEndian};
use mt_machine::{Area, Failed, Machine};

// Writes a group behind its gate, which is closed, and closes the next one; then all of it is on the
// disk.
pub(crate) fn write_behind<M: Machine>(m: &mut M, at: u64, payload: &[u8]) -> Result<(), Failed>
    requires { at + 10 + length payload.now ≤ 2 ^ 42 }
    ensures changes { Changes Log (at + 1) (9 + length payload.now) (M.meaning m.old) (M.meaning m.new) }
    ensures stands { OnOk result (IsTrue (M.meaning m.new).tells → IsBehind ((M.meaning m.new).content Log) at payload.now) }
    ensures durable { OnOk result (IsDurable (M.meaning m.new)) }
    ensures cause { HasCause (M.meaning m.old).disk_faults (M.meaning m.new).disk_faults result }
    ensures beneath { M.beneath m.old m.new }
{
    let mut length = [0; 8];
    LittleEndian::write_u64(&mut length, payload.len() as u64);
    m.write(Area::Log, at + 1, &length)?;
    m.write(Area::Log, at + 9, payload)?;
    m.write(Area::Log, at + 9 + payload.len() as u64, &[CLOSED])?;
    m.sync()?;
    Ok(())
}

// Writes the gate alone; then it is on the disk.
pub(crate) fn set_gate<M: Machine>(m: &mut M, at: u64, gate: u8) -> Result<(), Failed>
    requires { at < 2 ^ 42 }
    ensures changes { Changes Log at 1 (M.meaning m.old) (M.meaning m.new) }
    ensures set { OnOk result (IsTrue (M.meaning m.new).tells → (M.meaning m.new).content Log at ≡ gate) }
    ensures durable { OnOk result (IsDurable (M.meaning m.new)) }
    ensures cause { HasCause (M.meaning m.old).disk_faults (M.meaning m.new).disk_faults result }
    ensures beneath { M.beneath m.old m.new }
{
    m.write(Area::Log, at, &[gate])?;
    m.sync()?;
    Ok(())
}

// Closes the first gate, once all that stands in the pages is on the disk.
pub(crate) fn close_first<M: Machine>(m: &mut M) -> Result<(), Failed>
    ensures leaves { Leaves (OldOrFirstGate (M.meaning m.old)) (M.meaning m.old) (M.meaning m.new) }
    ensures content { IsTrue (M.meaning m.new).tells → Torn Log 0 1 (M.meaning m.old).content (M.meaning m.new).content }
    ensures closes { OnOk result (ClosesFirst (M.meaning m.old) (M.meaning m.new)) }
    ensures cause { HasCause (M.meaning m.old).disk_faults (M.meaning m.new).disk_faults result }
    ensures beneath { M.beneath m.old m.new }
{
    m.sync()?;
    set_gate(m, 0, CLOSED)?;
    Ok(())
}

// Writes the ranges in their places.
pub(crate) fn place<M: Machine>(m: &mut M, body: &Body) -> Result<(), Failed>
    requires { All Fits body.now }
    ensures quiet { IsQuiet (M.meaning m.old) (M.meaning m.new) }
    ensures places { Places body.now (M.meaning m.old) (M.meaning m.new) }
    ensures placed { OnOk result (ArePlaced body.now (M.meaning m.old) (M.meaning m.new)) }
    ensures cause { HasCause (M.meaning m.old).disk_faults (M.meaning m.new).disk_faults result }
    ensures beneath { M.beneath m.old m.new }
{
    for i in 0..body.len() {
        m.write(Area::Pages, body.position(i), body.bytes(i))?;
    }
    Ok(())
}
