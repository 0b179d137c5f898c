ghost use Rattle.std.specs.Prelude.{◌≡◌, ◌⊎◌, ℕ, ◌+◌, ◌<◌, ◌≤◌, ◌^◌, List, IsTrue, IsErr, IfOk, IfSome, IsErrOf, length};
ghost use Rattle.mt_machine.specs.Calls.{HasCause};
ghost use Rattle.mt_machine.specs.Leaves.{Looks};
ghost use Rattle.mt_machine.specs.declared.machine.Area.TheVariants.{Log};
ghost use Rattle.mt_journal.specs.Layout.{Range, IsOpen, IsGroupAt, IsRangeAt, number_at};
ghost use Rattle.mt_journal.specs.Commits.{DiskCause};
ghost use Rattle.mt_journal.specs.Groups.{FindsGroup, FindsRange};
ghost use Rattle.mt_journal.specs.Walk.{IsHead, FindsPayload, FindsWithin, FillsPayload};

use crate::RecoverFault;
use byteorder::{ByteOrder, LittleEndian};
use mt_machine::{Area, Failed, Machine};

/// The byte of a gate that is open.
pub(crate) const OPEN: u8 = 0xA5;

/// The byte of a gate that is closed. Any byte but that of an open gate counts as closed.
pub(crate) const CLOSED: u8 = 0;

/// The end of the log.
const LOG_END: u64 = 1 << 42;

/// The end of the pages.
const PAGES_END: u64 = 1 << 40;

/// How many bytes a range takes before its own.
const HEAD_SIZE: u64 = 12;

/// The payload of a group in the log: the place of its first byte, and its length in bytes.
#[derive(Clone, Copy, Debug, PartialEq, Eq)]
pub struct GroupAt {
    pub at: u64,
    pub length: u64,
}

/// A range in the log: its position in the pages, its length in bytes, the place in the log of its
/// first byte, and the place behind its last.
#[derive(Clone, Copy, Debug, PartialEq, Eq)]
pub struct RangeAt {
    pub position: u64,
    pub length: u32,
    pub bytes_at: u64,
    pub next: u64,
}

/// The group whose gate is at this place of the log; None exactly where the gate is not open.
/// `Damaged` exactly where it is open and no group stands there; `Disk` only where a read failed.
pub fn next_group<M: Machine>(m: &mut M, at: u64) -> Result<Option<GroupAt>, RecoverFault>
    requires { at < 2 ^ 42 }
    ensures found { FindsGroup result at (M.meaning m.old) (M.meaning m.new) }
    // whatever the machine tells
    ensures bounds { IfOk result (λ found. IfSome found (λ group. (group.at ≡ at + 9) × (4 ≤ group.length) × (group.at + group.length < 2 ^ 42))) }
    ensures looks { Looks (M.meaning m.old) (M.meaning m.new) }
    ensures cause { DiskCause result (M.meaning m.old).disk_faults (M.meaning m.new).disk_faults }
    ensures beneath { M.beneath m.old m.new }
{
    let gate = byte_at(m, at)?;
    if gate != OPEN {
        return Ok(None);
    }
    match payload_behind(m, at)? {
        Some(group) => Ok(Some(group)),
        None => Err(RecoverFault::Damaged),
    }
}

/// The range at this place of the log, which is that of a range of a group that stands.
pub fn next_range<M: Machine>(m: &mut M, at: u64) -> Result<RangeAt, Failed>
    requires place { at + 12 ≤ 2 ^ 42 }
    requires range { IsTrue (M.meaning m.old).tells → (range : Range) × IsRangeAt ((M.meaning m.old).content Log) at range × (at + 12 + length range.bytes < 2 ^ 42) }
    ensures found { FindsRange result at (M.meaning m.old) (M.meaning m.new) }
    // whatever the machine tells
    ensures bounds { IfOk result (λ range. (range.bytes_at ≡ at + 12) × (range.next ≡ at + 12 + range.length)) }
    ensures looks { Looks (M.meaning m.old) (M.meaning m.new) }
    ensures cause { HasCause (M.meaning m.old).disk_faults (M.meaning m.new).disk_faults result }
    ensures beneath { M.beneath m.old m.new }
{
    head_at(m, at)
}

// The payload behind the open gate at this place; None exactly where no group stands there.
fn payload_behind<M: Machine>(m: &mut M, at: u64) -> Result<Option<GroupAt>, Failed>
    requires { at < 2 ^ 42 }
    ensures found { FindsPayload result at (M.meaning m.old) (M.meaning m.new) }
    ensures bounds { IfOk result (λ found. IfSome found (λ group. (group.at ≡ at + 9) × (4 ≤ group.length) × (group.at + group.length < 2 ^ 42))) }
    ensures looks { Looks (M.meaning m.old) (M.meaning m.new) }
    ensures cause { HasCause (M.meaning m.old).disk_faults (M.meaning m.new).disk_faults result }
    ensures beneath { M.beneath m.old m.new }
{
    // the shortest group takes 13 bytes, and the next gate stands behind it
    if LOG_END - at < 14 {
        return Ok(None);
    }
    let length = u64_at(m, at + 1)?;
    if length < 4 || length > LOG_END - at - 10 {
        return Ok(None);
    }
    let count = u32_at(m, at + 9)?;
    let group = GroupAt { at: at + 9, length };
    if ranges_fill(m, at + 13, at + 9 + length, count)? {
        Ok(Some(group))
    } else {
        Ok(None)
    }
}

// Whether just this many ranges stand from one place to another.
fn ranges_fill<M: Machine>(m: &mut M, at: u64, end: u64, count: u32) -> Result<bool, Failed>
    requires order { at ≤ end }
    requires within { end < 2 ^ 42 }
    ensures found { FillsPayload result at end count (M.meaning m.old) (M.meaning m.new) }
    ensures looks { Looks (M.meaning m.old) (M.meaning m.new) }
    ensures cause { HasCause (M.meaning m.old).disk_faults (M.meaning m.new).disk_faults result }
    ensures beneath { M.beneath m.old m.new }
{
    let mut place = at;
    for _ in 0..count {
        match range_within(m, place, end)? {
            Some(range) => place = range.next,
            None => return Ok(false),
        }
    }
    Ok(place == end)
}

// The range at a place; None exactly where no range stands there that ends within the pages, and in
// the log by `end`.
pub(crate) fn range_within<M: Machine>(
    m: &mut M,
    at: u64,
    end: u64,
) -> Result<Option<RangeAt>, Failed>
    requires order { at ≤ end }
    requires within { end < 2 ^ 42 }
    ensures found { FindsWithin result at end (M.meaning m.old) (M.meaning m.new) }
    ensures bounds { IfOk result (λ found. IfSome found (λ range. (range.bytes_at ≡ at + 12) × (range.next ≡ at + 12 + range.length) × (range.next ≤ end) × (range.position + range.length ≤ 2 ^ 40))) }
    ensures looks { Looks (M.meaning m.old) (M.meaning m.new) }
    ensures cause { HasCause (M.meaning m.old).disk_faults (M.meaning m.new).disk_faults result }
    ensures beneath { M.beneath m.old m.new }
{
    if end - at < HEAD_SIZE {
        return Ok(None);
    }
    let range = head_at(m, at)?;
    if range.next > end
        || range.position > PAGES_END
        || range.length as u64 > PAGES_END - range.position
    {
        return Ok(None);
    }
    Ok(Some(range))
}

// What the head of a range at this place says.
fn head_at<M: Machine>(m: &mut M, at: u64) -> Result<RangeAt, Failed>
    requires { at + 12 ≤ 2 ^ 42 }
    ensures found { IfOk result (λ range. IsTrue (M.meaning m.new).tells → IsHead ((M.meaning m.old).content Log) at range) }
    ensures bounds { IfOk result (λ range. (range.bytes_at ≡ at + 12) × (range.next ≡ at + 12 + range.length)) }
    ensures looks { Looks (M.meaning m.old) (M.meaning m.new) }
    ensures cause { HasCause (M.meaning m.old).disk_faults (M.meaning m.new).disk_faults result }
    ensures beneath { M.beneath m.old m.new }
{
    let position = u64_at(m, at)?;
    let length = u32_at(m, at + 8)?;
    let bytes_at = at + HEAD_SIZE;
    let next = bytes_at + length as u64;
    Ok(RangeAt {
        position,
        length,
        bytes_at,
        next,
    })
}

// The byte at this place of the log.
fn byte_at<M: Machine>(m: &mut M, at: u64) -> Result<u8, Failed>
    requires { at + 1 ≤ 2 ^ 42 }
    ensures found { IfOk result (λ byte. IsTrue (M.meaning m.new).tells → (M.meaning m.old).content Log at ≡ byte) }
    ensures looks { Looks (M.meaning m.old) (M.meaning m.new) }
    ensures cause { HasCause (M.meaning m.old).disk_faults (M.meaning m.new).disk_faults result }
    ensures beneath { M.beneath m.old m.new }
{
    let mut buffer = [0; 1];
    m.read(Area::Log, at, &mut buffer)?;
    Ok(buffer[0])
}

// The number in the four bytes from this place of the log on.
fn u32_at<M: Machine>(m: &mut M, at: u64) -> Result<u32, Failed>
    requires { at + 4 ≤ 2 ^ 42 }
    ensures found { IfOk result (λ number. IsTrue (M.meaning m.new).tells → number_at 4 ((M.meaning m.old).content Log) at ≡ number) }
    ensures looks { Looks (M.meaning m.old) (M.meaning m.new) }
    ensures cause { HasCause (M.meaning m.old).disk_faults (M.meaning m.new).disk_faults result }
    ensures beneath { M.beneath m.old m.new }
{
    let mut buffer = [0; 4];
    m.read(Area::Log, at, &mut buffer)?;
    Ok(LittleEndian::read_u32(&buffer))
}

// The number in the eight bytes from this place of the log on.
fn u64_at<M: Machine>(m: &mut M, at: u64) -> Result<u64, Failed>
    requires { at + 8 ≤ 2 ^ 42 }
    ensures found { IfOk result (λ number. IsTrue (M.meaning m.new).tells → number_at 8 ((M.meaning m.old).content Log) at ≡ number) }
    ensures looks { Looks (M.meaning m.old) (M.meaning m.new) }
    ensures cause { HasCause (M.meaning m.old).disk_faults (M.meaning m.new).disk_faults result }
    ensures beneath { M.beneath m.old m.new }
{
    let mut buffer = [0; 8];
    m.read(Area::Log, at, &mut buffer)?;
    Ok(LittleEndian::read_u64(&buffer))
}
