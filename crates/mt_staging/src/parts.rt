ghost use Rattle.std.specs.Prelude.{◌≡◌, ℕ, ◌+◌, ◌-◌, ◌^◌, ◌<◌, ◌≤◌, [], ◌∷◌, ◌++◌, length, slice_index, OnOk, OnErr, IsErrOf};
ghost use Rattle.mt_codec.specs.Fields.{IsKind};
ghost use Rattle.mt_rowfile.specs.Fields.{AreKinds};
ghost use Rattle.mt_rowfile.specs.Slots.{HasNumbers};
ghost use Rattle.mt_physplan.specs.Keys.{key_in};
ghost use Rattle.mt_staging.specs.Steps.{IsFar, one_more_of};

use crate::StageFault;
use mt_codec::FieldKind;
use mt_journal::Body;
use mt_physplan::Key;
use mt_rowfile::{CatBody, SlotRow};

/// The number of physical tables.
pub(crate) const TABLES: usize = 32;

/// Where the pages end.
const PAGES_END: u64 = 1 << 40;

/// Adds the range of a slot. `Disk` is a slot that would not lie in the pages. After a fault the body
/// is as it was.
pub(crate) fn write(body: &mut Body, position: u64, bytes: &[u8]) -> Result<(), StageFault>
    requires short { length bytes.now ≤ 4096 }
    requires room { length body.old < 2 ^ 32 - 1 }
    ensures ok { OnOk result (body.new ≡ body.old ++ record { position = position; bytes = bytes.now } ∷ []) }
    ensures err { OnErr result (body.new ≡ body.old) }
    ensures disk { IsErrOf result StageFault.Disk → IsFar position bytes.now }
{
    if position > PAGES_END - bytes.len() as u64 {
        return Err(StageFault::Disk);
    }
    body.push(position, bytes)?;
    Ok(())
}

/// Counts one slot more of a table.
pub(crate) fn count_one(counts: &mut [u64; TABLES], table: u32)
    requires table { table ≤ 31 }
    requires room { slice_index counts.old table < 2 ^ 64 - 1 }
    ensures { slice_index counts.new ≡ one_more_of table (slice_index counts.old) }
{
    counts[table as usize] += 1;
}

/// A key of these numbers.
pub(crate) fn make_key(table: u32, tenant: u32, base: u32, chunk: u32, row: u64) -> Key
    ensures key { result ≡ record { table = table; tenant = tenant; base = base; chunk = chunk; row = row } }
    ensures owner { (tenant < 2 ^ 32) × (base < 2 ^ 32) × (chunk < 2 ^ 32) }
    ensures row { row < 2 ^ 64 }
{
    Key {
        table,
        tenant,
        base,
        chunk,
        row,
    }
}

/// The key of a slot of a table.
pub(crate) fn key_of(table: u32, slot: &SlotRow) -> Key
    ensures key { result ≡ key_in table slot.now }
    ensures numbers { HasNumbers slot.now }
{
    let _mark = slot.mark;
    make_key(table, slot.tenant, slot.base, slot.chunk, slot.row)
}

/// Writes a slot of the catalogue: the mark of a slot in use, and the body.
pub(crate) fn write_body(body: &CatBody, out: &mut [u8])
    requires { length out.old ≡ 1 + length body.now }
    ensures { out.new ≡ 1 ∷ body.now }
{
    let (mark, rest) = out.split_at_mut(1);
    mark[0] = 1;
    rest.copy_from_slice(body.as_slice());
}

/// Sees that the sizes of texts are bytes. It does nothing.
pub(crate) fn see_kinds(kinds: &[FieldKind])
    ensures { AreKinds kinds.now }
{
    for kind in kinds {
        see_kind(*kind);
    }
}

/// Sees that the size of a text is a byte. It does nothing.
fn see_kind(kind: FieldKind)
    ensures { IsKind kind }
{
    match kind {
        FieldKind::Int => {}
        FieldKind::Text(size) => {
            let _size = size;
        }
    }
}
