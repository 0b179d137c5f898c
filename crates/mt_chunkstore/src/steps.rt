ghost use Rattle.std.specs.Prelude.{◌≡◌, ◌∷◌, [], All, IfOk, Some, length};
ghost use Rattle.mt_codec.specs.declared.field.FieldKind.TheVariants.{Int};
ghost use Rattle.mt_rowfile.specs.declared.layout.Head.TheVariants.{Conventional};
ghost use Rattle.mt_rowfile.specs.Fields.{AreFitting};
ghost use Rattle.mt_tables.specs.Rows.{KnownLayouts, layout_of};
ghost use Rattle.mt_directory.specs.Known.{known_in};
ghost use Rattle.mt_chunkstore.specs.Changes.{IsSuited};
ghost use Rattle.mt_chunkstore.specs.Standing.{Stands};

use self::Step::{Put, PutChunk, PutQuota, Remove, RemoveQuota, Trash};
use crate::tests::{list_of, one_integer};
use crate::{Lent, Store, StoreFault};
use mt_list::List;
use mt_machine::{Failed, Machine};
use mt_physplan::{Change, Changes, Phys, PhysFault, Scan};
use mt_rowfile::{SlotRow, SlotRows};
use mt_staging::StageFault;
use mt_value::Value;
use std::alloc::{AllocError, Global};
use thiserror::Error;

/// The quota 2 of tenant 1, as the bytes of a slot of table 10 behind its mark.
pub(crate) const QUOTA: [u8; 8] = *b"\x01\0\0\0\x02\0\0\0";

/// All Rows of tenant 1 in table 16.
pub(crate) const ROWS: Scan = Scan {
    table: 16,
    tenant: 1,
    base: 0,
    chunk: 0,
    from: 0,
    upto: u64::MAX,
};

/// All Rows of tenant 1, base table 2 and chunk 3 in table 1.
pub(crate) const CHUNKS: Scan = Scan {
    table: 1,
    base: 2,
    chunk: 3,
    ..ROWS
};

/// More steps than any test commits as one group.
const STEPS_MAX: usize = 1_000;

/// The Row of a slot, its mark and its value.
pub(crate) type Seen = (u64, u8, i64);

/// A change of what tenant 1 has.
#[derive(Clone, Copy, Debug)]
pub(crate) enum Step {
    /// Puts a Row with the value 5 into table 16.
    Put(u64),
    /// Moves it into the trashcan.
    Trash(u64),
    /// Removes it.
    Remove(u64),
    /// Puts a Row of base table 2 and chunk 3 with the value 5 into table 1.
    PutChunk(u64),
    /// Puts the quota 2 into table 10.
    PutQuota,
    /// Removes it.
    RemoveQuota,
}

/// Why steps were not committed, or slots not seen.
#[derive(Clone, Copy, Debug, PartialEq, Eq, Error)]
pub(crate) enum Fault {
    #[error("not opened: {0}")]
    Open(#[from] StoreFault),
    #[error("not looked at: {0}")]
    Look(#[from] PhysFault),
    #[error("not staged: {0}")]
    Stage(#[from] StageFault),
    #[error("not committed: {0}")]
    Commit(#[from] Failed),
    #[error("no memory for the test")]
    Test(#[from(alloc)] AllocError),
    #[error("too many steps")]
    Many,
}

/// The store of a machine, where table 16 has one integer.
pub(crate) fn opened<M: Machine>(m: &mut M, alloc: Global) -> Result<Store, Fault>
    ensures stands { IfOk result (λ store. Stands store (M.meaning m.new)) }
    ensures layout { IfOk result (λ store. layout_of (known_in store.layouts) 16 ≡ Some (record { head = Conventional; kinds = Int ∷ [] })) }
{
    let mut store = Store::load(m, alloc)?;
    let layout = one_integer(alloc)?;
    store.add_layout(m, 16, layout)?;
    Ok(store)
}

/// A visible slot of tenant 1 with the value 5.
fn slot(alloc: Global, base: u32, chunk: u32, row: u64) -> Result<SlotRow, AllocError>
    ensures mark { IfOk result (λ slot. slot.mark ≡ 1) }
    ensures base { IfOk result (λ slot. slot.base ≡ base) }
    ensures chunk { IfOk result (λ slot. slot.chunk ≡ chunk) }
    ensures values { IfOk result (λ slot. AreFitting (Int ∷ []) slot.values) }
{
    let mut values = List::new(alloc);
    values.push(Value::Int(5))?;
    Ok(SlotRow {
        mark: 1,
        tenant: 1,
        base,
        chunk,
        row,
        values,
    })
}

/// The change that a step is.
fn change(alloc: Global, step: Step) -> Result<Change, AllocError>
    ensures { IfOk result (λ change. (known : KnownLayouts) → layout_of known 16 ≡ Some (record { head = Conventional; kinds = Int ∷ [] }) → IsSuited known change) }
{
    let tenant = 1;
    Ok(match step {
        Put(row) => Change::Put {
            table: 16,
            slot: slot(alloc, 0, 0, row)?,
        },
        Trash(row) => Change::Mark {
            table: 16,
            tenant,
            row,
            mark: 2,
        },
        Remove(row) => Change::Remove {
            table: 16,
            tenant,
            base: 0,
            chunk: 0,
            row,
        },
        PutChunk(row) => Change::Put {
            table: 1,
            slot: slot(alloc, 2, 3, row)?,
        },
        PutQuota => Change::PutCat {
            table: 10,
            body: list_of(alloc, &QUOTA)?,
        },
        RemoveQuota => Change::RemoveCat {
            table: 10,
            body: list_of(alloc, &QUOTA)?,
        },
    })
}

/// The changes that steps are.
pub(crate) fn changes(alloc: Global, steps: &[Step]) -> Result<Changes, AllocError>
    ensures suited { IfOk result (λ changes. (known : KnownLayouts) → layout_of known 16 ≡ Some (record { head = Conventional; kinds = Int ∷ [] }) → All (IsSuited known) changes) }
    ensures size { IfOk result (λ changes. length changes ≡ length steps.now) }
{
    let mut changes: Changes = List::new(alloc);
    for step in steps {
        changes.push(change(alloc, *step)?)?;
    }
    Ok(changes)
}

/// The puts of the Rows below a number.
pub(crate) fn puts(alloc: Global, upto: u64) -> Result<Vec<Step>, AllocError> {
    (0..upto).map(Put).collect(alloc)
}

/// Commits steps as one group to the store of a machine, and tells how many pages it has then.
pub(crate) fn commit<M: Machine>(m: &mut M, alloc: Global, steps: &[Step]) -> Result<u64, Fault> {
    if steps.len() > STEPS_MAX {
        return Err(Fault::Many);
    }
    let changes = changes(alloc, steps)?;
    let mut store = opened(m, alloc)?;
    let staged = store.stage(m, alloc, &changes)?;
    store.commit(m, staged)?;
    Ok(store.pages())
}

/// What a scan of the store of a machine shows.
pub(crate) fn seen<M: Machine>(m: &mut M, alloc: Global, scan: &Scan) -> Result<Vec<Seen>, Fault> {
    let mut store = opened(m, alloc)?;
    let mut lent = Lent {
        store: &mut store,
        machine: m,
    };
    let slots = lent.scan(alloc, scan)?;
    Ok(rows_of(alloc, &slots)?)
}

/// The Rows of slots of one integer.
fn rows_of(alloc: Global, slots: &SlotRows) -> Result<Vec<Seen>, AllocError> {
    let mut rows = Vec::new(alloc);
    for slot in slots.as_slice() {
        if let [Value::Int(value)] = slot.values.as_slice() {
            rows.push((slot.row, slot.mark, *value))?;
        }
    }
    Ok(rows)
}
