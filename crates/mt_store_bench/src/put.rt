ghost use Rattle.std.specs.Prelude.{◌≡◌, ◌+◌, ◌-◌, ◌≤◌, ◌<◌, All, IfOk, OnOk, length};
ghost use Rattle.mt_store_bench.specs.Numbers.{IsNumberPut, IsReady};

use crate::table::{TABLE, TENANTS};
use anyhow::Result;
use mt_chunkstore::Store;
use mt_list::List;
use mt_machine::Machine;
use mt_physplan::{Change, Changes};
use mt_rowfile::SlotRow;
use mt_value::Value;
use std::alloc::{AllocError, Global};

/// The slots of one group.
const GROUP: u32 = 1_000;

/// The mark of a slot whose row is visible.
const VISIBLE: u8 = 1;

/// The put of slot `i`. `AllocError` is want of memory.
fn put_of(alloc: Global, i: u32) -> Result<Change, AllocError>
    ensures { IfOk result IsNumberPut }
{
    let mut values = List::new(alloc);
    values.push(Value::Int(i64::from(i)))?;
    Ok(Change::Put {
        table: TABLE,
        slot: SlotRow {
            mark: VISIBLE,
            tenant: i % TENANTS + 1,
            base: 0,
            chunk: 0,
            row: u64::from(i / TENANTS),
            values,
        },
    })
}

/// The puts of the slots from `from` on and below `upto`. `AllocError` is want of memory.
fn puts(alloc: Global, from: u32, upto: u32) -> Result<Changes, AllocError>
    requires order { from ≤ upto }
    ensures puts { IfOk result (All IsNumberPut) }
    ensures count { IfOk result (λ changes. from + length changes ≡ upto) }
{
    let mut changes = List::new(alloc);
    for i in from..upto {
        changes.push(put_of(alloc, i)?)?;
    }
    Ok(changes)
}

/// Commits a group of puts.
fn put_group<M: Machine>(
    m: &mut M,
    alloc: Global,
    store: &mut Store,
    changes: &Changes,
) -> Result<()>
    requires ready { IsReady store.old (M.meaning m.old) }
    requires few { length changes.now ≤ 1000 }
    requires puts { All IsNumberPut changes.now }
    ensures { OnOk result (IsReady store.new (M.meaning m.new)) }
{
    let staged = store.stage(m, alloc, changes)?;
    store.commit(m, staged)?;
    Ok(())
}

/// Puts the slots below `count`, a group after another.
pub(crate) fn put_all<M: Machine>(
    m: &mut M,
    alloc: Global,
    store: &mut Store,
    count: u32,
) -> Result<()>
    requires { IsReady store.old (M.meaning m.old) }
    ensures { OnOk result (IsReady store.new (M.meaning m.new)) }
{
    for n in 0..count.div_ceil(GROUP) {
        let from = n * GROUP;
        let upto = from.saturating_add(GROUP).min(count);
        put_group(m, alloc, store, &puts(alloc, from, upto)?)?;
    }
    Ok(())
}
