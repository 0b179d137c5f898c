ghost use Rattle.std.specs.Prelude.{◌≡◌, IfOk, OnOk, OnErr, map};
ghost use Rattle.std.specs.BTreeMap.{IsOrdered};
ghost use Rattle.std.specs.FinMap as finite;
ghost use Rattle.mt_physplan.specs.Content.{in_scan, picked, scanned, slots_in_order};
ghost use Rattle.mt_physplan.specs.Keys.{cell_of, key_cmp, key_in, slot_in};

use crate::{Cell, Key, Scan};
use mt_list::List;
use mt_rowfile::{SlotRow, SlotRows};
use mt_value::Row;
use std::alloc::{AllocError, Global};
use std::collections::BTreeMap;
use std::marker::Model;

/// Slots of physical tables, which contracts see as a finite map by their keys.
#[derive(Debug, Drop)]
pub struct SlotMap {
    slots: BTreeMap<Key, Cell>,
}

impl Model for SlotMap {
    ghost use Rattle.std.specs.FinMap as finite;
    ghost use Rattle.mt_physplan.specs.Keys.{coded_key, key_cmp};
    ghost use Rattle.mt_physplan.specs.contracts.key.Cell as cell;
    ghost use Rattle.mt_physplan.specs.declared.key.Cell.{Cell};

    ghost Value = { finite.FinMap key_cmp Cell };

    ghost coded = { finite.code coded_key cell.the_row.coded };

    ghost view = { λ it. finite.from_entries it.slots.entries };
}

impl SlotMap {
    /// No slots. It takes no memory, and growth takes it from `alloc`.
    pub fn new(alloc: Global) -> SlotMap
        ensures { result ≡ finite.empty }
    {
        SlotMap {
            slots: BTreeMap::new(alloc),
        }
    }

    /// Puts a slot of a table, in the place of one with its key. `AllocError` is want of memory, and
    /// leaves the map as it was.
    pub fn put(&mut self, table: u32, slot: SlotRow) -> Result<(), AllocError>
        ensures ok { OnOk result (self.new ≡ finite.insert self.old (key_in table slot) (cell_of slot)) }
        ensures err { OnErr result (self.new ≡ self.old) }
    {
        let key = Key {
            table,
            tenant: slot.tenant,
            base: slot.base,
            chunk: slot.chunk,
            row: slot.row,
        };
        let cell = Cell {
            mark: slot.mark,
            values: slot.values,
        };
        self.slots.insert(key, cell)?;
        Ok(())
    }

    /// The slots that the scan asks for, in order of Row. `AllocError` is want of memory.
    pub fn scan(&self, alloc: Global, scan: &Scan) -> Result<SlotRows, AllocError>
        ensures { IfOk result (λ rows. rows ≡ scanned self.now scan.now) }
    {
        pick(alloc, &self.slots, scan)
    }

    /// All slots, in order of their keys. `AllocError` is want of memory.
    pub fn into_slots(self, alloc: Global) -> Result<SlotRows, AllocError>
        ensures { IfOk result (λ rows. rows ≡ slots_in_order self) }
    {
        unpack(alloc, self.slots)
    }
}

/// Whether a scan asks for the slot of a key.
fn is_in_scan(scan: &Scan, key: &Key) -> bool
    ensures { result ≡ in_scan scan.now key.now }
{
    key.table == scan.table
        && key.tenant == scan.tenant
        && key.base == scan.base
        && key.chunk == scan.chunk
        && scan.from <= key.row
        && key.row < scan.upto
}

/// The slot with this key, mark and values.
fn slot(key: &Key, mark: u8, values: Row) -> SlotRow
    ensures { result ≡ slot_in key.now (record { mark = mark; values = values }) }
{
    SlotRow {
        mark,
        tenant: key.tenant,
        base: key.base,
        chunk: key.chunk,
        row: key.row,
        values,
    }
}

/// The slots that the scan asks for.
fn pick(alloc: Global, slots: &BTreeMap<Key, Cell>, scan: &Scan) -> Result<SlotRows, AllocError>
    ensures rows { IfOk result (λ rows. rows ≡ picked (in_scan scan.now) slots.now.entries) }
    ensures ordered { OnOk result (IsOrdered key_cmp slots.now) }
{
    let mut rows = List::new(alloc);
    for (key, cell) in slots {
        if is_in_scan(scan, key) {
            rows.push(slot(key, cell.mark, cell.values.copy()?))?;
        }
    }
    Ok(rows)
}

/// All slots of the map.
fn unpack(alloc: Global, slots: BTreeMap<Key, Cell>) -> Result<SlotRows, AllocError>
    ensures rows { IfOk result (λ rows. rows ≡ map (λ e. slot_in e.0 e.1) slots.entries) }
    ensures ordered { OnOk result (IsOrdered key_cmp slots) }
{
    let mut rows = Vec::with_capacity(alloc, slots.len())?;
    for (key, cell) in slots {
        rows.push(slot(&key, cell.mark, cell.values))?;
    }
    Ok(List::from_vec(rows))
}
