// What changes name.
ghost use Rattle.std.specs.Prelude.{◌≡◌};
ghost use Rattle.mt_places.specs.Named.{is_put, row_key, table_of};

use mt_physplan::{Change, Key};

/// The table of a change.
pub(crate) fn table_of(change: &Change) -> u32
    ensures { result ≡ table_of change.now }
{
    match change {
        Change::Put { table, .. }
        | Change::Mark { table, .. }
        | Change::Remove { table, .. }
        | Change::PutCat { table, .. }
        | Change::RemoveCat { table, .. } => *table,
    }
}

/// Whether a change puts a slot.
pub(crate) fn is_put(change: &Change) -> bool
    ensures { result ≡ is_put change.now }
{
    match change {
        Change::Put { .. } | Change::PutCat { .. } => true,
        Change::Mark { .. } | Change::Remove { .. } | Change::RemoveCat { .. } => false,
    }
}

/// The key of the row that a change names.
pub(crate) fn row_key(change: &Change) -> Option<Key>
    ensures { result ≡ row_key change.now }
{
    match change {
        Change::Put { table, slot } => Some(Key {
            table: *table,
            tenant: slot.tenant,
            base: slot.base,
            chunk: slot.chunk,
            row: slot.row,
        }),
        Change::Mark {
            table,
            tenant,
            row,
            ..
        } => Some(Key {
            table: *table,
            tenant: *tenant,
            base: 0,
            chunk: 0,
            row: *row,
        }),
        Change::Remove {
            table,
            tenant,
            base,
            chunk,
            row,
        } => Some(Key {
            table: *table,
            tenant: *tenant,
            base: *base,
            chunk: *chunk,
            row: *row,
        }),
        Change::PutCat { .. } | Change::RemoveCat { .. } => None,
    }
}
