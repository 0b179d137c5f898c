use mt_list::List;
use mt_rowfile::{CatBody, SlotRow};

/// A change of one slot. For a conventional table the base table and the chunk of a slot are 0.
#[derive(Debug, Drop)]
pub enum Change {
    /// The slot stands in the table, in the place of one with its key where there is one.
    Put {
        table: u32,
        slot: SlotRow,
    },
    /// The slot of this Row in a conventional table has this mark.
    Mark {
        table: u32,
        tenant: u32,
        row: u64,
        mark: u8,
    },
    /// No slot has this key.
    Remove {
        table: u32,
        tenant: u32,
        base: u32,
        chunk: u32,
        row: u64,
    },
    /// A slot of the catalogue with this body is in use.
    PutCat {
        table: u32,
        body: CatBody,
    },
    /// No slot of the catalogue with this body is in use.
    RemoveCat {
        table: u32,
        body: CatBody,
    },
}

/// Changes, in the order in which they are made.
pub type Changes = List<Change>;
