use mt_list::List;
use mt_value::Row;

/// A row that is kept.
#[derive(Debug, Drop)]
pub struct MarkedRow {
    /// Not in the trashcan.
    pub visible: bool,
    pub values: Row,
}

/// What a base table holds for one tenant.
#[derive(Debug, Drop)]
pub struct TableContent {
    /// How many rows were ever inserted.
    pub made: u64,
    /// The rows that are kept, in the order in which they were inserted.
    pub rows: List<MarkedRow>,
}
