use mt_value::Row;

/// What tells the slots of all physical tables apart. In a conventional table the base table and the
/// chunk are 0.
#[derive(Clone, Copy, Debug, PartialEq, Eq, PartialOrd, Ord)]
pub struct Key {
    pub table: u32,
    pub tenant: u32,
    pub base: u32,
    pub chunk: u32,
    pub row: u64,
}

/// What a slot in use holds beside its key.
#[derive(Debug, Drop)]
pub struct Cell {
    /// 1 where the row is visible, 2 where it is in the trashcan.
    pub mark: u8,
    /// The values of the fields, in order.
    pub values: Row,
}
