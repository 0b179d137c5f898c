use mt_list::List;

/// How large a physical table is: its pages, and its slots in use.
#[derive(Clone, Copy, Debug, PartialEq, Eq)]
pub struct TableSize {
    pub table: u32,
    pub pages: u64,
    pub used: u64,
}

/// The sizes of physical tables, ascending by table.
pub type Sizes = List<TableSize>;
