use mt_list::List;
use mt_value::Str;

/// The kind of a column: INTEGER, or VARCHAR of so many bytes at most, from 1 to 120.
#[derive(Clone, Copy, Debug, PartialEq, Eq)]
pub enum Kind {
    Integer,
    Varchar(u8),
}

/// A column of a table. The columns of the key are never NULL, and `not_null` columns neither.
#[derive(Debug, Drop)]
pub struct Column {
    pub name: Str,
    pub kind: Kind,
    pub not_null: bool,
    pub key: bool,
}

/// Columns, in the order of the table.
pub type Columns = List<Column>;

/// A table.
#[derive(Debug, Drop)]
pub struct Table {
    pub name: Str,
    pub columns: Columns,
}

/// The tables of one tenant, in the order in which they were made.
pub type Schema = List<Table>;
