use crate::command::DefKind;
use crate::name::Names;
use crate::statement::Tuple;
use mt_list::List;
use mt_value::Str;

/// A command of the administrator, of those that are served so far.
#[derive(Debug, Drop)]
pub enum SimpleCmd {
    /// `CREATE TABLE name (columns)`
    CreateTable { name: Str, columns: List<SimpleDef> },
    /// `CREATE TENANT tenant QUOTA quota`
    CreateTenant { tenant: u64, quota: u64 },
}

/// The definition of a column.
#[derive(Debug, Drop)]
pub struct SimpleDef {
    pub name: Str,
    pub kind: DefKind,
}

/// A statement of a tenant, of those that are served so far.
#[derive(Debug, Drop)]
pub enum SimpleStmt {
    /// `INSERT INTO table VALUES (values)`
    Insert { table: Str, values: Tuple },
    /// `SELECT columns FROM table`; no columns stand for `*`.
    Select { table: Str, columns: Names },
}
