use crate::expression::{Cond, Expr, Literal};
use crate::name::{ColName, Names};
use mt_list::List;
use mt_value::Str;

/// A statement of a tenant.
#[derive(Debug, Drop)]
pub enum Stmt {
    Select(Select),
    Insert(Insert),
    Update(Update),
    Delete(Filter),
    Restore(Filter),
    Purge(Filter),
}

/// `SELECT`. Empty `items` stand for `*`; an empty `group` or `order` is one that is not written.
#[derive(Debug, Drop)]
pub struct Select {
    pub distinct: bool,
    pub items: List<Item>,
    pub refs: List<Ref>,
    pub cond: Option<Cond>,
    pub group: List<ColName>,
    pub having: Option<Cond>,
    pub order: List<OrderKey>,
    pub limit: Option<u64>,
}

/// One item of a select list, with the name after AS.
#[derive(Debug, Drop)]
pub struct Item {
    pub expr: Expr,
    pub name: Option<Str>,
}

/// A table reference. `on` is None for the first one and after a comma.
#[derive(Debug, Drop)]
pub struct Ref {
    pub table: Str,
    pub alias: Option<Str>,
    pub on: Option<Cond>,
}

/// One key of ORDER BY.
#[derive(Debug, Drop)]
pub struct OrderKey {
    pub by: OrderBy,
    pub desc: bool,
}

/// What a key of ORDER BY names: an output name, or an output position from 1.
#[derive(Debug, Drop)]
pub enum OrderBy {
    Name(Str),
    Position(u64),
}

/// `INSERT`. Empty `columns` are not written.
#[derive(Debug, Drop)]
pub struct Insert {
    pub table: Str,
    pub columns: Names,
    pub tuples: List<Tuple>,
}

/// The values of one row of an INSERT, in the order written.
pub type Tuple = List<Literal>;

/// `UPDATE`.
#[derive(Debug, Drop)]
pub struct Update {
    pub table: Str,
    pub sets: List<SetItem>,
    pub cond: Option<Cond>,
}

/// One assignment of an UPDATE.
#[derive(Debug, Drop)]
pub struct SetItem {
    pub column: Str,
    pub expr: Expr,
}

/// What `DELETE`, `RESTORE` and `PURGE` say: a table and perhaps a condition.
#[derive(Debug, Drop)]
pub struct Filter {
    pub table: Str,
    pub cond: Option<Cond>,
}
