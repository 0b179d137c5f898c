//! The trees of statements and commands, the schema, and the replies: what the layers that read,
//! answer and print a line hand one another. It promises that each refusal has one stated text, and
//! each value one printed form.
#![tactic(auto)]

mod code;
mod command;
mod expression;
mod name;
mod reply;
mod row;
mod schema;
mod simple;
mod statement;
mod who;

pub use code::Code;
pub use command::{AdminCmd, ChunkText, Def, DefKind, FoldText};
pub use expression::{Agg, Atom, Cond, Expr, Literal, Term};
pub use name::{ColName, Names};
pub use reply::{Reply, ReplyText};
pub use row::{MarkedRow, TableContent};
pub use schema::{Column, Columns, Kind, Schema, Table};
pub use simple::{SimpleCmd, SimpleDef, SimpleStmt};
pub use statement::{
    Filter, Insert, Item, OrderBy, OrderKey, Ref, Select, SetItem, Stmt, Tuple, Update,
};
pub use who::Who;

#[cfg(test)]
mod tests;
