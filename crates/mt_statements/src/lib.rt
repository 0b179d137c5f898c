//! The statements of a tenant: SELECT, and INSERT, UPDATE, DELETE, RESTORE and PURGE. Their grammar as
//! a relation between tokens and trees, and the readers of them, which take a front of the tokens and
//! do not ask that the tokens end there. They promise that a front which spells a statement, and has
//! nothing behind it but perhaps a semicolon, is taken, as its one tree, and that it is the only one;
//! where there is none such, what is taken is a front that spells a statement, or nothing is read. At
//! most 4 references stand in a SELECT, and 1,000 tuples in an INSERT.
#![tactic(auto)]

mod change;
mod clauses;
mod filter;
mod insert;
mod item;
mod key;
mod laws;
mod name;
mod query;
mod reference;
mod tuples;
mod update;

pub use change::read_change;
pub use laws::{changes_are_determined, selects_are_determined};
pub use query::read_select;

#[cfg(test)]
mod tests;
