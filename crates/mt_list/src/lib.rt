//! The list type of the whole database: a growing sequence that contracts see as the list of its
//! members. Rows, names, bytes and positions are aliases of it, so that one set of contracts serves
//! all. It promises that `push` appends or leaves the list as it was, and that a copy equals what it
//! copies.
#![tactic(auto)]

mod compared;
mod duplicate;
mod list;

pub use duplicate::Duplicate;
pub use list::List;

#[cfg(test)]
mod tests;
