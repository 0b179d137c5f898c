//! The text of a tenant's statement. It promises that a text is read exactly where it has a reading,
//! and then as its one tree; that a number outside 64 bits is told apart; and that a text has at most
//! one reading.
#![tactic(auto)]

mod laws;
mod statement;

pub use laws::{each_statement_text_gives_something, statements_are_determined};
pub use statement::parse;

#[cfg(test)]
mod tests;
