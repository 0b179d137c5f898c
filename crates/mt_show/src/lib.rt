//! The printing of statements in their one spelling. It promises that what is printed of a statement
//! that has a reading reads as the same tree: the tokens that are printed spell it, and the text of
//! them is read as the same tokens.
#![tactic(auto)]

mod part;
mod place;
mod printer;
mod printing;
mod statement;
mod terms;

pub use printing::show;

#[cfg(test)]
mod tests;
