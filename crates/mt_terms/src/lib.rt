//! Expressions and conditions: their grammar as a relation between tokens and trees, and the readers
//! of them. They promise one front of all those that spell one with nothing behind them that goes on
//! with it: there is one such front at most, and it is read, as its one tree. So `a .` may stay unread,
//! though `a` is an expression. Brackets and NOT nest 64 deep at most.
#![tactic(auto)]

mod form;
mod function;
mod laws;
mod leaf;
mod logic;
mod members;
mod name;
mod parts;
mod predicate;
mod read;
mod sum;
mod test;

pub use form::{ColumnForm, ConditionForm, ExpressionForm};
pub use laws::terms_are_determined;
pub use read::{read_condition, read_expression};

#[cfg(test)]
mod tests;
