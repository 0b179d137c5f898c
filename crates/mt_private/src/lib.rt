//! The private engine: it answers each line from a catalogue and lists of rows in memory, as plainly as
//! the definitions of `mt_model` read. It promises that each reply is that of the service's step and
//! that what it keeps then stands for the next service, or that want of memory changed nothing.
#![tactic(auto)]

mod columns;
mod command;
mod extend;
mod fit;
mod insert;
mod kept;
mod names;
mod plain;
mod print;
mod said;
mod seen;
mod select;
mod served;
mod statement;
#[cfg(test)]
mod tests;

pub use plain::Plain;
