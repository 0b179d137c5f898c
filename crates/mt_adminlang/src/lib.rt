//! The reading of the administrator's commands. It promises that a text is read exactly where it has
//! a reading, and then as its one tree, and that a number outside 64 bits is told apart.
#![tactic(auto)]

mod column;
mod command;
mod create;
mod explain;
mod fold;
mod laws;
mod names;
mod parse;

pub use laws::{commands_are_determined, each_command_text_gives_something};
pub use parse::parse_admin;

#[cfg(test)]
mod tests;
