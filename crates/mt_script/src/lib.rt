//! The lines of a script: cut from a source that gives its bytes in any pieces, and the texts that
//! answer them. It promises that the lines come whole and in order however the source cuts its
//! bytes; that bytes are asked for only while no whole line is held; and that a fault of the source
//! ends the reading: the call that met it answers it, no other answer passes over one, and it loses
//! nothing.
#![tactic(auto)]

mod blank;
mod line;
mod number;
mod piece;
mod reader;
mod tag;
mod text;

pub use blank::silent;
pub use number::read_number;
pub use reader::{LineReader, ReadStop, Took};
pub use tag::{Tagged, split_tag, tags_are_determined};
pub use text::{code_text, reply_bytes};

#[cfg(test)]
mod tests;
