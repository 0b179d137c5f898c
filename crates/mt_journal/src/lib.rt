//! The journal: groups of ranges, each whole on the disk or absent at every moment. A group is
//! written behind a closed gate, made durable, and opened by a write of its own; only then are its
//! ranges written in place, so that what a stop tears there is mended by the replay of the log.
//! It promises that a commit is whole or absent at each moment, that a recovery writes what the log
//! says and changes no replay, nor anything where the log does not decode, and that a reset changes
//! none either, each where the machine tells its content or its moments; and that a call answers a
//! fault of the disk just where the machine counted one.
#![tactic(auto)]

mod body;
mod group;
mod journal;
mod laws;
mod recovery;
mod writing;

pub use body::Body;
pub use group::{GroupAt, RangeAt, next_group, next_range};
pub use journal::{Journal, RecoverFault};
pub use laws::{chains_are_determined, standing_is_kept};

#[cfg(test)]
mod tests;
