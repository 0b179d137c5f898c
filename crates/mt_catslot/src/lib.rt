//! The slots of the catalogue: what the bytes of each say, as values, and the bytes that say it. It
//! promises that bytes are read as what the format says of them and of nothing else, that what is
//! written is read as the same, and that the bytes of tenants, placements, extended tables and fields
//! are the only ones that say so.
#![tactic(auto)]

mod laws;
mod read;
mod slot;
mod write;

pub use laws::{
    said_bodies_are_written, said_slots_stand_in_their_table, written_slots_are_read,
    written_slots_are_readable,
};
pub use read::read_body;
pub use slot::{CatKey, CatSlot, Class, Motion};
pub use write::write_body;

#[cfg(test)]
mod tests;
