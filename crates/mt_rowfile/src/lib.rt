//! The slots of physical tables: how wide they are, how many stand in a page, and the bytes of each,
//! all numbers little-endian. It promises that a slot's bytes and its value are one: what is written
//! is read again, and bytes are refused exactly where they spell no slot. A free slot is never
//! refused, whatever stands behind its mark.
#![tactic(auto)]

mod body;
mod fields;
mod laws;
mod layout;
mod page;
mod slot;

pub use laws::slots_are_read_again;
pub use layout::{FieldKinds, Head, Layout, chunk_layout, slot_width, slots_per_page};
pub use page::free_slots;
pub use slot::{
    CatBody, SlotFault, SlotHead, SlotRow, SlotRows, check_slot, read_head, read_slot, write_slot,
};

#[cfg(test)]
mod tests;
