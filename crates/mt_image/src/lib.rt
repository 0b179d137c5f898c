//! What a disk holds, as it is read from the bytes of its pages: the catalogue by which its rows lie,
//! or the first damage. It is a crate of definitions and laws. It promises that a disk holds one
//! catalogue at most, that one that holds a catalogue is not damaged, that it has one first damage at
//! most, that the empty disk holds the empty catalogue, and that the slots of pages that hold one can
//! be read and have keys of their own.
#![tactic(auto)]

mod damage;
mod laws;

pub use damage::Damage;
pub use laws::{
    disks_have_one_damage, disks_hold_one_catalogue, empty_disks_hold_nothing,
    held_disks_are_not_damaged, held_pages_are_sound,
};
