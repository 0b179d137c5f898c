//! A schema step on a catalogue. It promises that a step is refused with the first refusal of the
//! administrator's order, or prepared as the catalogue after it with the slots to put and to remove,
//! which turn those of the catalogue before into those of the one after; and that the catalogue stays as
//! it is until what is prepared is accepted.
#![tactic(auto)]

mod changed;
mod copies;
mod definitions;
mod prepared;
mod steps;

pub use prepared::{CatRows, Prepared, StepFault, accept, prepare};

#[cfg(test)]
mod tests;
