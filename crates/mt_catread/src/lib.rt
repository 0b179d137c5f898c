//! Reading the catalogue from slots. It promises that slots are read as the catalogue whose slots they
//! are, whatever their order, and that they are refused as damaged exactly where they are of no
//! catalogue that keeps the rules.
#![tactic(auto)]

mod folds;
mod lookups;
mod reading;
mod relations;
mod slot_map;
mod tenants;

pub use reading::{CatFault, read_catalog};

#[cfg(test)]
mod tests;
