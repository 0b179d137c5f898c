//! The group of ranges that makes a list of changes: for each change the slot that it is written to is
//! chosen, and pages are made where no free slot is left. It promises that the group, once written,
//! makes just these changes of the rows and of the catalogue, that new keys take the slots which were
//! free before, and that no more pages are made than the rest needs.
#![tactic(auto)]

mod fault;
mod group;
mod parts;

pub use fault::StageFault;
pub use group::Group;

#[cfg(test)]
mod tests;
