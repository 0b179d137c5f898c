//! The pages of the disk, 4,096 bytes each: page 0, which counts them, and the others, each of one
//! physical table. It promises that page n is those bytes of the pages' area, that page 0 is refused
//! exactly where it is damaged, and that the ranges of a new page make it and count it in one group.
#![tactic(auto)]

mod control;
mod pages;

pub use pages::{PAGE_SIZE, Pages, PagesFault};

#[cfg(test)]
mod tests;
