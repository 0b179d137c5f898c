//! The store: the physical tables on the pages of a disk, behind the journal. It promises that a store
//! that was opened knows the table of each page and the slots in use of each table; that a scan gives
//! the slots that it asks for in order of Row and looks at no page of another table; and that a commit
//! makes the changes that were staged, whole or not at all, with new keys in free slots first and no
//! more new pages than the rest needs. The store and what it staged outlast calls that only look, and
//! an emit.
#![tactic(auto)]

mod commit;
mod laws;
mod lent;
mod page_scan;
mod sizes;
mod stage;
mod store;
mod survey;
mod table_scan;

pub use laws::{staging_is_kept, standing_is_kept};
pub use lent::Lent;
pub use sizes::{Sizes, TableSize};
pub use stage::Staged;
pub use store::{Store, StoreFault};

#[cfg(test)]
mod commits;
#[cfg(test)]
mod interrupted;
#[cfg(test)]
mod lending;
#[cfg(test)]
mod steps;
#[cfg(test)]
mod tests;
#[cfg(test)]
mod widest_slot;
