//! Physical tables, as the layers above the store see them: slots by their keys, what a scan of one
//! table asks for, changes of slots, and the trait of what can be scanned, with its plainest
//! implementation in memory. It promises that a scan gives the slots that it asks for in order of
//! Row, counts for its own table alone, and leaves the slots as they are.
#![tactic(auto)]

mod change;
mod counts;
mod key;
mod list_phys;
mod phys;
mod scan;
mod slot_map;

pub use change::{Change, Changes};
pub use counts::ScanCounts;
pub use key::{Cell, Key};
pub use list_phys::ListPhys;
pub use phys::{Phys, PhysFault};
pub use scan::Scan;
pub use slot_map::SlotMap;

#[cfg(test)]
mod tests;
