//! What the bytes of the pages mean: where slots stand, what they say, and the rows and the catalogue
//! that all of them hold, as finite maps. There is no code in it: the store, the opening's checks and
//! all above read the disk by these definitions. Its lemmas say what one range of a group, or a new
//! page, changes, and that a walk over the slots finds what the map holds.
#![tactic(auto)]

mod laws;

pub use laws::{slots_lie_within_pages, walks_find_rows};
