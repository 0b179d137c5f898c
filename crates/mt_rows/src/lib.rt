//! The rows of a tenant's table, as the slots of the physical tables hold them: what is at each place,
//! the rows assembled from anchors and chunks, the rules that they keep, and what changes make of
//! them. It is a crate of definitions and laws. It promises that a scan gives the slots of its places
//! in order of Row, that rows stand by their anchors below `made`, that columns that are added to a
//! table read as NULL in every row, and that changes do to each place what they say.
#![tactic(auto)]

mod laws;

pub use laws::{
    all_slots_are_rows, applied_changes_are_changes, changed_slots, extended_rows_end_in_nulls,
    rows_stand_by_anchors, scans_are_rows,
};
