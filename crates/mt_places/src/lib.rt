//! Where the slots stand that a group of changes names, and where free slots are to be had: what is
//! learned by looking once through the pages of the tables that the changes name. It promises that
//! each key that is asked for has the place where it stands, or none where it stands nowhere, and
//! that the free positions are those of the pages in their order, no more than there are slots to put.
//! Its memory grows with the changes, not with the tables.
#![tactic(auto)]

mod body_places;
mod named;
mod places;
mod row_places;
mod table_list;
mod table_places;
mod walk;

pub use places::Places;

#[cfg(test)]
mod tests;
