//! Folds: in which chunk and field each column of a tenant's table lies, and in which fold each of its
//! rows. It promises that `valid` tells exactly the folds that fit a table, that each column of each
//! Row has the one place that `place_of` gives, that a fold to which the chunks of an extension are
//! added fits the extended table, and that the cheapest cover of some columns is one list of shapes.
#![tactic(auto)]

mod extend;
mod fold;
mod laws;
mod place;
mod shape;
mod text;
mod validity;

pub use extend::extend_fold;
pub use fold::{Fold, Place, Placement, Places};
pub use laws::{
    covers_are_determined, covers_are_filled, each_cover_is_one, extended_folds_are_valid,
};
pub use place::place_of;
pub use shape::{Shape, Shapes};
pub use text::fold_text;
pub use validity::{valid, valid_placement};

#[cfg(test)]
mod tests;
#[cfg(test)]
mod tests_text;
