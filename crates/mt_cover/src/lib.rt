//! The cheapest chunks for the columns of an extension. It promises that `cover` gives the one list of
//! shapes that holds so many columns at the least price.
#![tactic(auto)]

mod covers;
mod prices;
mod wanted;

pub use covers::cover;

#[cfg(test)]
mod tests;
