//! What a store keeps in memory of its disk: the layouts that are known, by table, and the directory,
//! which has the table of each page. It promises that each table has the layout of the definition, and
//! that a directory takes as many pages without memory as were reserved.
#![tactic(auto)]

mod directory;
mod layouts;

pub use directory::Directory;
pub use layouts::Layouts;

#[cfg(test)]
mod tests;
