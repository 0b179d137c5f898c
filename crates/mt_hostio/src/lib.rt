//! The real outside: two files in the current folder, standard output and standard input, behind the
//! traits of `mt_machine`. It promises that each fault is counted; of what a file holds or a terminal
//! gets it tells nothing, since no contract can. This crate is the trusted edge of the database.
#![tactic(auto)]

mod files;
mod folder;
mod folder_machine;
mod lock;
mod stdin_source;
mod syncer;

pub use folder_machine::FolderMachine;
pub use lock::Lock;
pub use stdin_source::StdinSource;
pub use syncer::{SyncedAside, Syncer};

#[cfg(test)]
mod tests;
