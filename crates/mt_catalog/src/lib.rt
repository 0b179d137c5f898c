//! The catalogue: base tables, extensions and tenants, and how the rows of each tenant's table lie, as
//! a value and as the slots of the disk. It says which slots a catalogue has and which rules it keeps,
//! and promises that no slots are those of two catalogues.
#![tactic(auto)]

mod catalog;
mod laws;
mod state;

pub use catalog::Catalog;
pub use laws::catalogs_are_determined;
pub use state::{CatBodies, Extension, Numbers, TenantEntry, TenantTable};
