//! Tests of a catalogue: whether it keeps the rules, and whether it has each of some slots. It promises
//! that both are told exactly as they are defined.
#![tactic(auto)]

mod members;
mod owned;
mod rules;
mod tenant_rules;

pub use owned::{SlotMap, has_slots};
pub use tenant_rules::is_catalogue;
