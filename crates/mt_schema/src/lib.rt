//! The schema steps in words: CREATE TABLE, CREATE EXTENSION, CREATE TENANT, EXTEND and SET QUOTA, the
//! catalogue after each, their first refusal in the administrator's order, and the slots of a catalogue
//! by their keys. It promises that `refusal` gives the first refusal of a step and `written` the bodies
//! of the slots that a catalogue has with some keys; that the catalogue after a step that is not refused
//! keeps the rules; and that the slots with the keys that the step changes turn those of the catalogue
//! before into those of the one after.
#![tactic(auto)]

mod bodies;
mod laws;
mod lookup;
mod names;
mod refusals;
mod slots;

pub use bodies::written;
pub use laws::{changed_slots_turn_the_catalogue, schema_steps_keep_the_rules, slots_are_sayable};
pub use lookup::{
    cover_for, extension_named, extension_number, has_name, member, quota_of, table_number,
    tenant_entry, tenant_of, tenant_table,
};
pub use refusals::refusal;
