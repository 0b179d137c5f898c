//! The fields of a slot: the bytes of each kind of value, all numbers little-endian. It promises that
//! a field's bytes and its value are one: what is written is read again, and bytes are refused
//! exactly where they spell no value.
#![tactic(auto)]

mod field;
mod laws;

pub use field::{FieldFault, FieldKind, check_field, read_field, width, write_field};
pub use laws::fields_and_values_are_one;

#[cfg(test)]
mod tests;
