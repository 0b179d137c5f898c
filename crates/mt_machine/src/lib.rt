//! The outside as the database sees it: two areas of bytes and an output behind `Machine`, and an
//! input behind `Source`. The contracts of these traits say what each call does where the value
//! tells its content, what a stop now or since an earlier moment may have left where it tells its
//! moments, and that a fault comes only where the value's own count of faults rose. The machines and
//! sources in memory meet the traits and tell everything, but for `QuietMachine`, which tells no
//! moments. A `MemMachine` gives what a stop within any of its calls leaves.
#![tactic(auto)]

mod contents;
mod cursor;
mod fails;
mod front;
mod image;
mod machine;
mod mem_machine;
mod mem_source;
mod quiet_machine;
mod recording;
mod schedule;
mod source;
mod steady_machine;
mod steady_source;
mod step;
mod stop;

pub use fails::{CallKind, FailList};
pub use machine::{Area, Failed, Machine};
pub use mem_machine::MemMachine;
pub use mem_source::MemSource;
pub use quiet_machine::QuietMachine;
pub use source::Source;
pub use steady_machine::SteadyMachine;
pub use steady_source::SteadySource;
pub use stop::{Fill, Stopped};

/// A list of bytes.
pub type Bytes = mt_list::List<u8>;

#[cfg(test)]
mod tests;
