//! What the database promises: the service as a value, what a line says, what each request does to
//! the service and is answered, what a whole run is, and what one tenant sees of it. Nothing here
//! runs; the functions have empty bodies, and their contracts are the laws of these definitions.
#![tactic(auto)]

mod laws;
mod parts;

pub use laws::{
    each_line_says_one_thing, each_reply_prints_something, each_text_says_something, isolation,
    read_commands_are_well_formed, refused_lines_change_nothing, schema_steps_are_the_catalogues,
    two_worlds, unread_lines_need_no_service,
};
pub use parts::{
    empty_services_have_no_parts, extended_rows_are_sound, inserted_rows_are_parts,
    parts_tell_the_service, schema_steps_keep_the_parts,
};
