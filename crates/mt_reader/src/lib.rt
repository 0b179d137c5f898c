//! What every reader of the language shares: the tokens that are left, words, names, numbers, texts,
//! literals, and lists with commas. It promises that each reader takes exactly what the functions of
//! specs/Descent read and else fails, and tells a number outside 64 bits apart while the reading goes
//! on. That these functions read the forms of the grammar is shown by the crates above, form by form.
#![tactic(auto)]

mod digits;
mod fault;
mod literal;
mod parse;
mod piece;
mod production;
mod reader;

pub use digits::{integer_of, size_of};
pub use fault::ReadFault;
pub use literal::LiteralForm;
pub use parse::ParseFault;
pub use production::{NameForm, Production, bracketed, optional, pushed, separated};
pub use reader::Reader;

#[cfg(test)]
mod tests;
