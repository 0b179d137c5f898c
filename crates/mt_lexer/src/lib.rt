//! The tokens of a statement or command: words, numbers, texts in quotes and symbols, the longest
//! first, with spaces and tabs between them; and which words are reserved, and so name nothing. It
//! promises that the tokens are the text's, in order, and that a text is refused exactly where no
//! token stands, or for want of memory.
#![tactic(auto)]

mod laws;
mod piece;
mod scan;
#[cfg(test)]
mod tests;
mod token;
mod words;

pub use laws::tokens_are_determined;
pub use scan::{LexFault, tokens};
pub use token::{Symbol, Token, TokenKind, Tokens};
pub use words::{has_capitals, is_name, is_reserved, is_same_word};
