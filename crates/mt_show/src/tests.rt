mod language;
mod sizes;
mod statements;
mod tokens;

use crate::show;
use mt_grammar::parse;
use mt_reader::ParseFault;
use std::alloc::{AllocError, Global};
use std::test::Fail;

/// How a text is read: the statement as it is shown, `syntax`, or `outside`.
fn reading(alloc: Global, text: &str) -> Result<String, Fail> {
    match parse(alloc, text) {
        Ok(statement) => Ok(String::from_str(alloc, show(alloc, &statement)?.as_str())?),
        Err(ParseFault::Syntax) => Ok(String::from_str(alloc, "syntax")?),
        Err(ParseFault::Literal) => Ok(String::from_str(alloc, "outside")?),
        Err(ParseFault::Memory) => Err(AllocError)?,
    }
}
