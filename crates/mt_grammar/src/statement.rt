ghost use Rattle.std.specs.Prelude.{◌≡◌, option_map};
ghost use Rattle.mt_reader.specs.Reading.{Gives};
ghost use Rattle.mt_reader.specs.Taken.{Answers, TakesInside};
ghost use Rattle.mt_grammar.specs.Descent.{form_of, statement_of};
ghost use Rattle.mt_grammar.specs.Statement.{SpellsStmt, IsStmtInside};

use mt_lexer::tokens;
use mt_reader::{ParseFault, ReadFault, Reader};
use mt_statements::{read_change, read_select};
use mt_tree::{Select, Stmt};
use std::alloc::Global;

/// The statement that a text says. `Syntax` exactly where it has no reading, `Literal` exactly where
/// it has one with a number outside 64 bits; `Memory` says nothing of the text.
pub fn parse(alloc: Global, text: &str) -> Result<Stmt, ParseFault>
    ensures { Gives SpellsStmt IsStmtInside text.now result }
{
    let found = tokens(alloc, text)?;
    statement(alloc, Reader::new(text, found.as_slice()))
}

/// The statement that is left, and nothing behind it.
#[tactic(auto, unfolding(crate::specs::Descent::statement_of))]
fn statement(alloc: Global, mut reader: Reader<'_>) -> Result<Stmt, ParseFault>
    ensures { Answers IsStmtInside result (statement_of reader.entry) }
{
    let read = form(alloc, &mut reader)?;
    reader.end()?;
    read.ok_or(ParseFault::Literal)
}

/// Takes a statement; `None` is for a number outside 64 bits.
fn form(alloc: Global, reader: &mut Reader<'_>) -> Result<Option<Stmt>, ReadFault>
    ensures { TakesInside IsStmtInside result reader.new (form_of reader.old) }
{
    if !reader.is_at(b"select") {
        return read_change(alloc, reader);
    }
    let select = read_select(alloc, reader)?;
    Ok(selection(select))
}

/// A SELECT as a statement.
fn selection(select: Option<Select>) -> Option<Stmt>
    ensures { result ≡ option_map Stmt.Select select }
{
    Some(Stmt::Select(select?))
}
