ghost use Rattle.mt_reader.specs.Descent.{ended};
ghost use Rattle.mt_reader.specs.Reading.{Gives};
ghost use Rattle.mt_reader.specs.Taken.{Answers};
ghost use Rattle.mt_adminlang.specs.Command.{SpellsCommand};
ghost use Rattle.mt_adminlang.specs.Descent.{command_of};
ghost use Rattle.mt_adminlang.specs.Inside.{IsCommandInside};

use crate::explain::command;
use mt_lexer::tokens;
use mt_reader::{ParseFault, Reader};
use mt_tree::AdminCmd;
use std::alloc::Global;

/// The command that a text says. `Syntax` exactly where it has no reading, `Literal` exactly where it
/// has one with a number outside 64 bits; `Memory` says nothing of the text.
pub fn parse_admin(alloc: Global, text: &str) -> Result<AdminCmd, ParseFault>
    ensures { Gives SpellsCommand IsCommandInside text.now result }
{
    let found = tokens(alloc, text)?;
    whole(alloc, Reader::new(text, found.as_slice()))
}

/// The command that is left, and nothing behind it.
fn whole(alloc: Global, mut reader: Reader<'_>) -> Result<AdminCmd, ParseFault>
    ensures { Answers IsCommandInside result (ended (command_of reader.entry)) }
{
    let read = command(alloc, &mut reader)?;
    reader.end()?;
    read.ok_or(ParseFault::Literal)
}
