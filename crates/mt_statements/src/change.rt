ghost use Rattle.mt_reader.specs.Fronts.{AtEnd, TakesFront};
ghost use Rattle.mt_reader.specs.Taken.{Keeps, TakesInside};
ghost use Rattle.mt_statements.specs.Change.{SpellsChange};
ghost use Rattle.mt_statements.specs.ChangeDescent.{change_of};
ghost use Rattle.mt_statements.specs.ChangeInside.{IsChangeInside};

use crate::filter::filter;
use crate::insert::insert;
use crate::update::update;
use mt_reader::{ReadFault, Reader};
use mt_tree::Stmt;
use std::alloc::Global;

/// Takes a statement that changes rows from the front of the tokens; `None` is one with a number
/// outside 64 bits. Where such a statement has nothing behind it but perhaps a semicolon, it is that
/// one which is taken. The second clause is for the readers of longer forms.
///
/// `ReadFault::Unread` says that no such statement is there, and `ReadFault::Memory` that memory ran
/// out; what an error leaves of the tokens is not said.
pub fn read_change(alloc: Global, reader: &mut Reader<'_>) -> Result<Option<Stmt>, ReadFault>
    ensures spelled { TakesFront SpellsChange AtEnd (Keeps IsChangeInside) result reader.old reader.new }
    ensures taken { TakesInside IsChangeInside result reader.new (change_of reader.old) }
{
    change(alloc, reader)
}

/// Takes a statement by its first word.
#[tactic(auto, unfolding(crate::specs::ChangeDescent::change_of))]
fn change(alloc: Global, reader: &mut Reader<'_>) -> Result<Option<Stmt>, ReadFault>
    ensures { TakesInside IsChangeInside result reader.new (change_of reader.old) }
{
    if reader.takes_word(b"insert") {
        return insert(alloc, reader);
    }
    if reader.takes_word(b"update") {
        return update(alloc, reader);
    }
    if reader.takes_word(b"delete") {
        reader.word(b"from")?;
        return Ok(filter(alloc, reader)?.map(Stmt::Delete));
    }
    if reader.takes_word(b"restore") {
        return Ok(filter(alloc, reader)?.map(Stmt::Restore));
    }
    reader.word(b"purge")?;
    Ok(filter(alloc, reader)?.map(Stmt::Purge))
}
