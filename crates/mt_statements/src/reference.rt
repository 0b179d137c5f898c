ghost use Rattle.std.specs.Prelude.{◌≡◌, Some, None};
ghost use Rattle.std.specs.List.{All};
ghost use Rattle.mt_statements.specs.QueryDescent.{alias_of, table_reference_of, start_of, joined_reference_of, following_of, refs_of};
ghost use Rattle.mt_statements.specs.QueryInside.{IsRefInside};
ghost use Rattle.mt_reader.specs.Taken.{TakesExactly, TakesInside};

use crate::name::as_name;
use mt_lexer::Symbol;
use mt_list::List;
use mt_reader::{ReadFault, Reader, pushed};
use mt_terms::read_condition;
use mt_tree::Ref;
use mt_value::Str;
use std::alloc::Global;

/// How many references may stand behind the first.
const ROOM: usize = 3;

/// How a reference behind the first begins.
#[derive(Clone, Copy)]
pub(crate) enum Start {
    Listed,
    Joined,
}

/// Takes references, one or more; `None` is for a number outside 64 bits, here and below.
pub(crate) fn references(
    alloc: Global,
    reader: &mut Reader<'_>,
) -> Result<Option<List<Ref>>, ReadFault>
    ensures { TakesInside (All IsRefInside) result reader.new (refs_of reader.old) }
{
    let first = table(alloc, reader)?;
    let mut refs = pushed(Some(List::new(alloc)), Some(first))?;
    let mut room = ROOM;
    while let Some(start) = next_start(reader)? {
        if room == 0 {
            return Err(ReadFault::Unread);
        }
        room -= 1;
        refs = pushed(refs, following(alloc, reader, start)?)?;
    }
    Ok(refs)
}

/// Takes what one more reference begins with, if there is one.
#[tactic(auto, unfolding(crate::specs::QueryDescent::start_of))]
fn next_start(reader: &mut Reader<'_>) -> Result<Option<Start>, ReadFault>
    ensures { TakesExactly result (λ start. (start, reader.new)) (start_of reader.old) }
{
    if reader.takes_symbol(Symbol::Comma) {
        return Ok(Some(Start::Listed));
    }
    if reader.takes_word(b"inner") {
        reader.word(b"join")?;
        return Ok(Some(Start::Joined));
    }
    if reader.takes_word(b"join") {
        return Ok(Some(Start::Joined));
    }
    Ok(None)
}

/// Takes a reference behind the first.
#[tactic(auto, unfolding(crate::specs::QueryDescent::following_of))]
fn following(alloc: Global, reader: &mut Reader<'_>, start: Start) -> Result<Option<Ref>, ReadFault>
    ensures { TakesInside IsRefInside result reader.new (following_of start reader.old) }
{
    match start {
        Start::Listed => Ok(Some(table(alloc, reader)?)),
        Start::Joined => joined(alloc, reader),
    }
}

/// Takes a table, ON and a condition.
#[tactic(auto, unfolding(crate::specs::QueryDescent::joined_reference_of))]
fn joined(alloc: Global, reader: &mut Reader<'_>) -> Result<Option<Ref>, ReadFault>
    ensures { TakesInside IsRefInside result reader.new (joined_reference_of reader.old) }
{
    let table = table(alloc, reader)?;
    reader.word(b"on")?;
    match read_condition(alloc, reader)? {
        Some(on) => Ok(Some(Ref {
            table: table.table,
            alias: table.alias,
            on: Some(on),
        })),
        None => Ok(None),
    }
}

/// Takes a table, and its alias, if there is one.
#[tactic(auto, unfolding(crate::specs::QueryDescent::table_reference_of))]
fn table(alloc: Global, reader: &mut Reader<'_>) -> Result<Ref, ReadFault>
    ensures { TakesExactly result (λ ref. (ref, reader.new)) (table_reference_of reader.old) }
{
    let table = reader.name(alloc)?;
    let alias = alias(alloc, reader)?;
    Ok(Ref {
        table,
        alias,
        on: None,
    })
}

/// Takes a name, with AS or without, if there is one.
#[tactic(auto, unfolding(crate::specs::QueryDescent::alias_of))]
fn alias(alloc: Global, reader: &mut Reader<'_>) -> Result<Option<Str>, ReadFault>
    ensures { TakesExactly result (λ alias. (alias, reader.new)) (alias_of reader.old) }
{
    if reader.begins_with_name() {
        return Ok(Some(reader.name(alloc)?));
    }
    as_name(alloc, reader)
}
