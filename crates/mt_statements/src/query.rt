ghost use Rattle.std.specs.Prelude.{◌≡◌, Some};
ghost use Rattle.std.specs.List.{All};
ghost use Rattle.mt_lexer.specs.Tokens.{Word};
ghost use Rattle.mt_statements.specs.QueryDescent.{flag_of, select_of, select_with};
ghost use Rattle.mt_statements.specs.QueryInside.{IsItemInside, IsRefInside, IsSelectInside};
ghost use Rattle.mt_statements.specs.Query.{SpellsSelect};
ghost use Rattle.mt_statements.specs.Within.{IsClausesInside};
ghost use Rattle.mt_statements.specs.declared.clauses.Clauses.{Clauses};
ghost use Rattle.mt_reader.specs.Fronts.{TakesFront, AtEnd};
ghost use Rattle.mt_reader.specs.Taken.{Keeps, TakesInside};
ghost use Rattle.mt_tree.specs.declared.statement.Item.{Item};
ghost use Rattle.mt_tree.specs.declared.statement.Ref.{Ref};
ghost use Rattle.std.specs.Prelude.{codes, List};

use crate::clauses::{Clauses, take_clauses};
use crate::item::items;
use crate::reference::references;
use mt_list::List;
use mt_reader::{ReadFault, Reader};
use mt_tree::{Item, Ref, Select};
use std::alloc::Global;

/// Takes a SELECT from the front of the tokens; `None` is one with a number outside 64 bits. Where a
/// SELECT has nothing behind it but perhaps a semicolon, it is that one which is taken. The second
/// clause is for the readers of longer forms.
///
/// `ReadFault::Unread` says that no such SELECT is there, and `ReadFault::Memory` that memory ran out;
/// what an error leaves of the tokens is not said.
pub fn read_select(alloc: Global, reader: &mut Reader<'_>) -> Result<Option<Select>, ReadFault>
    ensures spelled { TakesFront SpellsSelect AtEnd (Keeps IsSelectInside) result reader.old reader.new }
    ensures taken { TakesInside IsSelectInside result reader.new (select_of reader.old) }
{
    select(alloc, reader)
}

/// Takes a SELECT.
#[tactic(auto, unfolding(crate::specs::QueryDescent::select_of))]
fn select(alloc: Global, reader: &mut Reader<'_>) -> Result<Option<Select>, ReadFault>
    ensures { TakesInside IsSelectInside result reader.new (select_of reader.old) }
{
    reader.word(b"select")?;
    let distinct = is_distinct(reader);
    let items = items(alloc, reader)?;
    reader.word(b"from")?;
    let refs = references(alloc, reader)?;
    let clauses = take_clauses(alloc, reader)?;
    Ok(selected(distinct, items, refs, clauses))
}

/// Takes DISTINCT, if it comes next: whether it does.
#[tactic(auto, unfolding(crate::specs::QueryDescent::flag_of))]
fn is_distinct(reader: &mut Reader<'_>) -> bool
    ensures { flag_of (Word (codes "distinct")) reader.old ≡ Some (result, reader.new) }
{
    if reader.takes_word(b"distinct") {
        return true;
    }
    false
}

/// The SELECT of these parts, if each of them is there.
fn selected(
    distinct: bool,
    items: Option<List<Item>>,
    refs: Option<List<Ref>>,
    clauses: Option<Clauses>,
) -> Option<Select>
    ensures { (item_trees : List Item) (ref_trees : List Ref) (tree : Clauses) → Keeps (All IsItemInside) items item_trees → Keeps (All IsRefInside) refs ref_trees → Keeps IsClausesInside clauses tree → Keeps IsSelectInside result (select_with distinct item_trees ref_trees tree) }
{
    let items = items?;
    let refs = refs?;
    let clauses = clauses?;
    Some(Select {
        distinct,
        items,
        refs,
        cond: clauses.cond,
        group: clauses.group,
        having: clauses.having,
        order: clauses.order,
        limit: clauses.limit,
    })
}
