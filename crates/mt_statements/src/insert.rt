ghost use Rattle.mt_reader.specs.Taken.{TakesInside};
ghost use Rattle.mt_statements.specs.ChangeDescent.{insert_of, columns_of};
ghost use Rattle.mt_statements.specs.ChangeInside.{IsChangeInside};

use crate::tuples::tuples;
use mt_lexer::Symbol;
use mt_list::List;
use mt_reader::{NameForm, ReadFault, Reader, separated};
use mt_tree::{Insert, Names, Stmt};
use std::alloc::Global;

/// Takes what stands behind INSERT; `None` is for a number outside 64 bits.
#[tactic(auto, unfolding(crate::specs::ChangeDescent::insert_of))]
pub(crate) fn insert(alloc: Global, reader: &mut Reader<'_>) -> Result<Option<Stmt>, ReadFault>
    ensures { TakesInside IsChangeInside result reader.new (insert_of reader.old) }
{
    reader.word(b"into")?;
    let table = reader.name(alloc)?;
    let columns = columns(alloc, reader)?;
    reader.word(b"values")?;
    let tuples = tuples(alloc, reader)?;
    match (columns, tuples) {
        (Some(columns), Some(tuples)) => Ok(Some(Stmt::Insert(Insert {
            table,
            columns,
            tuples,
        }))),
        _ => Ok(None),
    }
}

/// Takes names in brackets, if a bracket opens; no names are for none.
#[tactic(auto, unfolding(crate::specs::ChangeDescent::columns_of))]
fn columns(alloc: Global, reader: &mut Reader<'_>) -> Result<Option<Names>, ReadFault>
    ensures { TakesInside (λ _. Unit {0}) result reader.new (columns_of reader.old) }
{
    if !reader.takes_symbol(Symbol::Open) {
        return Ok(Some(List::new(alloc)));
    }
    let names = separated::<NameForm>(alloc, reader)?;
    reader.symbol(Symbol::Close)?;
    Ok(names)
}
