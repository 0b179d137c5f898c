ghost use Rattle.std.specs.Prelude.{◌≡◌, [], ◌∷◌};
ghost use Rattle.mt_lexer.specs.Tokens.{Sign};
ghost use Rattle.mt_reader.specs.Taken.{TakesExactly};
ghost use Rattle.mt_reader.specs.Descent.{bracketed_of};
ghost use Rattle.mt_terms.specs.Descent.{column_of};

use crate::parts::closed;
use mt_lexer::Symbol;
use mt_reader::{ReadFault, Reader};
use mt_tree::ColName;
use std::alloc::Global;

/// Takes a column: a name, or a table's name, a dot and a name.
#[tactic(auto, unfolding(crate::specs::Descent::column_of))]
#[inline(always)]
pub(crate) fn column(alloc: Global, reader: &mut Reader<'_>) -> Result<ColName, ReadFault>
    ensures { TakesExactly result (λ column. (column, reader.new)) (column_of reader.old) }
{
    let first = reader.name(alloc)?;
    if !reader.takes_symbol(Symbol::Dot) {
        return Ok(ColName {
            qualifier: None,
            name: first,
        });
    }
    let name = reader.name(alloc)?;
    Ok(ColName {
        qualifier: Some(first),
        name,
    })
}

/// Takes a column in brackets.
#[tactic(auto, unfolding(mt_reader::specs::Descent::bracketed_of))]
pub(crate) fn argument(alloc: Global, reader: &mut Reader<'_>) -> Result<ColName, ReadFault>
    ensures { TakesExactly result (λ column. (column, reader.new)) (bracketed_of column_of reader.old) }
{
    reader.symbol(Symbol::Open)?;
    let column = column(alloc, reader)?;
    closed(reader, column)
}
