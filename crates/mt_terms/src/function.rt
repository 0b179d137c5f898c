ghost use Rattle.std.specs.Prelude.{◌≡◌};
ghost use Rattle.mt_reader.specs.Taken.{TakesExactly};
ghost use Rattle.mt_terms.specs.Descent.{counted_of, agg_of};

use crate::name::{argument, column};
use crate::parts::closed;
use mt_lexer::Symbol;
use mt_reader::{ReadFault, Reader};
use mt_tree::Agg;
use std::alloc::Global;

/// Takes an aggregate.
#[tactic(auto, unfolding(crate::specs::Descent::agg_of))]
pub(crate) fn aggregate(alloc: Global, reader: &mut Reader<'_>) -> Result<Agg, ReadFault>
    ensures { TakesExactly result (λ agg. (agg, reader.new)) (agg_of reader.old) }
{
    if reader.takes_word(b"count") {
        return counted(alloc, reader);
    }
    if reader.takes_word(b"sum") {
        return Ok(Agg::Sum(argument(alloc, reader)?));
    }
    if reader.takes_word(b"min") {
        return Ok(Agg::Min(argument(alloc, reader)?));
    }
    reader.word(b"max")?;
    Ok(Agg::Max(argument(alloc, reader)?))
}

/// Takes what stands behind COUNT: the star or a column, in brackets.
#[tactic(auto, unfolding(crate::specs::Descent::counted_of))]
fn counted(alloc: Global, reader: &mut Reader<'_>) -> Result<Agg, ReadFault>
    ensures { TakesExactly result (λ agg. (agg, reader.new)) (counted_of reader.old) }
{
    reader.symbol(Symbol::Open)?;
    if reader.takes_symbol(Symbol::Star) {
        reader.symbol(Symbol::Close)?;
        return Ok(Agg::CountAll);
    }
    let column = column(alloc, reader)?;
    Ok(Agg::Count(closed(reader, column)?))
}
