ghost use Rattle.std.specs.Prelude.{All};
ghost use Rattle.mt_reader.specs.Taken.{TakesInside};
ghost use Rattle.mt_statements.specs.ChangeDescent.{few_tuples_of};
ghost use Rattle.mt_statements.specs.ChangeInside.{IsTupleInside};

use mt_lexer::Symbol;
use mt_list::List;
use mt_reader::{LiteralForm, Production, ReadFault, Reader, bracketed, pushed};
use mt_tree::Tuple;
use std::alloc::Global;

/// How many tuples an INSERT has at most.
const TUPLES: usize = 1000;

/// A tuple, as an item of a list.
enum TupleForm {}

impl Production for TupleForm {
    ghost use Rattle.mt_statements.specs.ChangeDescent.{tuple_of};
    ghost use Rattle.mt_statements.specs.ChangeInside.{IsTupleInside};

    type Tree = Tuple;

    ghost read = { tuple_of };

    ghost is_inside = { IsTupleInside };

    #[tactic(auto, unfolding(crate::specs::ChangeDescent::tuple_of))]
    fn take(alloc: Global, reader: &mut Reader<'_>) -> Result<Option<Tuple>, ReadFault> {
        bracketed::<LiteralForm>(alloc, reader)
    }
}

/// Takes the tuples of an INSERT; `None` is for a number outside 64 bits.
pub(crate) fn tuples(
    alloc: Global,
    reader: &mut Reader<'_>,
) -> Result<Option<List<Tuple>>, ReadFault>
    ensures { TakesInside (All IsTupleInside) result reader.new (few_tuples_of 1000 reader.old) }
{
    few_tuples(alloc, reader, TUPLES)
}

/// Takes so many tuples at most. They are counted also where a number outside 64 bits was met, since
/// then too many are no INSERT all the same.
fn few_tuples(
    alloc: Global,
    reader: &mut Reader<'_>,
    limit: usize,
) -> Result<Option<List<Tuple>>, ReadFault>
    ensures { TakesInside (All IsTupleInside) result reader.new (few_tuples_of limit reader.old) }
{
    let mut tuples = Some(List::new(alloc));
    for _ in 0..limit {
        tuples = pushed(tuples, TupleForm::take(alloc, reader)?)?;
        if !reader.takes_symbol(Symbol::Comma) {
            return Ok(tuples);
        }
    }
    Err(ReadFault::Unread)
}
