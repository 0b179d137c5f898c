ghost use Rattle.std.specs.Prelude.{◌≡◌};
ghost use Rattle.mt_reader.specs.Fronts.{TakesFront, BeginsWithNone};
ghost use Rattle.mt_reader.specs.Taken.{Keeps, TakesInside};
ghost use Rattle.mt_terms.specs.Condition.{SpellsCond};
ghost use Rattle.mt_terms.specs.Descent.{expr_of, cond_of};
ghost use Rattle.mt_terms.specs.Expression.{SpellsExpr};
ghost use Rattle.mt_terms.specs.Follow.{expr_goes_on, cond_goes_on};
ghost use Rattle.mt_terms.specs.Inside.{IsExprInside, IsCondInside};

use crate::logic::condition;
use crate::sum::expression;
use mt_reader::{ReadFault, Reader};
use mt_tree::{Cond, Expr};
use std::alloc::Global;

/// Takes an expression: the front of all those that spell one with nothing behind them that goes on with
/// it. `Unread` says that there is none, and `None` that a number is outside 64 bits, here and below. The
/// second clause is for the readers of longer forms.
pub fn read_expression(alloc: Global, reader: &mut Reader<'_>) -> Result<Option<Expr>, ReadFault>
    ensures spelled { TakesFront SpellsExpr (BeginsWithNone expr_goes_on) (Keeps IsExprInside) result reader.old reader.new }
    ensures taken { TakesInside IsExprInside result reader.new (expr_of reader.old) }
{
    expression(alloc, reader)
}

/// Takes a condition, in the same way.
pub fn read_condition(alloc: Global, reader: &mut Reader<'_>) -> Result<Option<Cond>, ReadFault>
    ensures spelled { TakesFront SpellsCond (BeginsWithNone cond_goes_on) (Keeps IsCondInside) result reader.old reader.new }
    ensures taken { TakesInside IsCondInside result reader.new (cond_of reader.old) }
{
    condition(alloc, reader)
}
