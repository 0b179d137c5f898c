ghost use Rattle.std.specs.Prelude.{◌≡◌, option_map};
ghost use Rattle.mt_reader.specs.Taken.{TakesInside};
ghost use Rattle.mt_statements.specs.ChangeDescent.{assigned, update_of};
ghost use Rattle.mt_statements.specs.ChangeInside.{IsChangeInside};

use mt_lexer::Symbol;
use mt_reader::{Production, ReadFault, Reader, optional, separated};
use mt_terms::{ConditionForm, ExpressionForm};
use mt_tree::{Expr, SetItem, Stmt, Update};
use mt_value::Str;
use std::alloc::Global;

/// An assignment, as an item of a list.
enum SetForm {}

impl Production for SetForm {
    ghost use Rattle.mt_statements.specs.ChangeDescent.{set_of};
    ghost use Rattle.mt_statements.specs.ChangeInside.{IsSetInside};

    type Tree = SetItem;

    ghost read = { set_of };

    ghost is_inside = { IsSetInside };

    #[tactic(auto, unfolding(crate::specs::ChangeDescent::set_of))]
    fn take(alloc: Global, reader: &mut Reader<'_>) -> Result<Option<SetItem>, ReadFault> {
        let column = reader.name(alloc)?;
        reader.symbol(Symbol::Equal)?;
        let expr = ExpressionForm::take(alloc, reader)?;
        Ok(assignment(column, expr))
    }
}

/// The assignment of this to a column.
fn assignment(column: Str, expr: Option<Expr>) -> Option<SetItem>
    ensures { result ≡ option_map (assigned column) expr }
{
    Some(SetItem {
        column,
        expr: expr?,
    })
}

/// Takes what stands behind UPDATE; `None` is for a number outside 64 bits.
#[tactic(auto, unfolding(crate::specs::ChangeDescent::update_of))]
pub(crate) fn update(alloc: Global, reader: &mut Reader<'_>) -> Result<Option<Stmt>, ReadFault>
    ensures { TakesInside IsChangeInside result reader.new (update_of reader.old) }
{
    let table = reader.name(alloc)?;
    reader.word(b"set")?;
    let sets = separated::<SetForm>(alloc, reader)?;
    let cond = optional::<ConditionForm>(alloc, reader, b"where")?;
    match (sets, cond) {
        (Some(sets), Some(cond)) => Ok(Some(Stmt::Update(Update { table, sets, cond }))),
        _ => Ok(None),
    }
}
