ghost use Rattle.mt_reader.specs.Taken.{TakesInside};
ghost use Rattle.mt_statements.specs.ChangeDescent.{filter_of};
ghost use Rattle.mt_statements.specs.ChangeInside.{IsFilterInside};

use mt_reader::{ReadFault, Reader, optional};
use mt_terms::ConditionForm;
use mt_tree::Filter;
use std::alloc::Global;

/// Takes a table, and perhaps a condition behind WHERE; `None` is for a number outside 64 bits.
#[tactic(auto, unfolding(crate::specs::ChangeDescent::filter_of))]
pub(crate) fn filter(alloc: Global, reader: &mut Reader<'_>) -> Result<Option<Filter>, ReadFault>
    ensures { TakesInside IsFilterInside result reader.new (filter_of reader.old) }
{
    let table = reader.name(alloc)?;
    let cond = optional::<ConditionForm>(alloc, reader, b"where")?;
    match cond {
        Some(cond) => Ok(Some(Filter { table, cond })),
        None => Ok(None),
    }
}
