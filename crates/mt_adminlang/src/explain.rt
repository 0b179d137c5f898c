ghost use Rattle.mt_reader.specs.Taken.{TakesInside};
ghost use Rattle.mt_adminlang.specs.Descent.{explain_of, command_of};
ghost use Rattle.mt_adminlang.specs.Inside.{IsCommandInside};

use crate::command::plain_command;
use mt_statements::read_select;
use mt_reader::{ReadFault, Reader, size_of};
use mt_tree::AdminCmd;
use std::alloc::Global;

/// Takes a command, up to the end of the tokens or a semicolon that ends them; `None` is one with a
/// number outside 64 bits, here and below.
#[tactic(auto, unfolding(crate::specs::Descent::command_of))]
pub(crate) fn command(alloc: Global, reader: &mut Reader<'_>) -> Result<Option<AdminCmd>, ReadFault>
    ensures { TakesInside IsCommandInside result reader.new (command_of reader.old) }
{
    if reader.takes_word(b"explain") {
        return explain(alloc, reader);
    }
    plain_command(alloc, reader)
}

/// Takes what stands behind EXPLAIN.
#[tactic(auto, unfolding(crate::specs::Descent::explain_of))]
fn explain(alloc: Global, reader: &mut Reader<'_>) -> Result<Option<AdminCmd>, ReadFault>
    ensures { TakesInside IsCommandInside result reader.new (explain_of reader.old) }
{
    let tenant = size_of(reader.number()?);
    let select = read_select(alloc, reader)?;
    match (tenant, select) {
        (Some(tenant), Some(select)) => Ok(Some(AdminCmd::Explain { tenant, select })),
        _ => Ok(None),
    }
}
