ghost use Rattle.mt_reader.specs.Taken.{TakesInside};
ghost use Rattle.mt_adminlang.specs.Descent.{extend_of, set_quota_of, advise_of, show_fold_of, refold_of, step_of, plain_command_of};
ghost use Rattle.mt_adminlang.specs.Inside.{IsCommandInside};

use crate::create::create;
use crate::fold::fold;
use mt_reader::{ReadFault, Reader, size_of};
use mt_tree::AdminCmd;
use std::alloc::Global;

/// Takes a command that is no EXPLAIN; `None` is one with a number outside 64 bits, here and below.
#[tactic(auto, unfolding(crate::specs::Descent::plain_command_of))]
pub(crate) fn plain_command(
    alloc: Global,
    reader: &mut Reader<'_>,
) -> Result<Option<AdminCmd>, ReadFault>
    ensures { TakesInside IsCommandInside result reader.new (plain_command_of reader.old) }
{
    if reader.takes_word(b"create") {
        return create(alloc, reader);
    }
    if reader.takes_word(b"extend") {
        return extend(alloc, reader);
    }
    if reader.takes_word(b"set") {
        return set_quota(reader);
    }
    if reader.takes_word(b"advise") {
        return advise(alloc, reader);
    }
    if reader.takes_word(b"show") {
        return show_fold(alloc, reader);
    }
    if reader.takes_word(b"refold") {
        return refold(alloc, reader);
    }
    reader.word(b"step")?;
    step(alloc, reader)
}

/// Takes what stands behind EXTEND.
#[tactic(auto, unfolding(crate::specs::Descent::extend_of))]
fn extend(alloc: Global, reader: &mut Reader<'_>) -> Result<Option<AdminCmd>, ReadFault>
    ensures { TakesInside IsCommandInside result reader.new (extend_of reader.old) }
{
    let tenant = size_of(reader.number()?);
    reader.word(b"with")?;
    let extension = reader.name(alloc)?;
    match tenant {
        Some(tenant) => Ok(Some(AdminCmd::Extend { tenant, extension })),
        None => Ok(None),
    }
}

/// Takes what stands behind SET.
#[tactic(auto, unfolding(crate::specs::Descent::set_quota_of))]
fn set_quota(reader: &mut Reader<'_>) -> Result<Option<AdminCmd>, ReadFault>
    ensures { TakesInside IsCommandInside result reader.new (set_quota_of reader.old) }
{
    reader.word(b"quota")?;
    let tenant = size_of(reader.number()?);
    reader.word(b"to")?;
    let quota = size_of(reader.number()?);
    match (tenant, quota) {
        (Some(tenant), Some(quota)) => Ok(Some(AdminCmd::SetQuota { tenant, quota })),
        _ => Ok(None),
    }
}

/// Takes what stands behind ADVISE.
#[tactic(auto, unfolding(crate::specs::Descent::advise_of))]
fn advise(alloc: Global, reader: &mut Reader<'_>) -> Result<Option<AdminCmd>, ReadFault>
    ensures { TakesInside IsCommandInside result reader.new (advise_of reader.old) }
{
    let tenant = size_of(reader.number()?);
    let table = reader.name(alloc)?;
    match tenant {
        Some(tenant) => Ok(Some(AdminCmd::Advise { tenant, table })),
        None => Ok(None),
    }
}

/// Takes what stands behind SHOW.
#[tactic(auto, unfolding(crate::specs::Descent::show_fold_of))]
fn show_fold(alloc: Global, reader: &mut Reader<'_>) -> Result<Option<AdminCmd>, ReadFault>
    ensures { TakesInside IsCommandInside result reader.new (show_fold_of reader.old) }
{
    reader.word(b"fold")?;
    let tenant = size_of(reader.number()?);
    let table = reader.name(alloc)?;
    match tenant {
        Some(tenant) => Ok(Some(AdminCmd::ShowFold { tenant, table })),
        None => Ok(None),
    }
}

/// Takes what stands behind REFOLD.
#[tactic(auto, unfolding(crate::specs::Descent::refold_of))]
fn refold(alloc: Global, reader: &mut Reader<'_>) -> Result<Option<AdminCmd>, ReadFault>
    ensures { TakesInside IsCommandInside result reader.new (refold_of reader.old) }
{
    let tenant = size_of(reader.number()?);
    let table = reader.name(alloc)?;
    reader.word(b"to")?;
    let fold = fold(alloc, reader)?;
    match tenant {
        Some(tenant) => Ok(Some(AdminCmd::Refold {
            tenant,
            table,
            fold,
        })),
        None => Ok(None),
    }
}

/// Takes what stands behind STEP.
#[tactic(auto, unfolding(crate::specs::Descent::step_of))]
fn step(alloc: Global, reader: &mut Reader<'_>) -> Result<Option<AdminCmd>, ReadFault>
    ensures { TakesInside IsCommandInside result reader.new (step_of reader.old) }
{
    let tenant = size_of(reader.number()?);
    let table = reader.name(alloc)?;
    let rows = size_of(reader.number()?);
    match (tenant, rows) {
        (Some(tenant), Some(rows)) => Ok(Some(AdminCmd::Step {
            tenant,
            table,
            rows,
        })),
        _ => Ok(None),
    }
}
