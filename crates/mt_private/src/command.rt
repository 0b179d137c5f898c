ghost use Rattle.std.specs.Prelude.{◌≡◌, ◌^◌, ◌<◌, codes, IfOk, OnOk, OnErr, Err, Some};
ghost use Rattle.mt_tree.specs.declared.code.Code.{Code as Refusal};
ghost use Rattle.mt_tree.specs.declared.command.AdminCmd.{AdminCmd};
ghost use Rattle.mt_catalog.specs.Rules.{IsCatalogue};
ghost use Rattle.mt_schema.specs.Refusals.{step_refusal};
ghost use Rattle.mt_schema.specs.Steps.{IsWellFormed};
ghost use Rattle.mt_prepare.specs.declared.prepared.StepFault.TheVariants as faults;
ghost use Rattle.mt_model.specs.Parts.{named_tenant};
ghost use Rattle.mt_model.specs.Request.{Command};
ghost use Rattle.mt_model.specs.Said.{Said, Says, IsCommandSaid};
ghost use Rattle.mt_model.specs.Service.{Service, kept_of};
ghost use Rattle.mt_private.specs.Kept.{AreKept};
ghost use Rattle.mt_private.specs.Outcome.{IsAnswered};
ghost use Rattle.mt_private.specs.Seen.{KeepsRows, kept_in};
ghost use Rattle.mt_private.specs.Stepped.{IsMade};

use crate::extend::step_rows;
use crate::kept::TenantRows;
use crate::said::{ServeFault, said_command};
use crate::seen::{lists_of, rows_at};
use mt_catalog::Catalog;
use mt_list::List;
use mt_model::{
    each_text_says_something, extended_rows_are_sound, parts_tell_the_service,
    read_commands_are_well_formed, schema_steps_keep_the_parts,
};
use mt_prepare::{StepFault, accept, prepare};
use mt_schema::tenant_of;
use mt_tree::{AdminCmd, Code, MarkedRow, Reply, ReplyText};
use std::alloc::Global;

/// Answers the administrator's line by the text behind its tag.
pub(crate) fn command(
    alloc: Global,
    catalog: &mut Catalog,
    rows: &mut TenantRows,
    text: &str,
) -> Reply
    requires { (service : Service) × AreKept catalog.old rows.old.entries service }
    ensures { (said : Said AdminCmd) × IsCommandSaid text.now said × IsAnswered catalog.old catalog.new rows.old.entries rows.new.entries (Command said) result }
{
    each_text_says_something();
    read_commands_are_well_formed();
    match said_command(alloc, text) {
        Ok(step) => schema_step(alloc, catalog, rows, &step),
        Err(ServeFault::Unread) => Reply::Refused(Code::Syntax),
        Err(ServeFault::Outside) => Reply::Refused(Code::NumberOutside64Bits),
        Err(ServeFault::Unserved) => Reply::Refused(Code::NotServed),
        Err(ServeFault::Memory) => Reply::Memory,
    }
}

/// Answers a schema step.
fn schema_step(
    alloc: Global,
    catalog: &mut Catalog,
    rows: &mut TenantRows,
    step: &AdminCmd,
) -> Reply
    requires kept { (service : Service) × AreKept catalog.old rows.old.entries service }
    requires formed { IsWellFormed step.now }
    ensures { IsAnswered catalog.old catalog.new rows.old.entries rows.new.entries (Command (Says step.now)) result }
{
    parts_tell_the_service();
    schema_steps_keep_the_parts();
    extended_rows_are_sound();
    let kept = kept_of(catalog, rows, step);
    match make_step(alloc, catalog, rows, kept, step) {
        Ok(text) => Reply::Text(text),
        Err(StepFault::Refused(code)) => Reply::Refused(code),
        Err(StepFault::Memory) => Reply::Memory,
    }
}

/// Makes a schema step, and the reply, where it is not refused. All memory is taken before anything
/// changes.
fn make_step(
    alloc: Global,
    catalog: &mut Catalog,
    rows: &mut TenantRows,
    kept: u64,
    step: &AdminCmd,
) -> Result<ReplyText, StepFault>
    requires rules { IsCatalogue catalog.old }
    requires formed { IsWellFormed step.now }
    ensures reply { IfOk result (λ text. text ≡ codes "ok\n") }
    ensures made { OnOk result (IsMade catalog.old kept step.now catalog.new rows.old.entries rows.new.entries) }
    ensures refused { (code : Refusal) → result ≡ Err (faults.Refused code) → step_refusal catalog.old (λ tenant. kept) step.now ≡ Some code }
    ensures same_catalog { OnErr result (catalog.new ≡ catalog.old) }
    ensures same_rows { OnErr result (KeepsRows rows.old.entries rows.new.entries) }
{
    let prepared = prepare(alloc, catalog, kept, step)?;
    let text = ReplyText::from_bytes(alloc, b"ok\n")?;
    step_rows(alloc, catalog, rows, step)?;
    accept(catalog, prepared);
    Ok(text)
}

/// How many rows are kept of the tenant that a step names.
fn kept_of(catalog: &Catalog, rows: &TenantRows, step: &AdminCmd) -> u64
    requires { (service : Service) × AreKept catalog.now rows.now.entries service }
    ensures { (service : Service) → AreKept catalog.now rows.now.entries service → result ≡ kept_of service (named_tenant step.now) }
{
    parts_tell_the_service();
    let tenant = named_tenant(step);
    match tenant_of(catalog, tenant) {
        None => 0,
        Some(_) => count_kept(lists_of(rows, tenant as u32), catalog.bases.len()),
    }
}

/// The tenant that a step names, and 0 where it names none.
fn named_tenant(step: &AdminCmd) -> u64
    ensures { result ≡ named_tenant step.now }
{
    match step {
        AdminCmd::CreateTenant { tenant, .. }
        | AdminCmd::Extend { tenant, .. }
        | AdminCmd::SetQuota { tenant, .. } => *tenant,
        _ => 0,
    }
}

/// How many rows are in the first so many lists.
fn count_kept(lists: &[List<MarkedRow>], count: usize) -> u64
    requires { kept_in lists.now count < 2 ^ 64 }
    ensures { result ≡ kept_in lists.now count }
{
    let mut kept = 0;
    for base in 0..count {
        kept += rows_at(lists, base).len() as u64;
    }
    kept
}
