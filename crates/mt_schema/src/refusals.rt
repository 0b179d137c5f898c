//! The first refusal of a schema step, in the administrator's order.
ghost use Rattle.std.specs.Prelude.{◌≡◌, ◌+◌, ◌≤◌, ◌||◌, nat_lt, not, length, option_copied, is_some, unwrap_or, IfOk};
ghost use Rattle.std.specs.FinMap as finite;
ghost use Rattle.std.specs.List.{list_all};
ghost use Rattle.mt_catalog.specs.Rules.{IsCatalogue, quota_total};
ghost use Rattle.mt_catalog.specs.State as state;
ghost use Rattle.mt_catalog.specs.State.{State};
ghost use Rattle.mt_schema.specs.Refusals as tests;
ghost use Rattle.mt_schema.specs.Steps as steps;

use crate::lookup::{
    base_columns, cover_for, extension_named, extension_number, member, quota_of, table_number,
    tenant_of,
};
use crate::names::{
    add_column_names, extended_names, has_repeat, lacks_columns, repeats_beside, repeats_columns,
};
use mt_catalog::{Catalog, Extension, TenantTable};
use mt_fold::Placement;
use mt_tree::{AdminCmd, Code, Column, Def, DefKind, Table};
use mt_value::Str;
use std::alloc::{AllocError, Global};

/// The most that all quotas are together.
const QUOTAS: u64 = 1_048_576;

/// The first code whose test holds.
fn first_holding(asked: &[(Code, bool)]) -> Option<Code>
    ensures { result ≡ tests.first_holding asked.now }
{
    let mut rest = asked;
    while let Some((first, others)) = rest.split_first() {
        if first.1 {
            return Some(first.0);
        }
        rest = others;
    }
    None
}

/// Whether a number is from 1 to that one.
fn is_upto(most: u64, number: u64) -> bool
    ensures { result ≡ tests.is_within 1 most number }
{
    1 <= number && number <= most
}

/// Whether there is a kind: a VARCHAR has from 1 to 120 bytes.
fn is_size_within(kind: DefKind) -> bool
    ensures { result ≡ tests.is_size_within kind }
{
    match kind {
        DefKind::Integer => true,
        DefKind::Varchar(size) => is_upto(120, size),
    }
}

/// Whether there is the kind of each of these columns.
fn are_sizes_within(defs: &[Def]) -> bool
    ensures { result ≡ list_all (λ def. tests.is_size_within def.kind) defs.now }
{
    defs.iter().all(|def| is_size_within(def.kind))
}

/// Whether there are too many columns, or one of a size that there is not.
fn are_outside(defs: &[Def]) -> bool
    ensures { result ≡ tests.are_outside defs.now }
{
    defs.len() > 16 || !are_sizes_within(defs)
}

/// Whether there is a base table of that name.
fn has_table(bases: &[Table], name: &Str) -> bool
    ensures { result ≡ is_some (steps.table_number bases.now name.now) }
{
    table_number(bases, name).is_some()
}

/// Whether there is an extension of that name.
fn has_extension(extensions: &[Extension], name: &Str) -> bool
    ensures { result ≡ is_some (steps.extension_number extensions.now name.now) }
{
    extension_number(extensions, name).is_some()
}

/// Whether there are more than so many already, or the columns are outside.
fn is_over(count: usize, most: usize, defs: &[Def]) -> bool
    ensures { result ≡ (nat_lt most count || tests.are_outside defs.now) }
{
    count > most || are_outside(defs)
}

/// The first refusal of CREATE TABLE.
fn table_refusal(
    alloc: Global,
    bases: &[Table],
    name: &Str,
    defs: &[Def],
    key: &[Str],
) -> Result<Option<Code>, AllocError>
    ensures { (state : State) → state.bases ≡ bases.now → IfOk result (λ code. code ≡ tests.first_holding (tests.table_tests state name.now defs.now key.now)) }
{
    Ok(first_holding(&[
        (Code::UnknownName, lacks_columns(alloc, defs, key)?),
        (Code::NameExists, has_table(bases, name)),
        (Code::ColumnNameTaken, repeats_columns(alloc, defs, key)?),
        (Code::Limit, is_over(bases.len(), 15, defs)),
    ]))
}

/// The number of the table of that name, or 0.
fn base_number(bases: &[Table], name: &Str) -> usize
    ensures { result ≡ unwrap_or (steps.table_number bases.now name.now) 0 }
{
    table_number(bases, name).unwrap_or(0)
}

/// The first refusal of CREATE EXTENSION.
fn extension_refusal(
    alloc: Global,
    bases: &[Table],
    extensions: &[Extension],
    name: &Str,
    base: &Str,
    defs: &[Def],
) -> Result<Option<Code>, AllocError>
    ensures { (state : State) → state.bases ≡ bases.now → state.extensions ≡ extensions.now → IfOk result (λ code. code ≡ tests.first_holding (tests.extension_tests state name.now base.now defs.now)) }
{
    let columns = base_columns(bases, base_number(bases, base));
    Ok(first_holding(&[
        (Code::UnknownName, !has_table(bases, base)),
        (Code::NameExists, has_extension(extensions, name)),
        (Code::ColumnNameTaken, repeats_beside(alloc, columns, defs)?),
        (Code::Limit, is_over(extensions.len(), 63, defs)),
    ]))
}

/// The quotas of all tenants together.
fn quota_total(catalog: &Catalog) -> u64
    requires { IsCatalogue catalog.now }
    ensures { result ≡ quota_total catalog.now }
{
    let mut total = 0;
    for (_number, entry) in catalog.tenants.iter() {
        total += u64::from(entry.quota);
    }
    total
}

/// Whether a tenant has a number or a quota that there is not, or there are too many.
fn is_over_tenants(count: usize, tenant: u64, quota: u64) -> bool
    ensures { result ≡ (nat_lt 999 count || not (tests.is_within 1 4294967295 tenant) || not (tests.is_within 1 65536 quota)) }
{
    count > 999 || !is_upto(4_294_967_295, tenant) || !is_upto(65_536, quota)
}

/// Whether a quota is too large beside the others.
fn is_too_large(others: u64, quota: u64) -> bool
    requires { others ≤ 1048576 }
    ensures { result ≡ nat_lt 1048576 (others + quota) }
{
    quota > QUOTAS - others
}

/// How many tenants there are.
fn tenant_count(catalog: &Catalog) -> usize
    ensures { result ≡ finite.len catalog.now.tenants }
{
    catalog.tenants.len()
}

/// Whether there is a tenant of that number.
fn has_tenant(catalog: &Catalog, tenant: u64) -> bool
    requires { IsCatalogue catalog.now }
    ensures { result ≡ finite.contains_key catalog.now.tenants tenant }
{
    tenant_of(catalog, tenant).is_some()
}

/// The first refusal of CREATE TENANT.
fn tenant_refusal(catalog: &Catalog, tenant: u64, quota: u64) -> Option<Code>
    requires { IsCatalogue catalog.now }
    ensures { result ≡ tests.first_holding (tests.tenant_tests catalog.now tenant quota) }
{
    let count = tenant_count(catalog);
    let total = quota_total(catalog);
    first_holding(&[
        (Code::NameExists, has_tenant(catalog, tenant)),
        (Code::Limit, is_over_tenants(count, tenant, quota)),
        (Code::QuotasTooLarge, is_too_large(total, quota)),
    ])
}

/// Whether a table moves.
fn is_moving(placement: &Placement) -> bool
    ensures { result ≡ tests.is_moving placement.now }
{
    match placement {
        Placement::Settled { .. } => false,
        Placement::Moving { .. } => true,
    }
}

/// How many chunks the fold of a table has.
fn chunks_in(placement: &Placement) -> usize
    ensures { result ≡ tests.chunks_in placement.now }
{
    match placement {
        Placement::Settled { fold, .. } => fold.shapes.len(),
        Placement::Moving { after, .. } => after.shapes.len(),
    }
}

/// Whether a table whose fold has so many chunks has too many with those of further columns.
fn are_many_chunks(alloc: Global, count: usize, added: &[Column]) -> Result<bool, AllocError>
    requires { length added.now ≤ 32 }
    ensures { IfOk result (λ are. are ≡ nat_lt 16 (count + length (steps.cover_for added.now))) }
{
    let chunks = cover_for(alloc, added)?.len();
    Ok(chunks > 16 || count > 16 - chunks)
}

/// The first refusal of EXTEND, where tenant and extension are there.
fn extended_refusal(
    alloc: Global,
    catalog: &Catalog,
    extension: &Extension,
    table: &TenantTable,
) -> Result<Option<Code>, AllocError>
    requires { length extension.now.columns ≤ 32 }
    ensures { IfOk result (λ code. code ≡ tests.first_holding (tests.extended_tests catalog.now extension.now.base extension.now.columns table.now)) }
{
    let added = extension.columns.as_slice();
    let base = extension.base as usize;
    let mut names = extended_names(alloc, catalog, base, table.extended.as_slice())?;
    add_column_names(&mut names, added)?;
    let chunks = chunks_in(&table.placement);
    Ok(first_holding(&[
        (Code::ColumnNameTaken, has_repeat(alloc, names.as_slice())?),
        (Code::Limit, names.len() > 32),
        (Code::TableIsMoving, is_moving(&table.placement)),
        (Code::TooManyChunks, are_many_chunks(alloc, chunks, added)?),
    ]))
}

/// A tenant's table of a base table, by the tenant's number as a command gives it.
fn table_of(catalog: &Catalog, tenant: u64, base: u32) -> Option<&TenantTable>
    requires { IsCatalogue catalog.now }
    ensures { option_copied result ≡ state.tenant_table catalog.now tenant base }
{
    match tenant_of(catalog, tenant) {
        None => None,
        Some(entry) => member(entry.tables.as_slice(), base as usize),
    }
}

/// The first refusal of EXTEND.
fn extend_refusal(
    alloc: Global,
    catalog: &Catalog,
    tenant: u64,
    name: &Str,
) -> Result<Option<Code>, AllocError>
    requires { IsCatalogue catalog.now }
    ensures { IfOk result (λ code. code ≡ tests.first_holding (tests.extend_tests catalog.now tenant (tests.extension_named catalog.now name.now))) }
{
    let Some(extension) = extension_named(catalog, name) else {
        return Ok(Some(Code::UnknownName));
    };
    let Some(table) = table_of(catalog, tenant, extension.base) else {
        return Ok(Some(Code::UnknownName));
    };
    extended_refusal(alloc, catalog, extension, table)
}

/// The first refusal of SET QUOTA, where so many rows are kept of the tenant.
fn quota_refusal(catalog: &Catalog, kept: u64, tenant: u64, quota: u64) -> Option<Code>
    requires { IsCatalogue catalog.now }
    ensures { result ≡ tests.first_holding (tests.quota_tests catalog.now kept tenant quota) }
{
    let entry = tenant_of(catalog, tenant);
    let others = quota_total(catalog).saturating_sub(quota_of(entry));
    first_holding(&[
        (Code::UnknownName, entry.is_none()),
        (Code::Limit, !is_upto(65_536, quota)),
        (Code::QuotaBelowRows, quota < kept),
        (Code::QuotasTooLarge, is_too_large(others, quota)),
    ])
}

/// The first refusal of a schema step on a catalogue, where so many rows are kept, visible and trashed,
/// of the tenant that the step names: the first of E42, E40, E41, E43, E44, E45, E61 and E63 that holds.
/// `None` where the step is not refused, and for a command that is no schema step. `AllocError` is want
/// of memory.
pub fn refusal(
    alloc: Global,
    catalog: &Catalog,
    kept: u64,
    step: &AdminCmd,
) -> Result<Option<Code>, AllocError>
    requires { IsCatalogue catalog.now }
    ensures { IfOk result (λ code. code ≡ tests.step_refusal catalog.now (λ tenant. kept) step.now) }
{
    match step {
        AdminCmd::CreateTable { name, columns, key } => {
            let bases = catalog.bases.as_slice();
            table_refusal(alloc, bases, name, columns.as_slice(), key.as_slice())
        }
        AdminCmd::CreateExtension {
            name,
            base,
            columns,
        } => {
            let bases = catalog.bases.as_slice();
            let extensions = catalog.extensions.as_slice();
            extension_refusal(alloc, bases, extensions, name, base, columns.as_slice())
        }
        AdminCmd::CreateTenant { tenant, quota } => Ok(tenant_refusal(catalog, *tenant, *quota)),
        AdminCmd::Extend { tenant, extension } => {
            extend_refusal(alloc, catalog, *tenant, extension)
        }
        AdminCmd::SetQuota { tenant, quota } => {
            Ok(quota_refusal(catalog, kept, *tenant, *quota))
        }
        _ => Ok(None),
    }
}
