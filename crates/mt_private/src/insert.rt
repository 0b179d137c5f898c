ghost use Rattle.std.specs.Prelude.{◌≡◌, ℕ, ◌+◌, ◌<◌, ◌≤◌, ◌^◌, ◌++◌, ◌∷◌, [], true, not, cond, nat_eq, nat_lt, map, codes, length, slice_get, Some, IfOk, OnOk, OnErr};
ghost use Rattle.mt_tree.specs.declared.code.Code.TheVariants.{QuotaFull, RowNumbersUsedUp};
ghost use Rattle.mt_tree.specs.declared.simple.SimpleStmt.TheVariants.{Insert};
ghost use Rattle.mt_catalog.specs.declared.state.TenantTable.{TenantTable as KeptTable};
ghost use Rattle.mt_catalog.specs.State.{tenant_table};
ghost use Rattle.mt_schema.specs.Refusals.{first_holding};
ghost use Rattle.mt_schema.specs.Steps.{with_table};
ghost use Rattle.mt_model.specs.Parts.{made_one, one_more_made};
ghost use Rattle.mt_model.specs.Request.{Statement};
ghost use Rattle.mt_model.specs.Said.{Says};
ghost use Rattle.mt_model.specs.Service.{Service};
ghost use Rattle.mt_model.specs.Tables.{value_of};
ghost use Rattle.mt_private.specs.Kept.{AreKept, IsKeptTable};
ghost use Rattle.mt_private.specs.Outcome.{IsAnswered};
ghost use Rattle.mt_private.specs.Seen.{AddsRow, IsChecked, IsSeen, KeepsRows, database_in, kept_in, list_at, row_tests, view_in};

use crate::fit::{fit_columns, has_long_text, has_null, repeats_key};
use crate::kept::{TableRows, TenantRows};
use crate::seen::{base_number, columns_in, lists_of, rows_at, tenant_of};
use mt_catalog::{Catalog, TenantEntry};
use mt_list::List;
use mt_model::{inserted_rows_are_parts, parts_tell_the_service};
use mt_tree::{Code, Column, Literal, MarkedRow, Reply, ReplyText, Tuple};
use mt_value::{Row, Str, Value};
use std::alloc::{AllocError, Global};

/// The most rows that a table may ever have.
const ROWS_MAX: u64 = 1 << 63;

/// Answers an INSERT of one row.
pub(crate) fn insert(
    alloc: Global,
    catalog: &mut Catalog,
    rows: &mut TenantRows,
    tenant: u32,
    table: &Str,
    values: Tuple,
) -> Reply
    requires { (service : Service) × AreKept catalog.old rows.old.entries service }
    ensures { IsAnswered catalog.old catalog.new rows.old.entries rows.new.entries (Statement tenant (Says (Insert table.now values))) result }
{
    parts_tell_the_service();
    inserted_rows_are_parts();
    let Some(entry) = tenant_of(catalog, tenant) else {
        return Reply::Refused(Code::UnknownTenant);
    };
    match checked(alloc, catalog, entry, lists_of(rows, tenant), table, values) {
        Ok(Ok((base, row))) => match insert_row(alloc, catalog, rows, tenant, base, row) {
            Ok(text) => Reply::Text(text),
            Err(AllocError) => Reply::Memory,
        },
        Ok(Err(code)) => Reply::Refused(code),
        Err(AllocError) => Reply::Memory,
    }
}

/// The number of the table and the row that literals write, or why it is not inserted.
fn checked(
    alloc: Global,
    catalog: &Catalog,
    entry: &TenantEntry,
    lists: &[List<MarkedRow>],
    table: &Str,
    values: Tuple,
) -> Result<Result<(usize, Row), Code>, AllocError>
    requires { IsSeen catalog.now entry.now lists.now }
    ensures { IfOk result (IsChecked (view_in catalog.now entry.now lists.now) (database_in entry.now lists.now) table.now values) }
{
    let Some(base) = base_number(catalog, table) else {
        return Ok(Err(Code::UnknownTable));
    };
    let own = entry.tables.get(base);
    let columns = columns_in(alloc, catalog, base, own.extended.as_slice())?;
    let columns = columns.as_slice();
    if !fit_columns(columns, values.as_slice()) {
        return Ok(Err(Code::TypesDoNotFit));
    }
    let row = row_of(alloc, values)?;
    let has_room = has_room(lists, entry.tables.len(), entry.quota);
    match row_refusal(
        columns,
        rows_at(lists, base),
        row.as_slice(),
        has_room,
        own.made,
    ) {
        None => Ok(Ok((base, row))),
        Some(code) => Ok(Err(code)),
    }
}

/// Why a row that fits its columns is not inserted behind these rows. Only the new row is looked at for
/// its texts and NULL, since the others are sound.
fn row_refusal(
    columns: &[Column],
    rows: &[MarkedRow],
    values: &[Value],
    has_room: bool,
    made: u64,
) -> Option<Code>
    requires kept { IsKeptTable columns.now rows.now }
    requires whole { length values.now ≡ length columns.now }
    ensures { (quota kept : ℕ) → has_room ≡ not (nat_lt quota (kept + 1)) → result ≡ first_holding (row_tests columns.now rows.now values.now quota kept made) }
{
    if has_long_text(columns, values) {
        return Some(Code::TextTooLong);
    }
    if has_null(columns, values) {
        return Some(Code::NullNotAllowed);
    }
    if repeats_key(columns, rows, values) {
        return Some(Code::DuplicateKey);
    }
    count_refusal(has_room, made)
}

/// Why there may not be a row more.
fn count_refusal(has_room: bool, made: u64) -> Option<Code>
    ensures { result ≡ first_holding ((QuotaFull, not has_room) ∷ (RowNumbersUsedUp, nat_lt (2 ^ 63) (made + 1)) ∷ []) }
{
    if !has_room {
        return Some(Code::QuotaFull);
    }
    if made >= ROWS_MAX {
        return Some(Code::RowNumbersUsedUp);
    }
    None
}

/// Whether one row more may be kept beside those of the first so many lists.
fn has_room(lists: &[List<MarkedRow>], count: usize, quota: u32) -> bool
    requires { kept_in lists.now count ≤ quota }
    ensures { result ≡ not (nat_lt quota (kept_in lists.now count + 1)) }
{
    let mut left = quota as usize;
    for base in 0..count {
        left -= rows_at(lists, base).len();
    }
    left > 0
}

/// The values that literals write.
fn row_of(alloc: Global, literals: Tuple) -> Result<Row, AllocError>
    ensures { IfOk result (λ row. row ≡ map value_of literals) }
{
    let mut row = List::new(alloc);
    for literal in literals.into_vec() {
        row.push(value_of(literal))?;
    }
    Ok(row)
}

fn value_of(literal: Literal) -> Value
    ensures { result ≡ value_of literal }
{
    match literal {
        Literal::Null => Value::Null,
        Literal::Int(number) => Value::Int(number),
        Literal::Text(text) => Value::Text(text),
    }
}

/// Inserts a row into a tenant's table, and makes the reply. All memory is taken before anything
/// changes.
fn insert_row(
    alloc: Global,
    catalog: &mut Catalog,
    rows: &mut TenantRows,
    tenant: u32,
    base: usize,
    row: Row,
) -> Result<ReplyText, AllocError>
    requires { (table : KeptTable) → tenant_table catalog.old tenant base ≡ Some table → table.made < 2 ^ 63 }
    ensures reply { IfOk result (λ text. text ≡ codes "ok 1\n") }
    ensures counted { OnOk result (catalog.new ≡ made_one catalog.old tenant base) }
    ensures added { OnOk result (AddsRow tenant base row rows.old.entries rows.new.entries) }
    ensures same_catalog { OnErr result (catalog.new ≡ catalog.old) }
    ensures same_rows { OnErr result (KeepsRows rows.old.entries rows.new.entries) }
{
    let text = ReplyText::from_bytes(alloc, b"ok 1\n")?;
    add_row(alloc, rows, tenant, base, row)?;
    count_row(catalog, tenant, base);
    Ok(text)
}

/// Adds a visible row at the end of a tenant's table, or leaves the rows of each.
fn add_row(
    alloc: Global,
    rows: &mut TenantRows,
    tenant: u32,
    base: usize,
    row: Row,
) -> Result<(), AllocError>
    ensures ok { OnOk result (AddsRow tenant base row rows.old.entries rows.new.entries) }
    ensures err { OnErr result (KeepsRows rows.old.entries rows.new.entries) }
{
    if let Some(lists) = rows.get_mut(&tenant) {
        return push_row(alloc, lists, base, row);
    }
    let mut lists = List::new(alloc);
    push_row(alloc, &mut lists, base, row)?;
    rows.insert(tenant, lists)?;
    Ok(())
}

/// Adds a visible row at the end of the list of that number, or leaves the rows of each.
fn push_row(alloc: Global, lists: &mut TableRows, base: usize, row: Row) -> Result<(), AllocError>
    ensures ok { OnOk result ((other : ℕ) → list_at lists.new other ≡ cond (nat_eq other base) (list_at lists.old other ++ record { visible = true; values = row } ∷ []) (list_at lists.old other)) }
    ensures err { OnErr result ((other : ℕ) → list_at lists.new other ≡ list_at lists.old other) }
{
    reach(alloc, lists, base)?;
    lists.get_mut(base).push(MarkedRow {
        visible: true,
        values: row,
    })
}

/// Adds empty lists until there is one of that number.
fn reach(alloc: Global, lists: &mut TableRows, base: usize) -> Result<(), AllocError>
    ensures reached { OnOk result (base < length lists.new) }
    ensures kept { (other : ℕ) → list_at lists.new other ≡ list_at lists.old other }
{
    while lists.len() <= base {
        lists.push(List::new(alloc))?;
    }
    Ok(())
}

/// Counts a further row of a tenant's table. It takes no memory.
fn count_row(catalog: &mut Catalog, tenant: u32, base: usize)
    requires { (table : KeptTable) → tenant_table catalog.old tenant base ≡ Some table → table.made < 2 ^ 63 }
    ensures { catalog.new ≡ made_one catalog.old tenant base }
{
    if let Some(entry) = catalog.tenants.get_mut(&tenant) {
        count_in(entry, base);
    }
}

/// Counts a further row of the tenant's table.
fn count_in(entry: &mut TenantEntry, base: usize)
    requires { (table : KeptTable) → slice_get entry.old.tables base ≡ Some table → table.made < 2 ^ 63 }
    ensures { entry.new ≡ with_table base one_more_made entry.old }
{
    if base < entry.tables.len() {
        entry.tables.get_mut(base).made += 1;
    }
}
