ghost use Rattle.std.specs.Prelude.{◌≡◌, map, slice_index_or, IfOk, is_some, unwrap_or};
ghost use Rattle.std.specs.List.{list_all};
ghost use Rattle.mt_value.specs.declared.value.Value.TheVariants as values;
ghost use Rattle.mt_tree.specs.declared.simple.SimpleStmt.TheVariants.{Select};
ghost use Rattle.mt_model.specs.Said.{Says};
ghost use Rattle.mt_model.specs.Answer.{answer_within, output_names, projected, select_text};
ghost use Rattle.mt_model.specs.Request.{Statement};
ghost use Rattle.mt_model.specs.Service.{Service};
ghost use Rattle.mt_model.specs.Tables.{column_place};
ghost use Rattle.mt_private.specs.Kept.{AreKept};
ghost use Rattle.mt_private.specs.Outcome.{IsAnswered};
ghost use Rattle.mt_private.specs.Seen.{IsSeen, database_in, view_in};
ghost use Rattle.mt_private.specs.Visible.{visible_values, select_text_of};

use crate::kept::TenantRows;
use crate::names::column_place;
use crate::print::{push_names, push_rows};
use crate::seen::{base_number, columns_in, lists_of, rows_at, tenant_of};
use mt_catalog::{Catalog, TenantEntry};
use mt_list::{Duplicate, List};
use mt_model::parts_tell_the_service;
use mt_tree::{Code, Column, MarkedRow, Names, Reply, ReplyText};
use mt_value::{Row, Rows, Str, Value, sort_rows};
use std::alloc::{AllocError, Global};

/// Answers a SELECT.
pub(crate) fn select(
    alloc: Global,
    catalog: &Catalog,
    rows: &TenantRows,
    tenant: u32,
    table: &Str,
    names: Names,
) -> Reply
    requires { (service : Service) × AreKept catalog.now rows.now.entries service }
    ensures { IsAnswered catalog.now catalog.now rows.now.entries rows.now.entries (Statement tenant (Says (Select table.now names))) result }
{
    parts_tell_the_service();
    let Some(entry) = tenant_of(catalog, tenant) else {
        return Reply::Refused(Code::UnknownTenant);
    };
    match selected(alloc, catalog, entry, lists_of(rows, tenant), table, names) {
        Ok(reply) => reply,
        Err(AllocError) => Reply::Memory,
    }
}

/// The reply to a tenant that sees this.
fn selected(
    alloc: Global,
    catalog: &Catalog,
    entry: &TenantEntry,
    lists: &[List<MarkedRow>],
    table: &Str,
    names: Names,
) -> Result<Reply, AllocError>
    requires { IsSeen catalog.now entry.now lists.now }
    ensures { IfOk result (λ reply. reply ≡ answer_within (view_in catalog.now entry.now lists.now) (database_in entry.now lists.now) (Select table.now names)) }
{
    let Some(base) = base_number(catalog, table) else {
        return Ok(Reply::Refused(Code::UnknownTable));
    };
    let own = entry.tables.get(base);
    let columns = columns_in(alloc, catalog, base, own.extended.as_slice())?;
    let columns = columns.as_slice();
    if !are_known(columns, names.as_slice()) {
        return Ok(Reply::Refused(Code::UnknownColumn));
    }
    let text = select_text(alloc, columns, rows_at(lists, base), names)?;
    Ok(Reply::Text(text))
}

/// Whether each name is that of a column.
fn are_known(columns: &[Column], names: &[Str]) -> bool
    ensures { result ≡ list_all (λ name. is_some (column_place columns.now name)) names.now }
{
    names
        .iter()
        .all(|name| column_place(columns, name).is_some())
}

/// The text that answers a SELECT of these rows.
fn select_text(
    alloc: Global,
    columns: &[Column],
    rows: &[MarkedRow],
    names: Names,
) -> Result<ReplyText, AllocError>
    ensures { IfOk result (λ text. text ≡ select_text_of columns.now rows.now names) }
{
    let names = output_names(alloc, columns, names)?;
    let places = places_of(alloc, columns, names.as_slice())?;
    let rows = sort_rows(projected_rows(alloc, rows, &places)?)?;
    printed(alloc, names.as_slice(), rows.as_slice())
}

/// The head, the rows, and how many they are.
#[tactic(auto, using(crate::proofs::Printing::appended))]
fn printed(alloc: Global, names: &[Str], rows: &[Row]) -> Result<ReplyText, AllocError>
    ensures { IfOk result (λ text. text ≡ select_text names.now rows.now) }
{
    let mut text = ReplyText::new(alloc);
    text.push_bytes(b"columns ")?;
    push_names(&mut text, names)?;
    text.push_bytes(b"\n")?;
    push_rows(&mut text, rows)?;
    text.push_bytes(b"ok ")?;
    text.push_count(rows.len() as u64)?;
    text.push_bytes(b"\n")?;
    Ok(text)
}

/// The names that stand at the head: those that are asked for, or all for a star.
fn output_names(alloc: Global, columns: &[Column], names: Names) -> Result<Names, AllocError>
    ensures { IfOk result (λ heads. heads ≡ output_names columns.now names) }
{
    if !names.is_empty() {
        return Ok(names);
    }
    let mut heads = List::new(alloc);
    for column in columns {
        heads.push(column.name.copy()?)?;
    }
    Ok(heads)
}

/// The places of the columns of these names.
fn places_of(alloc: Global, columns: &[Column], names: &[Str]) -> Result<Vec<usize>, AllocError>
    ensures { IfOk result (λ places. places.items ≡ map (λ name. unwrap_or (column_place columns.now name) 0) names.now) }
{
    names
        .iter()
        .map(|name| column_place(columns, name).unwrap_or(0))
        .collect(alloc)
}

/// The visible rows, each with its values at these places.
fn projected_rows(alloc: Global, rows: &[MarkedRow], places: &[usize]) -> Result<Rows, AllocError>
    ensures { IfOk result (λ found. found ≡ map (projected places.now) (visible_values rows.now)) }
{
    let mut found = List::new(alloc);
    for row in rows {
        if row.visible {
            found.push(projected(alloc, &row.values, places)?)?;
        }
    }
    Ok(found)
}

/// The values of a row at these places.
fn projected(alloc: Global, row: &Row, places: &[usize]) -> Result<Row, AllocError>
    ensures { IfOk result (λ values. values ≡ projected places.now row.now) }
{
    let mut values = List::new(alloc);
    for place in places {
        values.push(value_at(alloc, row, *place)?)?;
    }
    Ok(values)
}

/// The value at a place of a row, and NULL where the row has none there.
fn value_at(alloc: Global, row: &Row, place: usize) -> Result<Value, AllocError>
    ensures { IfOk result (λ value. value ≡ slice_index_or row.now place values.Null) }
{
    if place < row.len() {
        row.get(place).copy(alloc)
    } else {
        Ok(Value::Null)
    }
}
