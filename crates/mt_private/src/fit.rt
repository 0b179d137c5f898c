//! Whether a row fits the columns of its table and the rows that stand there.
ghost use Rattle.std.specs.Prelude.{◌≡◌, ◌&&◌, length, All};
ghost use Rattle.std.specs.List.{list_any};
ghost use Rattle.std.specs.Ordering.{is_eq};
ghost use Rattle.mt_value.specs.Order.{is_null, row_order, value_order};
ghost use Rattle.mt_tree.specs.Rows.{is_long, is_missing, key_of, some_value, visible_of};
ghost use Rattle.mt_model.specs.Tables.{fit_columns, is_of_kind};

use mt_tree::{Column, Kind, Literal, MarkedRow};
use mt_value::{Value, value_order};
use std::cmp::Ordering;

/// Whether there is one literal for each column, of its kind.
pub(crate) fn fit_columns(columns: &[Column], literals: &[Literal]) -> bool
    ensures { result ≡ fit_columns columns.now literals.now }
{
    let Some((column, columns)) = columns.split_first() else {
        return literals.is_empty();
    };
    let Some((literal, literals)) = literals.split_first() else {
        return false;
    };
    is_of_kind(column.kind, literal) && fit_columns(columns, literals)
}

/// NULL is of every kind.
fn is_of_kind(kind: Kind, literal: &Literal) -> bool
    ensures { result ≡ is_of_kind kind literal.now }
{
    match (kind, literal) {
        (Kind::Integer, Literal::Text(_)) => false,
        (Kind::Varchar(_), Literal::Int(_)) => false,
        _ => true,
    }
}

/// Whether a text has more bytes than its column allows.
pub(crate) fn has_long_text(columns: &[Column], values: &[Value]) -> bool
    ensures { result ≡ some_value (λ column value. is_long column.kind value) columns.now values.now }
{
    let Some((column, columns)) = columns.split_first() else {
        return false;
    };
    let Some((value, values)) = values.split_first() else {
        return false;
    };
    is_long(column.kind, value) || has_long_text(columns, values)
}

fn is_long(kind: Kind, value: &Value) -> bool
    ensures { result ≡ is_long kind value.now }
{
    match (kind, value) {
        (Kind::Varchar(size), Value::Text(text)) => text.len() > usize::from(size),
        _ => false,
    }
}

/// Whether NULL stands where none may.
pub(crate) fn has_null(columns: &[Column], values: &[Value]) -> bool
    ensures { result ≡ some_value is_missing columns.now values.now }
{
    let Some((column, columns)) = columns.split_first() else {
        return false;
    };
    let Some((value, values)) = values.split_first() else {
        return false;
    };
    is_missing(column, value) || has_null(columns, values)
}

fn is_missing(column: &Column, value: &Value) -> bool
    ensures { result ≡ is_missing column.now value.now }
{
    (column.not_null || column.key) && is_null(value)
}

fn is_null(value: &Value) -> bool
    ensures { result ≡ is_null value.now }
{
    match value {
        Value::Null => true,
        Value::Int(_) | Value::Text(_) => false,
    }
}

/// Whether a visible row has the key of these values, in a table with key columns.
pub(crate) fn repeats_key(columns: &[Column], rows: &[MarkedRow], values: &[Value]) -> bool
    requires rows { All (λ row. length row.values ≡ length columns.now) rows.now }
    requires values { length values.now ≡ length columns.now }
    ensures { result ≡ (list_any (λ column. column.key) columns.now && list_any (λ row. is_eq (row_order (key_of columns.now row.values) (key_of columns.now values.now))) (visible_of rows.now)) }
{
    has_key(columns) && is_among(columns, rows, values)
}

/// Whether the table has key columns.
fn has_key(columns: &[Column]) -> bool
    ensures { result ≡ list_any (λ column. column.key) columns.now }
{
    columns.iter().any(|column| column.key)
}

/// Whether a visible row has the key of these values.
fn is_among(columns: &[Column], rows: &[MarkedRow], values: &[Value]) -> bool
    requires rows { All (λ row. length row.values ≡ length columns.now) rows.now }
    requires values { length values.now ≡ length columns.now }
    ensures { result ≡ list_any (λ row. is_eq (row_order (key_of columns.now row.values) (key_of columns.now values.now))) (visible_of rows.now) }
{
    let mut rest = rows;
    while let Some((row, others)) = rest.split_first() {
        if shows_key(columns, row, values) {
            return true;
        }
        rest = others;
    }
    false
}

/// Whether a row is visible and has the key of these values.
fn shows_key(columns: &[Column], row: &MarkedRow, values: &[Value]) -> bool
    requires row { length row.now.values ≡ length columns.now }
    requires values { length values.now ≡ length columns.now }
    ensures { result ≡ (row.now.visible && is_eq (row_order (key_of columns.now row.now.values) (key_of columns.now values.now))) }
{
    row.visible && has_same_key(columns, row.values.as_slice(), values)
}

/// Whether two rows have one key.
fn has_same_key(columns: &[Column], row: &[Value], values: &[Value]) -> bool
    requires row { length row.now ≡ length columns.now }
    requires values { length values.now ≡ length columns.now }
    ensures { result ≡ is_eq (row_order (key_of columns.now row.now) (key_of columns.now values.now)) }
{
    let Some((column, columns)) = columns.split_first() else {
        return true;
    };
    let Some((own, row)) = row.split_first() else {
        return true;
    };
    let Some((other, values)) = values.split_first() else {
        return true;
    };
    (!column.key || is_same(own, other)) && has_same_key(columns, row, values)
}

fn is_same(own: &Value, other: &Value) -> bool
    ensures { result ≡ is_eq (value_order own.now other.now) }
{
    value_order(own, other) == Ordering::Equal
}
