//! The rows of a table once an extension is put to it.
ghost use Rattle.std.specs.Prelude.{◌≡◌, ◌++◌, map, replicate, IfOk, OnOk, OnErr};
ghost use Rattle.mt_value.specs.declared.value.Value.TheVariants as kinds;
ghost use Rattle.mt_model.specs.Database.{with_nulls};
ghost use Rattle.mt_private.specs.Seen.{KeepsRows};
ghost use Rattle.mt_private.specs.Stepped.{ExtendsSome, StepsRows, WidensList, WidensRows};

use crate::kept::{TableRows, TenantRows};
use mt_catalog::Catalog;
use mt_list::List;
use mt_schema::extension_named;
use mt_tree::{AdminCmd, MarkedRow};
use mt_value::{Row, Value};
use std::alloc::{AllocError, Global};

/// Makes the rows those after a schema step: EXTEND puts NULL for each new column into each row of the
/// tenant's table. For want of memory the rows stay as they are.
pub(crate) fn step_rows(
    alloc: Global,
    catalog: &Catalog,
    rows: &mut TenantRows,
    step: &AdminCmd,
) -> Result<(), AllocError>
    requires { ExtendsSome step.now }
    ensures ok { OnOk result (StepsRows catalog.now step.now rows.old.entries rows.new.entries) }
    ensures err { OnErr result (KeepsRows rows.old.entries rows.new.entries) }
{
    let AdminCmd::Extend { tenant, extension } = step else {
        return Ok(());
    };
    let Some(extension) = extension_named(catalog, extension) else {
        return Ok(());
    };
    let count = extension.columns.len();
    widen_table(alloc, rows, *tenant as u32, extension.base as usize, count)
}

/// Puts so many NULLs behind each row of a tenant's table, or leaves the rows of each.
fn widen_table(
    alloc: Global,
    rows: &mut TenantRows,
    tenant: u32,
    base: usize,
    count: usize,
) -> Result<(), AllocError>
    ensures ok { OnOk result (WidensRows tenant base count rows.old.entries rows.new.entries) }
    ensures err { OnErr result (KeepsRows rows.old.entries rows.new.entries) }
{
    match rows.get_mut(&tenant) {
        Some(lists) => widen_list(alloc, lists, base, count),
        None => Ok(()),
    }
}

/// Puts so many NULLs behind each row of the list of that number, or leaves all lists.
fn widen_list(
    alloc: Global,
    lists: &mut TableRows,
    base: usize,
    count: usize,
) -> Result<(), AllocError>
    ensures ok { OnOk result (WidensList base count lists.old lists.new) }
    ensures err { OnErr result (lists.new ≡ lists.old) }
{
    if base < lists.len() {
        let wide = widened(alloc, lists.get(base).as_slice(), count)?;
        *lists.get_mut(base) = wide;
    }
    Ok(())
}

/// The rows with so many NULLs behind each.
fn widened(alloc: Global, rows: &[MarkedRow], count: usize) -> Result<List<MarkedRow>, AllocError>
    ensures { IfOk result (λ wide. wide ≡ map (with_nulls count) rows.now) }
{
    let mut wide = List::new(alloc);
    for row in rows {
        wide.push(MarkedRow {
            visible: row.visible,
            values: values_with_nulls(&row.values, count)?,
        })?;
    }
    Ok(wide)
}

/// A copy of a row's values with so many NULLs behind them.
fn values_with_nulls(values: &Row, count: usize) -> Result<Row, AllocError>
    ensures { IfOk result (λ wide. wide ≡ values.now ++ replicate count kinds.Null) }
{
    let mut wide = values.copy()?;
    for _column in 0..count {
        wide.push(Value::Null)?;
    }
    Ok(wide)
}
