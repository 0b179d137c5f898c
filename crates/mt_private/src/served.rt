ghost use Rattle.std.specs.Prelude.{[], ◌∷◌, map, IfOk};
ghost use Rattle.std.specs.Bool.{Decides};
ghost use Rattle.mt_tree.specs.declared.statement.Stmt.TheVariants as stmt;
ghost use Rattle.mt_schema.specs.Steps.{IsSchemaStep};
ghost use Rattle.mt_model.specs.Served.{bare_item, bare_ref, statement_tree};
ghost use Rattle.mt_private.specs.Finding.{Finds};

use mt_list::List;
use mt_tree::{AdminCmd, Atom, ColName, Expr, Insert, Item, Names, Ref, Select, SimpleStmt, Stmt};
use mt_value::Str;
use std::alloc::{AllocError, Global};

/// The form that a tenant's statement has, if it is one of those that are served so far.
pub(crate) fn served_statement(
    alloc: Global,
    statement: Stmt,
) -> Result<Option<SimpleStmt>, AllocError>
    ensures { IfOk result (Finds statement_tree statement) }
{
    match statement {
        Stmt::Insert(insert) => Ok(served_insert(insert)),
        Stmt::Select(select) => served_select(alloc, select),
        Stmt::Update(_) | Stmt::Delete(_) | Stmt::Restore(_) | Stmt::Purge(_) => Ok(None),
    }
}

/// An INSERT of one tuple, without names of columns.
fn served_insert(insert: Insert) -> Option<SimpleStmt>
    ensures { Finds statement_tree (stmt.Insert insert) result }
{
    if !insert.columns.is_empty() {
        return None;
    }
    let values = only(insert.tuples)?;
    Some(SimpleStmt::Insert {
        table: insert.table,
        values,
    })
}

/// A SELECT of a star or of columns by their names alone, with no clause behind its one table.
fn served_select(alloc: Global, select: Select) -> Result<Option<SimpleStmt>, AllocError>
    ensures { IfOk result (Finds statement_tree (stmt.Select select)) }
{
    let Select {
        distinct: false,
        items,
        refs,
        cond: None,
        group,
        having: None,
        order,
        limit: None,
    } = select
    else {
        return Ok(None);
    };
    if !group.is_empty() || !order.is_empty() {
        return Ok(None);
    }
    let Some(table) = bare_table(refs) else {
        return Ok(None);
    };
    let Some(columns) = bare_names(alloc, items)? else {
        return Ok(None);
    };
    Ok(Some(SimpleStmt::Select { table, columns }))
}

/// The one table, if it has no alias.
fn bare_table(refs: List<Ref>) -> Option<Str>
    ensures { Finds (λ table. bare_ref table ∷ []) refs result }
{
    match only(refs)? {
        Ref {
            table,
            alias: None,
            on: None,
        } => Some(table),
        _ => None,
    }
}

/// The member of a list of one.
fn only<T: Drop>(members: List<T>) -> Option<T>
    ensures { Finds (λ member. member ∷ []) members result }
{
    let mut members = members.into_vec();
    match members.pop() {
        Some(member) if members.is_empty() => Some(member),
        _ => None,
    }
}

/// The names of columns, if each stands by its name alone.
fn bare_names(alloc: Global, items: List<Item>) -> Result<Option<Names>, AllocError>
    ensures { IfOk result (Finds (map bare_item) items) }
{
    let mut names = List::new(alloc);
    for item in items.into_vec() {
        let Some(name) = bare_name(item) else {
            return Ok(None);
        };
        names.push(name)?;
    }
    Ok(Some(names))
}

/// The name of a column, if it stands by its name alone.
fn bare_name(item: Item) -> Option<Str>
    ensures { Finds bare_item item result }
{
    let Item { expr, name: None } = item else {
        return None;
    };
    let Expr::Atom(Atom::Column(column)) = expr else {
        return None;
    };
    let ColName {
        qualifier: None,
        name,
    } = column
    else {
        return None;
    };
    Some(name)
}

/// Whether a command is a schema step; these are served.
pub(crate) fn is_schema_step(command: &AdminCmd) -> bool
    ensures { Decides result (IsSchemaStep command.now) }
{
    match command {
        AdminCmd::CreateTable { .. }
        | AdminCmd::CreateExtension { .. }
        | AdminCmd::CreateTenant { .. }
        | AdminCmd::Extend { .. }
        | AdminCmd::SetQuota { .. } => true,
        AdminCmd::Advise { .. }
        | AdminCmd::ShowFold { .. }
        | AdminCmd::Refold { .. }
        | AdminCmd::Step { .. }
        | AdminCmd::Explain { .. } => false,
    }
}
