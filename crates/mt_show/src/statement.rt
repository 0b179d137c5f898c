#![tactic(auto, unfolding(crate::specs::Spaced::spaced))]

ghost use Rattle.std.specs.Prelude.{◌≡◌, ◌++◌, flat_map, IfOk, OnOk};
ghost use Rattle.mt_show.specs.Spaced.{spaced};
ghost use Rattle.mt_show.specs.Statements.{clause_tokens, as_tokens, items_tokens, table_tokens, following_tokens, refs_tokens, group_tokens, by_tokens, order_tokens, limit_tokens, source_tokens, select_tokens, columns_tokens, insert_tokens, update_tokens, filter_tokens, statement_tokens, statement_text};

use crate::part::{Part, flag, listed};
use crate::place::Place;
use crate::printer::Printer;
use crate::terms::{condition, expression};
use mt_lexer::Symbol;
use mt_tree::{
    ColName, Cond, Filter, Insert, Item, OrderBy, OrderKey, Ref, Select, SetItem, Stmt, Tuple,
    Update,
};
use mt_value::Str;
use std::alloc::{AllocError, Global};

/// The text of a statement. `AllocError` is want of memory.
pub(crate) fn print(alloc: Global, statement: &Stmt) -> Result<Str, AllocError>
    ensures { IfOk result (λ text. text ≡ statement_text statement.now) }
{
    let mut printer = Printer::new(alloc);
    any_kind(&mut printer, statement)?;
    printer.finish()
}

/// Prints a statement of any kind.
fn any_kind(printer: &mut Printer, statement: &Stmt) -> Result<(), AllocError>
    ensures { OnOk result (printer.new ≡ printer.old ++ spaced (statement_tokens statement.now)) }
{
    match statement {
        Stmt::Select(select) => query(printer, select),
        Stmt::Insert(insert) => insertion(printer, insert),
        Stmt::Update(update) => change(printer, update),
        Stmt::Delete(filter) => {
            printer.word("delete")?;
            printer.word("from")?;
            filtered(printer, filter)
        }
        Stmt::Restore(filter) => {
            printer.word("restore")?;
            filtered(printer, filter)
        }
        Stmt::Purge(filter) => {
            printer.word("purge")?;
            filtered(printer, filter)
        }
    }
}

/// Prints a SELECT.
fn query(printer: &mut Printer, select: &Select) -> Result<(), AllocError>
    ensures { OnOk result (printer.new ≡ printer.old ++ spaced (select_tokens select.now)) }
{
    printer.word("select")?;
    flag(printer, select.distinct, "distinct")?;
    items(printer, select.items.as_slice())?;
    printer.word("from")?;
    source(printer, select)
}

/// Prints what stands behind FROM.
fn source(printer: &mut Printer, select: &Select) -> Result<(), AllocError>
    ensures { OnOk result (printer.new ≡ printer.old ++ spaced (source_tokens select.now)) }
{
    refs(printer, select.refs.as_slice())?;
    clause(printer, "where", &select.cond)?;
    group(printer, select.group.as_slice())?;
    clause(printer, "having", &select.having)?;
    order(printer, select.order.as_slice())?;
    limit(printer, select.limit)
}

/// Prints the items of a SELECT, or a star where there are none.
fn items(printer: &mut Printer, items: &[Item]) -> Result<(), AllocError>
    ensures { OnOk result (printer.new ≡ printer.old ++ spaced (items_tokens items.now)) }
{
    if items.is_empty() {
        return printer.symbol(Symbol::Star);
    }
    listed(printer, items)
}

impl Part for Item {
    ghost use Rattle.mt_show.specs.Statements.{item_tokens};

    ghost tokens = { item_tokens };

    fn print(&self, printer: &mut Printer) -> Result<(), AllocError> {
        expression(printer, &self.expr, Place::Whole)?;
        alias(printer, &self.name)
    }
}

/// Prints AS and a name, if there is one.
fn alias(printer: &mut Printer, name: &Option<Str>) -> Result<(), AllocError>
    ensures { OnOk result (printer.new ≡ printer.old ++ spaced (as_tokens name.now)) }
{
    match name {
        None => Ok(()),
        Some(name) => {
            printer.word("as")?;
            printer.word(name.as_str())
        }
    }
}

/// Prints table references, each but the first behind a comma or as a join.
fn refs(printer: &mut Printer, refs: &[Ref]) -> Result<(), AllocError>
    ensures { OnOk result (printer.new ≡ printer.old ++ spaced (refs_tokens refs.now)) }
{
    let Some((first, others)) = refs.split_first() else {
        return Ok(());
    };
    table(printer, first)?;
    followers(printer, others)
}

/// Prints the table references behind the first one.
fn followers(printer: &mut Printer, refs: &[Ref]) -> Result<(), AllocError>
    ensures { OnOk result (printer.new ≡ printer.old ++ spaced (flat_map (λ reference. following_tokens reference reference.on) refs.now)) }
{
    for reference in refs {
        following(printer, reference)?;
    }
    Ok(())
}

/// Prints a table, with its alias if it has one.
fn table(printer: &mut Printer, reference: &Ref) -> Result<(), AllocError>
    ensures { OnOk result (printer.new ≡ printer.old ++ spaced (table_tokens reference.now)) }
{
    printer.word(reference.table.as_str())?;
    alias(printer, &reference.alias)
}

/// Prints a table reference behind the first one.
fn following(printer: &mut Printer, reference: &Ref) -> Result<(), AllocError>
    ensures { OnOk result (printer.new ≡ printer.old ++ spaced (following_tokens reference.now reference.now.on)) }
{
    match &reference.on {
        None => {
            printer.symbol(Symbol::Comma)?;
            table(printer, reference)
        }
        Some(on) => {
            printer.word("join")?;
            table(printer, reference)?;
            printer.word("on")?;
            condition(printer, on, Place::Whole)
        }
    }
}

/// Prints a condition behind its word, if there is one.
fn clause(printer: &mut Printer, word: &str, cond: &Option<Cond>) -> Result<(), AllocError>
    ensures { OnOk result (printer.new ≡ printer.old ++ spaced (clause_tokens word.now cond.now)) }
{
    match cond {
        None => Ok(()),
        Some(cond) => {
            printer.word(word)?;
            condition(printer, cond, Place::Whole)
        }
    }
}

/// Prints the columns of GROUP BY, if there are any.
fn group(printer: &mut Printer, columns: &[ColName]) -> Result<(), AllocError>
    ensures { OnOk result (printer.new ≡ printer.old ++ spaced (group_tokens columns.now)) }
{
    if columns.is_empty() {
        return Ok(());
    }
    printer.word("group")?;
    printer.word("by")?;
    listed(printer, columns)
}

/// Prints the keys of ORDER BY, if there are any.
fn order(printer: &mut Printer, keys: &[OrderKey]) -> Result<(), AllocError>
    ensures { OnOk result (printer.new ≡ printer.old ++ spaced (order_tokens keys.now)) }
{
    if keys.is_empty() {
        return Ok(());
    }
    printer.word("order")?;
    printer.word("by")?;
    listed(printer, keys)
}

impl Part for OrderKey {
    ghost use Rattle.mt_show.specs.Statements.{key_tokens};

    ghost tokens = { key_tokens };

    fn print(&self, printer: &mut Printer) -> Result<(), AllocError> {
        output(printer, &self.by)?;
        flag(printer, self.desc, "desc")
    }
}

/// Prints which output a key names.
fn output(printer: &mut Printer, by: &OrderBy) -> Result<(), AllocError>
    ensures { OnOk result (printer.new ≡ printer.old ++ spaced (by_tokens by.now)) }
{
    match by {
        OrderBy::Name(name) => printer.word(name.as_str()),
        OrderBy::Position(position) => printer.number(*position),
    }
}

/// Prints LIMIT, if there is one.
fn limit(printer: &mut Printer, limit: Option<u64>) -> Result<(), AllocError>
    ensures { OnOk result (printer.new ≡ printer.old ++ spaced (limit_tokens limit)) }
{
    match limit {
        None => Ok(()),
        Some(count) => {
            printer.word("limit")?;
            printer.number(count)
        }
    }
}

/// Prints an INSERT.
fn insertion(printer: &mut Printer, insert: &Insert) -> Result<(), AllocError>
    ensures { OnOk result (printer.new ≡ printer.old ++ spaced (insert_tokens insert.now)) }
{
    printer.word("insert")?;
    printer.word("into")?;
    printer.word(insert.table.as_str())?;
    columns(printer, insert.columns.as_slice())?;
    printer.word("values")?;
    listed(printer, insert.tuples.as_slice())
}

/// Prints names in brackets, if there are any.
fn columns(printer: &mut Printer, names: &[Str]) -> Result<(), AllocError>
    ensures { OnOk result (printer.new ≡ printer.old ++ spaced (columns_tokens names.now)) }
{
    if names.is_empty() {
        return Ok(());
    }
    printer.symbol(Symbol::Open)?;
    listed(printer, names)?;
    printer.symbol(Symbol::Close)
}

impl Part for Str {
    ghost use Rattle.mt_reader.specs.Forms.{word};

    ghost tokens = { word };

    fn print(&self, printer: &mut Printer) -> Result<(), AllocError> {
        printer.word(self.as_str())
    }
}

impl Part for Tuple {
    ghost use Rattle.mt_show.specs.Statements.{tuple_tokens};

    ghost tokens = { tuple_tokens };

    fn print(&self, printer: &mut Printer) -> Result<(), AllocError> {
        printer.symbol(Symbol::Open)?;
        listed(printer, self.as_slice())?;
        printer.symbol(Symbol::Close)
    }
}

/// Prints an UPDATE.
fn change(printer: &mut Printer, update: &Update) -> Result<(), AllocError>
    ensures { OnOk result (printer.new ≡ printer.old ++ spaced (update_tokens update.now)) }
{
    printer.word("update")?;
    printer.word(update.table.as_str())?;
    printer.word("set")?;
    listed(printer, update.sets.as_slice())?;
    clause(printer, "where", &update.cond)
}

impl Part for SetItem {
    ghost use Rattle.mt_show.specs.Statements.{set_tokens};

    ghost tokens = { set_tokens };

    fn print(&self, printer: &mut Printer) -> Result<(), AllocError> {
        printer.word(self.column.as_str())?;
        printer.symbol(Symbol::Equal)?;
        expression(printer, &self.expr, Place::Whole)
    }
}

/// Prints a table, and a condition if there is one.
fn filtered(printer: &mut Printer, filter: &Filter) -> Result<(), AllocError>
    ensures { OnOk result (printer.new ≡ printer.old ++ spaced (filter_tokens filter.now)) }
{
    printer.word(filter.table.as_str())?;
    clause(printer, "where", &filter.cond)
}
