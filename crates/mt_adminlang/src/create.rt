ghost use Rattle.std.specs.Prelude.{◌≡◌, option_map};
ghost use Rattle.mt_reader.specs.Taken.{TakesExactly, TakesInside};
ghost use Rattle.mt_adminlang.specs.Body.{IsBodyInside};
ghost use Rattle.mt_adminlang.specs.Descent.{next_of, body_of, create_table_of, extension_of, tenant_of, create_of};
ghost use Rattle.mt_adminlang.specs.Inside.{IsCommandInside};

use crate::column::{DefForm, ExtensionDefForm};
use crate::names::names;
use mt_lexer::Symbol;
use mt_list::List;
use mt_reader::{Production, ReadFault, Reader, bracketed, pushed, size_of};
use mt_tree::{AdminCmd, Def, Names};
use std::alloc::Global;

/// What stands in the brackets of CREATE TABLE.
#[derive(Drop)]
pub(crate) struct TableBody {
    columns: List<Def>,
    key: Names,
}

/// Takes what stands behind CREATE; `None` is for a number outside 64 bits, here and below.
#[tactic(auto, unfolding(crate::specs::Descent::create_of))]
pub(crate) fn create(alloc: Global, reader: &mut Reader<'_>) -> Result<Option<AdminCmd>, ReadFault>
    ensures { TakesInside IsCommandInside result reader.new (create_of reader.old) }
{
    if reader.takes_word(b"table") {
        return table(alloc, reader);
    }
    if reader.takes_word(b"extension") {
        return extension(alloc, reader);
    }
    reader.word(b"tenant")?;
    tenant(reader)
}

/// Takes what stands behind CREATE TABLE.
#[tactic(auto, unfolding(crate::specs::Descent::create_table_of))]
fn table(alloc: Global, reader: &mut Reader<'_>) -> Result<Option<AdminCmd>, ReadFault>
    ensures { TakesInside IsCommandInside result reader.new (create_table_of reader.old) }
{
    let name = reader.name(alloc)?;
    reader.symbol(Symbol::Open)?;
    let body = body(alloc, reader)?;
    reader.symbol(Symbol::Close)?;
    match body {
        Some(body) => Ok(Some(AdminCmd::CreateTable {
            name,
            columns: body.columns,
            key: body.key,
        })),
        None => Ok(None),
    }
}

/// Takes the columns of a table, and the key behind them if there is one.
fn body(alloc: Global, reader: &mut Reader<'_>) -> Result<Option<TableBody>, ReadFault>
    ensures { TakesInside IsBodyInside result reader.new (body_of reader.old) }
{
    let mut columns = Some(List::new(alloc));
    loop {
        columns = pushed(columns, DefForm::take(alloc, reader)?)?;
        match behind_column(alloc, reader)? {
            Some(key) => return Ok(with_key(columns, key)),
            None => {}
        }
    }
}

/// Takes what stands behind a column: the key, where PRIMARY stands behind a comma, and a key of no
/// names where no comma comes. `None` is a comma in front of another column.
#[tactic(auto, unfolding(crate::specs::Descent::next_of))]
fn behind_column(alloc: Global, reader: &mut Reader<'_>) -> Result<Option<Names>, ReadFault>
    ensures { TakesExactly result (λ next. (next, reader.new)) (next_of reader.old) }
{
    if !reader.takes_symbol(Symbol::Comma) {
        return Ok(Some(List::new(alloc)));
    }
    if !reader.takes_word(b"primary") {
        return Ok(None);
    }
    reader.word(b"key")?;
    Ok(Some(names(alloc, reader)?))
}

/// The columns with their key.
fn with_key(columns: Option<List<Def>>, key: Names) -> Option<TableBody>
    ensures { result ≡ option_map (λ columns. record { columns = columns; key = key }) columns }
{
    Some(TableBody {
        columns: columns?,
        key,
    })
}

/// Takes what stands behind CREATE EXTENSION.
#[tactic(auto, unfolding(crate::specs::Descent::extension_of))]
fn extension(alloc: Global, reader: &mut Reader<'_>) -> Result<Option<AdminCmd>, ReadFault>
    ensures { TakesInside IsCommandInside result reader.new (extension_of reader.old) }
{
    let name = reader.name(alloc)?;
    reader.word(b"on")?;
    let base = reader.name(alloc)?;
    let columns = bracketed::<ExtensionDefForm>(alloc, reader)?;
    match columns {
        Some(columns) => Ok(Some(AdminCmd::CreateExtension {
            name,
            base,
            columns,
        })),
        None => Ok(None),
    }
}

/// Takes what stands behind CREATE TENANT.
#[tactic(auto, unfolding(crate::specs::Descent::tenant_of))]
fn tenant(reader: &mut Reader<'_>) -> Result<Option<AdminCmd>, ReadFault>
    ensures { TakesInside IsCommandInside result reader.new (tenant_of reader.old) }
{
    let tenant = size_of(reader.number()?);
    reader.word(b"quota")?;
    let quota = size_of(reader.number()?);
    match (tenant, quota) {
        (Some(tenant), Some(quota)) => Ok(Some(AdminCmd::CreateTenant { tenant, quota })),
        _ => Ok(None),
    }
}
