ghost use Rattle.std.specs.Prelude.{◌≡◌, ◌≤◌, length, IfOk, IsErrOf};
ghost use Rattle.mt_catalog.specs.Found.{AreFoundBases, AreFoundColumns, AreFoundExtensions, IsOfNone};
ghost use Rattle.mt_catalog.specs.Keyed.{slot_in};
ghost use Rattle.mt_catalog.specs.Small.{AreNarrow, AreSmallBases};

use crate::CatFault;
use crate::lookups::{column_at, relation_at};
use mt_catalog::Extension;
use mt_catcheck::SlotMap;
use mt_catslot::Class;
use mt_list::List;
use mt_tree::{Columns, Table};
use std::alloc::Global;

/// The columns of a base table or an extension.
fn read_columns(
    alloc: Global,
    slots: &SlotMap,
    class: Class,
    number: u32,
) -> Result<Columns, CatFault>
    ensures ok { IfOk result (λ columns. AreFoundColumns (slot_in slots.now.entries) class number columns) }
    ensures few { IfOk result (λ columns. length columns ≤ 16) }
    ensures damaged { IsErrOf result CatFault.Damaged → IsOfNone (slot_in slots.now.entries) }
{
    let mut columns = List::new(alloc);
    for position in 0..17 {
        let Some(column) = column_at(slots, class, number, position)? else {
            return Ok(columns);
        };
        columns.push(column)?;
    }
    Err(CatFault::Damaged)
}

/// The base tables.
pub(crate) fn read_bases(alloc: Global, slots: &SlotMap) -> Result<List<Table>, CatFault>
    ensures ok { IfOk result (λ bases. AreFoundBases (slot_in slots.now.entries) bases) }
    ensures small { IfOk result AreSmallBases }
    ensures damaged { IsErrOf result CatFault.Damaged → IsOfNone (slot_in slots.now.entries) }
{
    let mut bases = List::new(alloc);
    for number in 0..17 {
        let Some((_, name)) = relation_at(slots, Class::BaseTable, number)? else {
            return Ok(bases);
        };
        let columns = read_columns(alloc, slots, Class::BaseTable, number)?;
        bases.push(Table { name, columns })?;
    }
    Err(CatFault::Damaged)
}

/// The extensions.
pub(crate) fn read_extensions(alloc: Global, slots: &SlotMap) -> Result<List<Extension>, CatFault>
    ensures ok { IfOk result (λ extensions. AreFoundExtensions (slot_in slots.now.entries) extensions) }
    ensures narrow { IfOk result AreNarrow }
    ensures damaged { IsErrOf result CatFault.Damaged → IsOfNone (slot_in slots.now.entries) }
{
    let mut extensions = List::new(alloc);
    for number in 0..65 {
        let Some((base, name)) = relation_at(slots, Class::Extension, number)? else {
            return Ok(extensions);
        };
        let columns = read_columns(alloc, slots, Class::Extension, number)?;
        extensions.push(Extension {
            name,
            base,
            columns,
        })?;
    }
    Err(CatFault::Damaged)
}
