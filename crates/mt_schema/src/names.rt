//! The names of columns, and whether one stands twice among them.
ghost use Rattle.std.specs.Prelude.{◌≡◌, ℕ, ◌||◌, not, List, ◌++◌, flat_map, slice_get, IfOk, OnOk};
ghost use Rattle.std.specs.List.{list_all};
ghost use Rattle.std.specs.Str.{bytes_eq};
ghost use Rattle.indexmap.specs.IndexSet.{contains};
ghost use Rattle.mt_catalog.specs.Rules.{column_names};
ghost use Rattle.mt_catalog.specs.State as state;
ghost use Rattle.mt_schema.specs.Refusals as tests;
ghost use Rattle.mt_schema.specs.Steps as steps;

use crate::lookup::{base_columns, extension_columns};
use indexmap::IndexSet;
use mt_catalog::{Catalog, Extension};
use mt_list::List;
use mt_tree::{Column, Def, Names};
use mt_value::Str;
use std::alloc::{AllocError, Global};

/// Adds the names of columns at the end.
pub(crate) fn add_column_names(names: &mut Names, columns: &[Column]) -> Result<(), AllocError>
    ensures { OnOk result (names.new ≡ names.old ++ column_names columns.now) }
{
    let mut rest = columns;
    while let Some((first, others)) = rest.split_first() {
        names.push(first.name.copy()?)?;
        rest = others;
    }
    Ok(())
}

/// Adds the names that are defined at the end.
fn add_def_names(names: &mut Names, defs: &[Def]) -> Result<(), AllocError>
    ensures { OnOk result (names.new ≡ names.old ++ tests.def_names defs.now) }
{
    let mut rest = defs;
    while let Some((first, others)) = rest.split_first() {
        names.push(first.name.copy()?)?;
        rest = others;
    }
    Ok(())
}

/// Adds the names of the columns of these extensions at the end.
fn add_extension_names(
    names: &mut Names,
    extensions: &[Extension],
    numbers: &[u32],
) -> Result<(), AllocError>
    ensures { OnOk result (names.new ≡ names.old ++ column_names (flat_map (λ number. state.extension_columns (slice_get extensions.now number)) numbers.now)) }
{
    let mut rest = numbers;
    while let Some((first, others)) = rest.split_first() {
        add_column_names(names, extension_columns(extensions, *first as usize))?;
        rest = others;
    }
    Ok(())
}

/// The names of the columns of a tenant's table.
pub(crate) fn extended_names(
    alloc: Global,
    catalog: &Catalog,
    base: usize,
    numbers: &[u32],
) -> Result<Names, AllocError>
    ensures { IfOk result (λ names. names ≡ column_names (state.extended_columns catalog.now base numbers.now)) }
{
    let mut names = List::new(alloc);
    add_column_names(&mut names, base_columns(catalog.bases.as_slice(), base))?;
    add_extension_names(&mut names, catalog.extensions.as_slice(), numbers)?;
    Ok(names)
}

/// Whether a name stands twice among these. A text can define thousands, so they are found by hash.
pub(crate) fn has_repeat(alloc: Global, names: &[Str]) -> Result<bool, AllocError>
    ensures { IfOk result (λ repeats. repeats ≡ tests.has_repeat names.now) }
{
    let mut seen = IndexSet::new(alloc);
    let mut rest = names;
    while let Some((first, others)) = rest.split_first() {
        if !seen.insert(first.copy()?)? {
            return Ok(true);
        }
        rest = others;
    }
    Ok(false)
}

/// The names that are defined, to be found by hash.
fn named(alloc: Global, defs: &[Def]) -> Result<IndexSet<Str>, AllocError>
    ensures { IfOk result (λ names. (name : List ℕ) → contains bytes_eq names name ≡ steps.has_name (tests.def_names defs.now) name) }
{
    let mut names = IndexSet::new(alloc);
    let mut rest = defs;
    while let Some((first, others)) = rest.split_first() {
        names.insert(first.name.copy()?)?;
        rest = others;
    }
    Ok(names)
}

/// Whether each of these is among the names.
fn are_among(names: &IndexSet<Str>, wanted: &[Str]) -> bool
    ensures { result ≡ list_all (contains bytes_eq names.now) wanted.now }
{
    wanted.iter().all(|name| names.contains(name))
}

/// Whether a column of a key is not defined.
pub(crate) fn lacks_columns(alloc: Global, defs: &[Def], key: &[Str]) -> Result<bool, AllocError>
    ensures { IfOk result (λ lacks. lacks ≡ not (list_all (steps.has_name (tests.def_names defs.now)) key.now)) }
{
    let names = named(alloc, defs)?;
    Ok(!are_among(&names, key))
}

/// Whether a column is defined twice, or stands in a key twice.
pub(crate) fn repeats_columns(alloc: Global, defs: &[Def], key: &[Str]) -> Result<bool, AllocError>
    ensures { IfOk result (λ repeats. repeats ≡ (tests.has_repeat (tests.def_names defs.now) || tests.has_repeat key.now)) }
{
    let mut names = List::new(alloc);
    add_def_names(&mut names, defs)?;
    if has_repeat(alloc, names.as_slice())? {
        return Ok(true);
    }
    has_repeat(alloc, key)
}

/// Whether a name stands twice among those of a base table's columns and those that are defined.
pub(crate) fn repeats_beside(
    alloc: Global,
    columns: &[Column],
    defs: &[Def],
) -> Result<bool, AllocError>
    ensures { IfOk result (λ repeats. repeats ≡ tests.has_repeat (column_names columns.now ++ tests.def_names defs.now)) }
{
    let mut names = List::new(alloc);
    add_column_names(&mut names, columns)?;
    add_def_names(&mut names, defs)?;
    has_repeat(alloc, names.as_slice())
}
