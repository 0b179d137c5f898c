use crate::reading::catalog_of;
use crate::slot_map::add_slot;
use crate::tests::Line::{Column, Extended, Extension, Field, Placement, Table, Tenant};
use crate::{CatFault, read_catalog};
use indexmap::IndexMap;
use mt_catalog::Catalog;
use mt_catcheck::SlotMap;
use mt_catslot::{CatSlot, Class, Motion};
use mt_fold::{Fold, Place, Shape};
use mt_list::List;
use mt_tree::Kind;
use mt_value::{Str, StrFault};
use std::alloc::Global;
use std::test::Fail;

/// A slot.
#[derive(Clone, Copy)]
enum Line {
    Table(u32, u32, &'static str),
    Extension(u32, u32, &'static str),
    Column(Class, u32, u32, Kind, bool, bool, &'static str),
    Tenant(u32, u32),
    Placement(u32, u32, u64, Motion),
    Extended(u32, u32, u32, u32),
    Field(u32, u32, u8, u32, Shape, u8, u8),
}

/// A column of base table 0, also in a constant.
macro_rules! base {
    ($position:expr, $kind:expr, $not_null:expr, $key:expr, $name:expr) => {
        Column(
            Class::BaseTable,
            0,
            $position,
            $kind,
            $not_null,
            $key,
            $name,
        )
    };
}

/// A column of extension 0, also in a constant.
macro_rules! more {
    ($position:expr, $kind:expr, $not_null:expr, $key:expr, $name:expr) => {
        Column(
            Class::Extension,
            0,
            $position,
            $kind,
            $not_null,
            $key,
            $name,
        )
    };
}

/// A table with all rows in the fold of generation 0.
const SETTLED: Motion = Motion::Settled { generation: 0 };

/// A table that moves from generation 0 to 1.
const MOVING: Motion = Motion::Moving {
    generation: 0,
    frontier: 2,
    upto: 9,
};

/// A base table, an extension of it, and two tenants: of the first it is extended, of the second it
/// moves.
static GOOD: [Line; 12] = [
    Table(0, 0, "item"),
    base!(0, Kind::Integer, true, true, "id"),
    base!(1, Kind::Varchar(20), false, false, "label"),
    Extension(0, 0, "extra"),
    more!(0, Kind::Integer, false, false, "price"),
    Tenant(7, 10),
    Placement(7, 0, 5, SETTLED),
    Extended(7, 0, 0, 0),
    Field(7, 0, 0, 2, Shape::C1, 0, 0),
    Tenant(8, 65536),
    Placement(8, 0, 9, MOVING),
    Field(8, 0, 1, 1, Shape::C2, 0, 0),
];

/// The slot of a base table or an extension.
fn relation_of(
    alloc: Global,
    class: Class,
    number: u32,
    base: u32,
    name: &str,
) -> Result<CatSlot, StrFault> {
    Ok(CatSlot::Relation {
        class,
        number,
        base,
        name: Str::from_str(alloc, name)?,
    })
}

/// The slot of a line.
fn slot_of(alloc: Global, line: Line) -> Result<CatSlot, StrFault> {
    Ok(match line {
        Table(number, base, name) => relation_of(alloc, Class::BaseTable, number, base, name)?,
        Extension(number, base, name) => relation_of(alloc, Class::Extension, number, base, name)?,
        Column(class, number, position, kind, not_null, key, name) => CatSlot::Column {
            class,
            number,
            position,
            kind,
            not_null,
            key,
            name: Str::from_str(alloc, name)?,
        },
        Tenant(tenant, quota) => CatSlot::Tenant { tenant, quota },
        Placement(tenant, base, made, motion) => CatSlot::Placement {
            tenant,
            base,
            made,
            motion,
        },
        Extended(tenant, base, position, extension) => CatSlot::Extended {
            tenant,
            base,
            position,
            extension,
        },
        Field(tenant, base, generation, column, shape, chunk, field) => CatSlot::Field {
            tenant,
            base,
            generation,
            column,
            shape,
            chunk,
            field,
        },
    })
}

/// Whether this is no damage. What was read is dropped by one call.
fn is_sound<T: Drop>(answer: Result<T, CatFault>) -> Result<bool, CatFault> {
    match answer {
        Ok(_) => Ok(true),
        Err(CatFault::Damaged) => Ok(false),
        Err(CatFault::Memory) => Err(CatFault::Memory),
    }
}

/// Adds the slot of a line, and tells whether there was none with its key.
fn add_line(alloc: Global, slots: &mut SlotMap, line: Line) -> Result<bool, Fail> {
    let slot = slot_of(alloc, line)?;
    Ok(is_sound(add_slot(slots, slot))?)
}

/// Adds the slots of some lines.
fn add_lines(alloc: Global, slots: &mut SlotMap, lines: &[Line]) -> Result<bool, Fail> {
    for line in lines {
        if !add_line(alloc, slots, *line)? {
            return Ok(false);
        }
    }
    Ok(true)
}

/// Adds the slots of the good lines from the last to the first.
fn add_turned(alloc: Global, slots: &mut SlotMap) -> Result<bool, Fail> {
    for line in GOOD.iter().rev() {
        if !add_line(alloc, slots, *line)? {
            return Ok(false);
        }
    }
    Ok(true)
}

/// Adds the slots of the good lines but those at these places.
fn add_all_but(alloc: Global, slots: &mut SlotMap, without: &[usize]) -> Result<bool, Fail> {
    for (at, line) in GOOD.iter().enumerate() {
        if !without.contains(&at) && !add_line(alloc, slots, *line)? {
            return Ok(false);
        }
    }
    Ok(true)
}

/// Adds the good lines, without those at these places and with some others, and tells whether they
/// are of a catalogue.
fn add_changed(
    alloc: Global,
    slots: &mut SlotMap,
    without: &[usize],
    with: &[Line],
) -> Result<bool, Fail> {
    if !add_all_but(alloc, slots, without)? || !add_lines(alloc, slots, with)? {
        return Ok(false);
    }
    Ok(is_sound(catalog_of(alloc, slots))?)
}

/// Whether the good lines, without those at these places and with some others, are of a catalogue.
fn is_read(alloc: Global, without: &[usize], with: &[Line]) -> Result<bool, Fail> {
    let mut slots = IndexMap::new(alloc);
    add_changed(alloc, &mut slots, without, with)
}

/// What is checked of the good catalogue.
fn is_good(catalog: &Catalog) -> bool {
    catalog.bases.len() == 1
        && catalog.bases.get(0).columns.len() == 2
        && catalog.extensions.len() == 1
        && catalog.tenants.len() == 2
        && match catalog.tenants.get(&7) {
            None => false,
            Some(entry) => {
                entry.quota == 10 && entry.tables.len() == 1 && entry.tables.get(0).made == 5
            }
        }
}

/// The old and the new fold of the first table of a tenant, where it moves.
fn moving_folds(catalog: &Catalog, tenant: u32) -> Option<(&Fold, &Fold)> {
    match catalog.tenants.get(&tenant) {
        None => None,
        Some(entry) => match entry.tables.as_slice().first() {
            None => None,
            Some(table) => match &table.placement {
                mt_fold::Placement::Settled { .. } => None,
                mt_fold::Placement::Moving { before, after, .. } => Some((before, after)),
            },
        },
    }
}

/// Whether the table of the second tenant moves out of the conventional row.
fn has_moved_places(catalog: &Catalog) -> bool {
    match moving_folds(catalog, 8) {
        None => false,
        Some((before, after)) => {
            before.places.as_slice() == [Place::Conv, Place::Conv].as_slice()
                && after.places.as_slice()
                    == [Place::Conv, Place::Field { chunk: 0, field: 0 }].as_slice()
                && after.shapes.as_slice() == [Shape::C2].as_slice()
        }
    }
}

/// Whether the slots are read as the good catalogue.
fn are_good(alloc: Global, slots: &SlotMap) -> Result<bool, CatFault> {
    let catalog = catalog_of(alloc, slots)?;
    Ok(is_good(&catalog))
}

/// Whether the slots are read as a catalogue in which the second tenant's table moves.
fn have_moved_places(alloc: Global, slots: &SlotMap) -> Result<bool, CatFault> {
    let catalog = catalog_of(alloc, slots)?;
    Ok(has_moved_places(&catalog))
}

#[test]
fn good_slots_are_read(rt: HostRuntime) -> Result<(), Fail> {
    let mut slots = IndexMap::new(rt.alloc());
    assert!(rt; add_lines(rt.alloc(), &mut slots, &GOOD)?);
    assert!(rt; are_good(rt.alloc(), &slots)?);
    Ok(())
}

#[test]
fn good_slots_are_read_in_another_order(rt: HostRuntime) -> Result<(), Fail> {
    let mut slots = IndexMap::new(rt.alloc());
    assert!(rt; add_turned(rt.alloc(), &mut slots)?);
    assert!(rt; are_good(rt.alloc(), &slots)?);
    Ok(())
}

#[test]
fn places_are_read(rt: HostRuntime) -> Result<(), Fail> {
    let mut slots = IndexMap::new(rt.alloc());
    assert!(rt; add_lines(rt.alloc(), &mut slots, &GOOD)?);
    assert!(rt; have_moved_places(rt.alloc(), &slots)?);
    Ok(())
}

#[test]
fn no_slots_are_the_empty_catalogue(rt: HostRuntime) -> Result<(), Fail> {
    let catalog = read_catalog(rt.alloc(), &List::new(rt.alloc()))?;
    assert!(rt; catalog.bases.is_empty());
    assert!(rt; catalog.tenants.is_empty());
    Ok(())
}

/// What is damaged, the places of the good lines that are left out, and the lines that are added.
type Case = (&'static str, &'static [usize], &'static [Line]);

/// Damage of base tables, extensions and their columns.
static RELATIONS: [Case; 15] = [
    ("a key twice", &[], &[Table(0, 0, "other")]),
    ("a gap in numbers", &[], &[Table(2, 2, "other")]),
    ("no column", &[], &[Table(1, 1, "other")]),
    (
        "a gap in positions",
        &[],
        &[base!(3, Kind::Integer, false, false, "other")],
    ),
    (
        "a column of no table",
        &[],
        &[Column(Class::BaseTable, 1, 0, Kind::Integer, false, false, "a")],
    ),
    ("another base", &[0], &[Table(0, 1, "item")]),
    ("no base", &[3], &[Extension(0, 1, "extra")]),
    ("no name", &[0], &[Table(0, 0, "select")]),
    (
        "a capital",
        &[2],
        &[base!(1, Kind::Varchar(20), false, false, "Label")],
    ),
    (
        "a name twice",
        &[2],
        &[base!(1, Kind::Varchar(20), false, false, "id")],
    ),
    (
        "a name of the base",
        &[4],
        &[more!(0, Kind::Integer, false, false, "label")],
    ),
    (
        "a size",
        &[2],
        &[base!(1, Kind::Varchar(121), false, false, "label")],
    ),
    (
        "a key of NULL",
        &[1],
        &[base!(0, Kind::Integer, false, true, "id")],
    ),
    (
        "a key of an extension",
        &[4],
        &[more!(0, Kind::Integer, true, true, "price")],
    ),
    (
        "NOT NULL of an extension",
        &[4],
        &[more!(0, Kind::Integer, true, false, "price")],
    ),
];

/// Damage of tenants, and of how their tables lie.
static TENANTS: [Case; 16] = [
    (
        "tenant 0",
        &[5, 6, 7, 8],
        &[Tenant(0, 1), Placement(0, 0, 0, SETTLED)],
    ),
    ("no quota", &[5], &[Tenant(7, 0)]),
    ("a large quota", &[5], &[Tenant(7, 65537)]),
    ("no placement", &[6], &[]),
    (
        "a placement of no table",
        &[],
        &[Placement(7, 1, 0, SETTLED)],
    ),
    (
        "a placement of no tenant",
        &[],
        &[Placement(9, 0, 0, SETTLED)],
    ),
    (
        "too many made",
        &[6],
        &[Placement(7, 0, (1 << 63) + 1, SETTLED)],
    ),
    (
        "a generation",
        &[6],
        &[Placement(7, 0, 5, Motion::Settled { generation: 2 })],
    ),
    (
        "moves none",
        &[10],
        &[Placement(
            8,
            0,
            9,
            Motion::Moving {
                generation: 0,
                frontier: 9,
                upto: 9,
            },
        )],
    ),
    (
        "moves what was not made",
        &[10],
        &[Placement(8, 0, 8, MOVING)],
    ),
    ("a gap in extensions", &[7], &[Extended(7, 0, 1, 0)]),
    (
        "extended by what is not there",
        &[7],
        &[Extended(7, 0, 0, 1)],
    ),
    ("a column with no place", &[8], &[]),
    (
        "a field of another generation",
        &[],
        &[Field(7, 0, 1, 2, Shape::C1, 0, 0)],
    ),
    (
        "a field of no column",
        &[],
        &[Field(7, 0, 0, 3, Shape::C4, 1, 0)],
    ),
    (
        "two shapes of a chunk",
        &[],
        &[Field(7, 0, 0, 0, Shape::C4, 0, 1)],
    ),
];

#[test]
fn damaged_relations(rt: HostRuntime) -> Result<(), Fail> {
    for (name, without, with) in &RELATIONS {
        assert!(rt; !is_read(rt.alloc(), without, with)?, "{name}");
    }
    Ok(())
}

#[test]
fn damaged_tenants(rt: HostRuntime) -> Result<(), Fail> {
    for (name, without, with) in &TENANTS {
        assert!(rt; !is_read(rt.alloc(), without, with)?, "{name}");
    }
    Ok(())
}
