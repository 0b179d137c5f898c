ghost use Rattle.std.specs.Prelude.{◌≡◌, ◌≤◌, All, length, IfOk, IsTrue, OnOk, false};
ghost use Rattle.std.specs.Bool.{Decides};
ghost use Rattle.mt_rowfile.specs.Layouts.{body_width};
ghost use Rattle.mt_rowfile.specs.Slots.{IsBody};
ghost use Rattle.mt_lexer.specs.Reserved.{IsNameText};
ghost use Rattle.mt_catalog.specs.Rules.{IsCatalogue};
ghost use Rattle.mt_schema.specs.Steps.{IsWellFormed};

use crate::tests::Line::{Extend, Extension, Quota, Table, Tenant};
use crate::{StepFault, accept, prepare};
use mt_catalog::{CatBodies, Catalog};
use mt_catread::read_catalog;
use mt_lexer::is_name;
use mt_list::List;
use mt_rowfile::{CatBody, Head, Layout, check_slot, slot_width};
use mt_tree::DefKind::{Integer, Varchar};
use mt_tree::{AdminCmd, Code, Def, DefKind, Names};
use mt_value::Str;
use std::alloc::{AllocError, Global};
use std::process::Abort;
use std::test::Fail;

/// A column as it is defined: its name, its kind, and whether it is NOT NULL.
type Part<'a> = (&'a str, DefKind, bool);

/// The table of a slot, and its body up to the last byte that is not 0.
type Body = (u32, &'static [u8]);

/// A schema step.
#[derive(Clone, Copy, Debug)]
enum Line<'a> {
    Table(&'a str, &'a [Part<'a>], &'a [&'a str]),
    Extension(&'a str, &'a str, &'a [Part<'a>]),
    Tenant(u64, u64),
    Extend(u64, &'a str),
    Quota(u64, u64),
}

/// These columns.
fn defs_of(alloc: Global, parts: &[Part]) -> Result<List<Def>, AllocError> {
    let mut defs = List::new(alloc);
    for (name, kind, not_null) in parts {
        let name = Str::from_str(alloc, name)?;
        defs.push(Def {
            name,
            kind: *kind,
            not_null: *not_null,
        })?;
    }
    Ok(defs)
}

/// These names.
fn names_of(alloc: Global, texts: &[&str]) -> Result<Names, AllocError> {
    let mut names = List::new(alloc);
    for text in texts {
        names.push(Str::from_str(alloc, text)?)?;
    }
    Ok(names)
}

/// The step of a line.
fn step_of(alloc: Global, line: Line) -> Result<AdminCmd, AllocError> {
    Ok(match line {
        Table(name, columns, key) => AdminCmd::CreateTable {
            name: Str::from_str(alloc, name)?,
            columns: defs_of(alloc, columns)?,
            key: names_of(alloc, key)?,
        },
        Extension(name, base, columns) => AdminCmd::CreateExtension {
            name: Str::from_str(alloc, name)?,
            base: Str::from_str(alloc, base)?,
            columns: defs_of(alloc, columns)?,
        },
        Tenant(tenant, quota) => AdminCmd::CreateTenant { tenant, quota },
        Extend(tenant, extension) => AdminCmd::Extend {
            tenant,
            extension: Str::from_str(alloc, extension)?,
        },
        Quota(tenant, quota) => AdminCmd::SetQuota { tenant, quota },
    })
}

/// Whether each column has a name.
fn are_named(defs: &[Def]) -> bool
    ensures { Decides result (All (λ def. IsNameText def.name) defs.now) }
{
    let mut rest = defs;
    while let Some((first, others)) = rest.split_first() {
        if !is_name(&first.name) {
            return false;
        }
        rest = others;
    }
    true
}

/// Whether a column has a name, and is not NOT NULL.
fn is_plain(def: &Def) -> bool
    ensures { Decides result (IsNameText def.now.name × (def.now.not_null ≡ false)) }
{
    is_name(&def.name) && !def.not_null
}

/// Whether each column has a name, and none is NOT NULL.
fn are_plain(defs: &[Def]) -> bool
    ensures { Decides result (All (λ def. IsNameText def.name × (def.not_null ≡ false)) defs.now) }
{
    let mut rest = defs;
    while let Some((first, others)) = rest.split_first() {
        if !is_plain(first) {
            return false;
        }
        rest = others;
    }
    true
}

/// Whether a text that is read can give this step.
fn is_formed(step: &AdminCmd) -> bool
    ensures { IsTrue result → IsWellFormed step.now }
{
    match step {
        AdminCmd::CreateTable { name, columns, .. } => {
            is_name(name) && columns.len() > 0 && are_named(columns.as_slice())
        }
        AdminCmd::CreateExtension { name, columns, .. } => {
            is_name(name) && columns.len() > 0 && are_plain(columns.as_slice())
        }
        AdminCmd::CreateTenant { .. } | AdminCmd::Extend { .. } | AdminCmd::SetQuota { .. } => true,
        _ => false,
    }
}

/// Whether a body has these bytes, and zeros behind them.
fn is_body(body: &[u8], wanted: &[u8]) -> bool {
    match body.strip_prefix(wanted) {
        None => false,
        Some(rest) => rest.iter().all(|byte| *byte == 0),
    }
}

/// Whether the bodies are these, in their order.
fn are_bodies(bodies: &CatBodies, wanted: &[Body]) -> bool {
    let bodies = bodies.as_slice();
    bodies.len() == wanted.len()
        && bodies.iter().zip(wanted.iter()).all(|(body, want)| body.0 == want.0
            && is_body(body.1.as_slice(), want.1))
}

/// The catalogue of an empty disk.
fn empty(alloc: Global) -> Result<Catalog, Fail>
    ensures { IfOk result (λ catalog. IsCatalogue catalog) }
{
    Ok(read_catalog(alloc, &List::new(alloc))?)
}

/// The catalogue after a step that puts and removes these slots.
fn change(
    rt: &impl Abort,
    alloc: Global,
    catalog: Catalog,
    line: Line,
    put: &[Body],
    removed: &[Body],
) -> Result<Catalog, Fail>
    requires { IsCatalogue catalog }
    ensures { IfOk result (λ next. IsCatalogue next) }
{
    let step = step_of(alloc, line)?;
    assert!(rt; is_formed(&step));
    let prepared = prepare(alloc, &catalog, 0, &step)?;
    assert!(rt; are_bodies(&prepared.rows.put, put), "{line:?}");
    assert!(rt; are_bodies(&prepared.rows.removed, removed), "{line:?}");
    let mut next = catalog;
    accept(&mut next, prepared);
    Ok(next)
}

/// The catalogue after a step.
fn take(rt: &impl Abort, alloc: Global, catalog: Catalog, line: Line) -> Result<Catalog, Fail>
    requires { IsCatalogue catalog }
    ensures { IfOk result (λ next. IsCatalogue next) }
{
    let step = step_of(alloc, line)?;
    assert!(rt; is_formed(&step));
    Ok(prepare(alloc, &catalog, 0, &step)?.next)
}

/// Why a step is refused where so many rows are kept.
fn refusal_of(
    rt: &impl Abort,
    alloc: Global,
    catalog: &Catalog,
    kept: u64,
    line: Line,
) -> Result<Option<Code>, Fail>
    requires { IsCatalogue catalog.now }
{
    let step = step_of(alloc, line)?;
    assert!(rt; is_formed(&step));
    match prepare(alloc, catalog, kept, &step) {
        Ok(_) => Ok(None),
        Err(StepFault::Refused(code)) => Ok(Some(code)),
        Err(StepFault::Memory) => Err(StepFault::Memory.into()),
    }
}

/// A base table with a key.
const ITEM: Line = Table(
    "item",
    &[("id", Integer, false), ("label", Varchar(20), false)],
    &["id"],
);

/// An extension of it.
const EXTRA: Line = Extension("extra", "item", &[("price", Integer, false)]);

/// A base table with no key.
const NOTE: Line = Table("note", &[("text", Varchar(5), true)], &[]);

/// Steps from the empty catalogue on, and the slots that each puts and removes.
const STEPS: [(Line, &[Body], &[Body]); 8] = [
    (
        ITEM,
        &[
            (8, b"\0\0\0\0\0\0\0\0\0\x04item"),
            (9, b"\0\0\0\0\0\0\0\0\0\x01\0\x01\x01\x02id"),
            (9, b"\0\0\0\0\0\x01\0\0\0\x02\x14\0\0\x05label"),
        ],
        &[],
    ),
    (
        Tenant(7, 10),
        &[(10, b"\x07\0\0\0\x0a"), (11, b"\x07")],
        &[],
    ),
    (
        EXTRA,
        &[
            (8, b"\0\0\0\0\x01\0\0\0\0\x05extra"),
            (9, b"\x01\0\0\0\0\0\0\0\0\x01\0\0\0\x05price"),
        ],
        &[],
    ),
    (
        Extend(7, "extra"),
        &[(12, b"\x07"), (13, b"\x07\0\0\0\0\0\0\0\0\x02\0\0\0\x01")],
        &[],
    ),
    (Quota(7, 10), &[], &[]),
    (
        Quota(7, 12),
        &[(10, b"\x07\0\0\0\x0c")],
        &[(10, b"\x07\0\0\0\x0a")],
    ),
    (
        NOTE,
        &[
            (8, b"\x01\0\0\0\0\x01\0\0\0\x04note"),
            (9, b"\0\x01\0\0\0\0\0\0\0\x02\x05\x01\0\x04text"),
            (11, b"\x07\0\0\0\x01"),
        ],
        &[],
    ),
    (
        Tenant(8, 1),
        &[
            (10, b"\x08\0\0\0\x01"),
            (11, b"\x08"),
            (11, b"\x08\0\0\0\x01"),
        ],
        &[],
    ),
];

/// The catalogue after these steps.
fn changed(rt: &impl Abort, alloc: Global) -> Result<Catalog, Fail>
    ensures { IfOk result (λ catalog. IsCatalogue catalog) }
{
    let mut catalog = empty(alloc)?;
    for (line, put, removed) in STEPS {
        catalog = change(rt, alloc, catalog, line, put, removed)?;
    }
    Ok(catalog)
}

#[test]
fn steps_change_their_slots(rt: HostRuntime) -> Result<(), Fail> {
    let catalog = changed(&rt, rt.alloc())?;
    assert_eq!(rt; catalog.bases.len(), 2);
    assert_eq!(rt; catalog.extensions.len(), 1);
    assert_eq!(rt; catalog.tenants.len(), 2);
    Ok(())
}

/// A column.
const A: Part = ("a", Integer, false);

/// Steps after those above with so many rows kept, and the first refusal of each.
const REFUSED: [(Line, u64, Code); 18] = [
    (Table("other", &[A], &["b"]), 0, Code::UnknownName),
    (Table("item", &[A], &["b"]), 0, Code::UnknownName),
    (Table("item", &[A, A], &[]), 0, Code::NameExists),
    (
        Table("other", &[A, ("a", Varchar(0), false)], &[]),
        0,
        Code::ColumnNameTaken,
    ),
    (Table("other", &[A], &["a", "a"]), 0, Code::ColumnNameTaken),
    (
        Table("other", &[("a", Varchar(121), false)], &[]),
        0,
        Code::Limit,
    ),
    (Extension("extra", "none", &[A]), 0, Code::UnknownName),
    (
        Extension("extra", "item", &[("label", Integer, false)]),
        0,
        Code::NameExists,
    ),
    (
        Extension("other", "item", &[("label", Integer, false)]),
        0,
        Code::ColumnNameTaken,
    ),
    (
        Extension("other", "item", &[("a", Varchar(0), false)]),
        0,
        Code::Limit,
    ),
    (Tenant(7, 0), 0, Code::NameExists),
    (Tenant(4_294_967_296, 1), 0, Code::Limit),
    (Tenant(9, 65_537), 0, Code::Limit),
    (Extend(7, "none"), 0, Code::UnknownName),
    (Extend(9, "extra"), 0, Code::UnknownName),
    (Extend(7, "extra"), 0, Code::ColumnNameTaken),
    (Quota(9, 5), 0, Code::UnknownName),
    (Quota(7, 4), 5, Code::QuotaBelowRows),
];

#[test]
fn steps_are_refused(rt: HostRuntime) -> Result<(), Fail> {
    let alloc = rt.alloc();
    let catalog = changed(&rt, alloc)?;
    for (line, kept, code) in REFUSED {
        let found = refusal_of(&rt, alloc, &catalog, kept, line)?;
        assert_eq!(rt; found, Some(code), "{line:?}");
    }
    assert_eq!(rt; refusal_of(&rt, alloc, &catalog, 5, Quota(7, 5))?, None);
    Ok(())
}

/// Sixteen tenants, with the most that all quotas may be together.
fn full(rt: &impl Abort, alloc: Global) -> Result<Catalog, Fail>
    ensures { IfOk result (λ catalog. IsCatalogue catalog) }
{
    let mut catalog = empty(alloc)?;
    for tenant in 1..17 {
        catalog = take(rt, alloc, catalog, Tenant(tenant, 65_536))?;
    }
    Ok(catalog)
}

#[test]
fn quotas_are_too_large(rt: HostRuntime) -> Result<(), Fail> {
    let alloc = rt.alloc();
    let catalog = full(&rt, alloc)?;
    let found = refusal_of(&rt, alloc, &catalog, 0, Tenant(17, 1))?;
    assert_eq!(rt; found, Some(Code::QuotasTooLarge));
    let catalog = take(&rt, alloc, catalog, Quota(3, 65_535))?;
    let found = refusal_of(&rt, alloc, &catalog, 0, Tenant(17, 2))?;
    assert_eq!(rt; found, Some(Code::QuotasTooLarge));
    assert_eq!(rt; refusal_of(&rt, alloc, &catalog, 0, Tenant(17, 1))?, None);
    Ok(())
}

/// The names of an extension and of its column.
fn numbered(alloc: Global, number: u32) -> Result<(String, String), AllocError> {
    Ok((
        format!(in alloc; "extension_{number}")?,
        format!(in alloc; "column_{number}")?,
    ))
}

/// The catalogue in which an extension of one column with this number is there.
fn extended(rt: &impl Abort, alloc: Global, catalog: Catalog, number: u32) -> Result<Catalog, Fail>
    requires { IsCatalogue catalog }
    ensures { IfOk result (λ next. IsCatalogue next) }
{
    let (name, column) = numbered(alloc, number)?;
    let columns = [(column.as_str(), Integer, false)];
    take(
        rt,
        alloc,
        catalog,
        Extension(name.as_str(), "item", &columns),
    )
}

/// A tenant whose table has sixteen chunks, and one extension more.
fn chunked(rt: &impl Abort, alloc: Global) -> Result<Catalog, Fail>
    ensures { IfOk result (λ catalog. IsCatalogue catalog) }
{
    let mut catalog = take(rt, alloc, empty(alloc)?, ITEM)?;
    catalog = take(rt, alloc, catalog, Tenant(1, 1))?;
    for number in 0..17 {
        catalog = extended(rt, alloc, catalog, number)?;
    }
    for number in 0..16 {
        let (name, _) = numbered(alloc, number)?;
        catalog = take(rt, alloc, catalog, Extend(1, name.as_str()))?;
    }
    Ok(catalog)
}

#[test]
fn chunks_are_too_many(rt: HostRuntime) -> Result<(), Fail> {
    let alloc = rt.alloc();
    let catalog = chunked(&rt, alloc)?;
    let found = refusal_of(&rt, alloc, &catalog, 0, Extend(1, "extension_16"))?;
    assert_eq!(rt; found, Some(Code::TooManyChunks));
    Ok(())
}

/// The slots of a tenant whose table moves, and of an extension, each as its table and its body up to
/// the last byte that is not 0.
const MOVING: [(u8, &[u8]); 6] = [
    (8, b"\0\0\0\0\0\0\0\0\0\x04item"),
    (9, b"\0\0\0\0\0\0\0\0\0\x01\0\x01\x01\x02id"),
    (8, b"\0\0\0\0\x01\0\0\0\0\x05extra"),
    (9, b"\x01\0\0\0\0\0\0\0\0\x01\0\0\0\x05price"),
    (10, b"\x07\0\0\0\x0a"),
    (
        11,
        b"\x07\0\0\0\0\0\0\0\x09\0\0\0\0\0\0\0\x01\0\x02\0\0\0\0\0\0\0\x09",
    ),
];

/// A body, with zeros behind these bytes up to its width.
fn padded(rt: &impl Abort, alloc: Global, table: u8, bytes: &[u8]) -> Result<CatBody, Fail>
    ensures from { OnOk result (8 ≤ table) }
    ensures upto { OnOk result (table ≤ 13) }
    ensures width { IfOk result (λ body. length body ≡ body_width table) }
    ensures readable { IfOk result (λ body. IsBody table body) }
{
    assert!(rt; 8 <= table);
    assert!(rt; table <= 13);
    let layout = Layout {
        head: Head::Catalogue(table),
        kinds: List::new(alloc),
    };
    let mut slot = Vec::from_slice(alloc, &[1])?;
    slot.extend_from_slice(bytes)?;
    slot.resize(slot_width(&layout), 0)?;
    assert!(rt; check_slot(&layout, slot.as_slice()));
    assert!(rt; slot[0] != 0);
    Ok(List::from_vec(Vec::from_slice(alloc, &slot[1..])?))
}

/// Adds a body, with zeros behind these bytes up to its width.
fn add_body(
    rt: &impl Abort,
    alloc: Global,
    bodies: &mut CatBodies,
    table: u8,
    bytes: &[u8],
) -> Result<(), Fail>
    requires tables { All (λ body. (8 ≤ body.0) × (body.0 ≤ 13)) bodies.old }
    requires widths { All (λ body. length body.1 ≡ body_width body.0) bodies.old }
    requires readable { All (λ body. IsBody body.0 body.1) bodies.old }
    ensures tables { OnOk result (All (λ body. (8 ≤ body.0) × (body.0 ≤ 13)) bodies.new) }
    ensures widths { OnOk result (All (λ body. length body.1 ≡ body_width body.0) bodies.new) }
    ensures readable { OnOk result (All (λ body. IsBody body.0 body.1) bodies.new) }
{
    let body = padded(rt, alloc, table, bytes)?;
    bodies.push((u32::from(table), body))?;
    Ok(())
}

/// The catalogue of a tenant whose table moves.
fn moving(rt: &impl Abort, alloc: Global) -> Result<Catalog, Fail>
    ensures { IfOk result (λ catalog. IsCatalogue catalog) }
{
    let mut bodies = List::new(alloc);
    for (table, bytes) in MOVING {
        add_body(rt, alloc, &mut bodies, table, bytes)?;
    }
    Ok(read_catalog(alloc, &bodies)?)
}

#[test]
fn moving_tables_are_not_extended(rt: HostRuntime) -> Result<(), Fail> {
    let alloc = rt.alloc();
    let catalog = moving(&rt, alloc)?;
    let found = refusal_of(&rt, alloc, &catalog, 0, Extend(7, "extra"))?;
    assert_eq!(rt; found, Some(Code::TableIsMoving));
    Ok(())
}
