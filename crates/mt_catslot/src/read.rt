ghost use Rattle.std.specs.Prelude.{◌≡◌, ◌≤◌, length, drop, IfOk};
ghost use Rattle.mt_rowfile.specs.Layouts.{body_width};
ghost use Rattle.mt_rowfile.specs.Slots.{IsBody, IsNameField};
ghost use Rattle.mt_catslot.specs.Bytes.{class_in, column_in, extended_in, field_in, kind_in, motion_in, name_in, placement_in, relation_in, says, shape_in, tenant_in};

use crate::{CatSlot, Class, Motion};
use byteorder::{ByteOrder, LittleEndian};
use mt_fold::Shape;
use mt_tree::Kind;
use mt_value::{Str, StrFault};
use std::alloc::{AllocError, Global};

/// The most bytes that a VARCHAR column has.
const VARCHAR_SIZE: u8 = 120;

/// What the bytes behind the mark of a slot say, in the table of the catalogue with this number from 8
/// to 13. None where they have a class, a kind, a size, a shape or a motion that there is not.
/// `AllocError` is want of memory.
pub fn read_body(alloc: Global, table: u32, body: &[u8]) -> Result<Option<CatSlot>, AllocError>
    requires from { 8 ≤ table }
    requires upto { table ≤ 13 }
    requires width { length body.now ≡ body_width table }
    requires readable { IsBody table body.now }
    ensures { IfOk result (λ slot. slot ≡ says table body.now) }
{
    match table {
        8 => read_relation(alloc, body),
        9 => read_column(alloc, body),
        10 => Ok(Some(read_tenant(body))),
        11 => Ok(read_placement(body)),
        12 => Ok(Some(read_extended(body))),
        13 => Ok(read_field(body)),
        _ => unreachable!(),
    }
}

/// A base table or an extension, if there is its class.
fn read_relation(alloc: Global, body: &[u8]) -> Result<Option<CatSlot>, AllocError>
    requires width { length body.now ≡ 40 }
    requires named { IsNameField (drop 9 body.now) }
    ensures { IfOk result (λ slot. slot ≡ relation_in body.now) }
{
    let Some(class) = read_class(body[4]) else {
        return Ok(None);
    };
    Ok(Some(CatSlot::Relation {
        class,
        number: LittleEndian::read_u32(body),
        base: LittleEndian::read_u32(&body[5..]),
        name: read_name(alloc, &body[9..])?,
    }))
}

/// A column, if there are its class, kind and size.
fn read_column(alloc: Global, body: &[u8]) -> Result<Option<CatSlot>, AllocError>
    requires width { length body.now ≡ 44 }
    requires named { IsNameField (drop 13 body.now) }
    ensures { IfOk result (λ slot. slot ≡ column_in body.now) }
{
    let Some(class) = read_class(body[0]) else {
        return Ok(None);
    };
    let Some(kind) = read_kind(body[9], body[10]) else {
        return Ok(None);
    };
    Ok(Some(CatSlot::Column {
        class,
        number: LittleEndian::read_u32(&body[1..]),
        position: LittleEndian::read_u32(&body[5..]),
        kind,
        not_null: body[11] == 1,
        key: body[12] == 1,
        name: read_name(alloc, &body[13..])?,
    }))
}

/// A tenant.
fn read_tenant(body: &[u8]) -> CatSlot
    requires { length body.now ≡ 8 }
    ensures { result ≡ tenant_in body.now }
{
    CatSlot::Tenant {
        tenant: LittleEndian::read_u32(body),
        quota: LittleEndian::read_u32(&body[4..]),
    }
}

/// How a tenant's table lies, if it can lie so.
fn read_placement(body: &[u8]) -> Option<CatSlot>
    requires { length body.now ≡ 34 }
    ensures { result ≡ placement_in body.now }
{
    let motion = read_motion(&body[16..])?;
    Some(CatSlot::Placement {
        tenant: LittleEndian::read_u32(body),
        base: LittleEndian::read_u32(&body[4..]),
        made: LittleEndian::read_u64(&body[8..]),
        motion,
    })
}

/// An extension of a tenant's table.
fn read_extended(body: &[u8]) -> CatSlot
    requires { length body.now ≡ 16 }
    ensures { result ≡ extended_in body.now }
{
    CatSlot::Extended {
        tenant: LittleEndian::read_u32(body),
        base: LittleEndian::read_u32(&body[4..]),
        position: LittleEndian::read_u32(&body[8..]),
        extension: LittleEndian::read_u32(&body[12..]),
    }
}

/// The field of a chunk in which a column lies, if there is the chunk's shape.
fn read_field(body: &[u8]) -> Option<CatSlot>
    requires { length body.now ≡ 16 }
    ensures { result ≡ field_in body.now }
{
    let shape = read_shape(body[13])?;
    Some(CatSlot::Field {
        tenant: LittleEndian::read_u32(body),
        base: LittleEndian::read_u32(&body[4..]),
        generation: body[8],
        column: LittleEndian::read_u32(&body[9..]),
        shape,
        chunk: body[14],
        field: body[15],
    })
}

/// The class that a byte says, if there is one.
fn read_class(byte: u8) -> Option<Class>
    ensures { result ≡ class_in byte }
{
    match byte {
        0 => Some(Class::BaseTable),
        1 => Some(Class::Extension),
        _ => None,
    }
}

/// The kind of a column that these bytes say, if there is one.
fn read_kind(kind: u8, size: u8) -> Option<Kind>
    ensures { result ≡ kind_in kind size }
{
    if kind == 1 && size == 0 {
        Some(Kind::Integer)
    } else if kind == 2 && 1 <= size && size <= VARCHAR_SIZE {
        Some(Kind::Varchar(size))
    } else {
        None
    }
}

/// The shape of a chunk that a byte says, if there is one.
fn read_shape(byte: u8) -> Option<Shape>
    ensures { result ≡ shape_in byte }
{
    Shape::with_table(u32::from(byte))
}

/// How the rows of a table lie, if they can lie so: one that is settled has no frontier and no end.
fn read_motion(bytes: &[u8]) -> Option<Motion>
    requires { length bytes.now ≡ 18 }
    ensures { result ≡ motion_in bytes.now }
{
    let generation = bytes[1];
    let frontier = LittleEndian::read_u64(&bytes[2..]);
    let upto = LittleEndian::read_u64(&bytes[10..]);
    if bytes[0] == 0 && frontier == 0 && upto == 0 {
        Some(Motion::Settled { generation })
    } else if bytes[0] == 1 {
        Some(Motion::Moving {
            generation,
            frontier,
            upto,
        })
    } else {
        None
    }
}

/// A name behind its length. What stands behind the name is not read.
fn read_name(alloc: Global, bytes: &[u8]) -> Result<Str, AllocError>
    requires width { length bytes.now ≡ 31 }
    requires named { IsNameField bytes.now }
    ensures { IfOk result (λ name. name ≡ name_in bytes.now) }
{
    let end = 1 + usize::from(bytes[0]);
    match Str::from_bytes(alloc, &bytes[1..end]) {
        Ok(name) => Ok(name),
        Err(StrFault::Memory) => Err(AllocError),
        // A name is ASCII.
        Err(StrFault::NotUtf8) => unreachable!(),
    }
}
