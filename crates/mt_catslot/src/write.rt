ghost use Rattle.std.specs.Prelude.{◌≡◌, ◌++◌, ◌∷◌, [], ◌≤◌, length, IfOk};
ghost use Rattle.byteorder.specs.Endian.{little_bytes};
ghost use Rattle.mt_rowfile.specs.Layouts.{body_width};
ghost use Rattle.mt_fold.specs.Shapes.{shape_table};
ghost use Rattle.mt_catslot.specs.Bytes.{body_of, class_byte, flag_byte, kind_bytes, motion_bytes, name_bytes};
ghost use Rattle.mt_catslot.specs.Slots.{IsSayable, table_of};

use crate::{CatSlot, Class, Motion};
use byteorder::{ByteOrder, LittleEndian};
use mt_fold::Shape;
use mt_list::List;
use mt_rowfile::CatBody;
use mt_tree::Kind;
use mt_value::Str;
use std::alloc::{AllocError, Global};

/// The bytes behind the mark of a slot that says this. `AllocError` is want of memory.
pub fn write_body(alloc: Global, slot: &CatSlot) -> Result<CatBody, AllocError>
    requires { IsSayable slot.now }
    ensures { IfOk result (λ body. body ≡ body_of slot.now) }
{
    let mut body = Vec::from_elem(alloc, 0, width(slot))?;
    fill(slot, &mut body);
    Ok(List::from_vec(body))
}

/// How many bytes say the slot.
fn width(slot: &CatSlot) -> usize
    ensures { result ≡ body_width (table_of slot.now) }
{
    match slot {
        CatSlot::Relation { .. } => 40,
        CatSlot::Column { .. } => 44,
        CatSlot::Tenant { .. } => 8,
        CatSlot::Placement { .. } => 34,
        CatSlot::Extended { .. } | CatSlot::Field { .. } => 16,
    }
}

/// Writes the slot. It takes no memory.
fn fill(slot: &CatSlot, out: &mut [u8])
    requires sayable { IsSayable slot.now }
    requires width { length out.old ≡ body_width (table_of slot.now) }
    ensures { out.new ≡ body_of slot.now }
{
    match slot {
        CatSlot::Relation {
            class,
            number,
            base,
            name,
        } => write_relation(*class, *number, *base, name, out),
        CatSlot::Column {
            class,
            number,
            position,
            kind,
            not_null,
            key,
            name,
        } => {
            let (place, rest) = out.split_at_mut(9);
            write_column_place(*class, *number, *position, place);
            let (rules, named) = rest.split_at_mut(4);
            write_column_rules(*kind, *not_null, *key, rules);
            write_name(name, named);
        }
        CatSlot::Tenant { tenant, quota } => write_pair(*tenant, *quota, out),
        CatSlot::Placement {
            tenant,
            base,
            made,
            motion,
        } => write_placement(*tenant, *base, *made, *motion, out),
        CatSlot::Extended {
            tenant,
            base,
            position,
            extension,
        } => {
            let (table, rest) = out.split_at_mut(8);
            write_pair(*tenant, *base, table);
            write_pair(*position, *extension, rest);
        }
        CatSlot::Field {
            tenant,
            base,
            generation,
            column,
            shape,
            chunk,
            field,
        } => {
            let (table, rest) = out.split_at_mut(8);
            write_pair(*tenant, *base, table);
            write_field_place(*generation, *column, *shape, *chunk, *field, rest);
        }
    }
}

/// Writes a base table or an extension.
fn write_relation(class: Class, number: u32, base: u32, name: &Str, out: &mut [u8])
    requires short { length name.now ≤ 30 }
    requires width { length out.old ≡ 40 }
    ensures { out.new ≡ little_bytes 4 number ++ class_byte class ∷ (little_bytes 4 base ++ name_bytes name.now) }
{
    let (numbered, rest) = out.split_at_mut(4);
    LittleEndian::write_u32(numbered, number);
    let (classed, rest) = rest.split_at_mut(1);
    classed[0] = byte_of_class(class);
    let (based, named) = rest.split_at_mut(4);
    LittleEndian::write_u32(based, base);
    write_name(name, named);
}

/// Writes whose a column is, and its position.
fn write_column_place(class: Class, number: u32, position: u32, out: &mut [u8])
    requires { length out.old ≡ 9 }
    ensures { out.new ≡ class_byte class ∷ (little_bytes 4 number ++ little_bytes 4 position) }
{
    let (classed, rest) = out.split_at_mut(1);
    classed[0] = byte_of_class(class);
    write_pair(number, position, rest);
}

/// Writes the kind and the flags of a column.
fn write_column_rules(kind: Kind, not_null: bool, key: bool, out: &mut [u8])
    requires { length out.old ≡ 4 }
    ensures { out.new ≡ kind_bytes kind ++ flag_byte not_null ∷ flag_byte key ∷ [] }
{
    let (sort, flags) = out.split_at_mut(2);
    match kind {
        Kind::Integer => sort.copy_from_slice(&[1, 0]),
        Kind::Varchar(size) => sort.copy_from_slice(&[2, size]),
    }
    flags.copy_from_slice(&[u8::from(not_null), u8::from(key)]);
}

/// Writes how a tenant's table lies.
fn write_placement(tenant: u32, base: u32, made: u64, motion: Motion, out: &mut [u8])
    requires { length out.old ≡ 34 }
    ensures { out.new ≡ little_bytes 4 tenant ++ little_bytes 4 base ++ little_bytes 8 made ++ motion_bytes motion }
{
    let (table, rest) = out.split_at_mut(8);
    write_pair(tenant, base, table);
    let (counted, moves) = rest.split_at_mut(8);
    LittleEndian::write_u64(counted, made);
    match motion {
        Motion::Settled { generation } => write_motion(0, generation, 0, 0, moves),
        Motion::Moving {
            generation,
            frontier,
            upto,
        } => write_motion(1, generation, frontier, upto, moves),
    }
}

/// Writes whether a table moves, a generation, the frontier and the end.
fn write_motion(moving: u8, generation: u8, frontier: u64, upto: u64, out: &mut [u8])
    requires { length out.old ≡ 18 }
    ensures { out.new ≡ moving ∷ generation ∷ (little_bytes 8 frontier ++ little_bytes 8 upto) }
{
    let (flags, rest) = out.split_at_mut(2);
    flags[0] = moving;
    flags[1] = generation;
    let (start, end) = rest.split_at_mut(8);
    LittleEndian::write_u64(start, frontier);
    LittleEndian::write_u64(end, upto);
}

/// Writes of which fold and column a field is, and where it lies.
fn write_field_place(
    generation: u8,
    column: u32,
    shape: Shape,
    chunk: u8,
    field: u8,
    out: &mut [u8],
)
    requires { length out.old ≡ 8 }
    ensures { out.new ≡ generation ∷ (little_bytes 4 column ++ shape_table shape ∷ chunk ∷ field ∷ []) }
{
    let (folded, rest) = out.split_at_mut(1);
    folded[0] = generation;
    let (counted, lies) = rest.split_at_mut(4);
    LittleEndian::write_u32(counted, column);
    lies.copy_from_slice(&[shape.table() as u8, chunk, field]);
}

/// Writes two numbers.
fn write_pair(first: u32, second: u32, out: &mut [u8])
    requires { length out.old ≡ 8 }
    ensures { out.new ≡ little_bytes 4 first ++ little_bytes 4 second }
{
    let (front, back) = out.split_at_mut(4);
    LittleEndian::write_u32(front, first);
    LittleEndian::write_u32(back, second);
}

/// The byte of a class.
fn byte_of_class(class: Class) -> u8
    ensures { result ≡ class_byte class }
{
    match class {
        Class::BaseTable => 0,
        Class::Extension => 1,
    }
}

/// Writes a name behind its length, and zeros behind it.
fn write_name(name: &Str, out: &mut [u8])
    requires short { length name.now ≤ 30 }
    requires width { length out.old ≡ 31 }
    ensures { out.new ≡ name_bytes name.now }
{
    let (counted, rest) = out.split_at_mut(1);
    counted[0] = name.len() as u8;
    let (text, unused) = rest.split_at_mut(name.len());
    text.copy_from_slice(name.as_str().as_bytes());
    unused.fill(0);
}
