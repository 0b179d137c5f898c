ghost use Rattle.std.specs.Prelude.{◌≡◌, ◌↔◌, ◌+◌, ◌-◌, ◌^◌, ◌<◌, ◌≤◌, List, ℕ, ◌∷◌, ◌++◌, IsTrue, length, replicate, IfOk, IsErrOf, IfSome, IfNone};
ghost use Rattle.std.specs.Int.{w64, cast_unsigned};
ghost use Rattle.byteorder.specs.Endian.{little_bytes, little_number};
ghost use Rattle.mt_codec.specs.Fields.{width_of, Fits, field_bytes, IsBehindFlag, IsField, IsSpelling};
ghost use Rattle.mt_codec.specs.Behind.{IsCounted, IsSpelled};

use byteorder::{ByteOrder, LittleEndian};
use mt_value::{Str, StrFault, Value};
use std::alloc::Global;
use thiserror::Error;

/// The first byte of a field that holds NULL.
const NULL_FLAG: u8 = 0;

/// The first byte of a field that holds a value.
const VALUE_FLAG: u8 = 1;

/// What a field holds: an integer, or a text of so many bytes at most.
#[derive(Clone, Copy, Debug, PartialEq, Eq)]
pub enum FieldKind {
    Int,
    Text(u8),
}

/// Why a field was not read.
#[derive(Clone, Copy, Debug, PartialEq, Eq, Error)]
pub enum FieldFault {
    /// The bytes spell no value.
    #[error("bad field")]
    Bad,
    #[error("out of memory")]
    Memory,
}

impl From<StrFault> for FieldFault {
    ghost use Rattle.std.specs.Prelude.{◌≡◌};
    ghost use Rattle.mt_codec.specs.Behind.{fault_of};

    ghost from_gives = { λ fault field_fault. field_fault ≡ fault_of fault };

    fn from(fault: StrFault) -> FieldFault {
        match fault {
            StrFault::NotUtf8 => FieldFault::Bad,
            StrFault::Memory => FieldFault::Memory,
        }
    }
}

/// The number of bytes of a field: a flag and 8 bytes, or a flag, a length of two bytes and the text's.
pub fn width(kind: FieldKind) -> usize
    ensures value { result ≡ width_of kind }
    ensures bound { result ≤ 258 }
{
    match kind {
        FieldKind::Int => 9,
        FieldKind::Text(size) => 3 + usize::from(size),
    }
}

/// Writes the value to the field. Bytes that are not used become 0. It takes no memory.
pub fn write_field(kind: FieldKind, value: &Value, out: &mut [u8])
    requires width { length out.old ≡ width_of kind }
    requires fits { Fits kind value.now }
    ensures { out.new ≡ field_bytes kind value.now }
{
    prove!(out.len() == width(kind));
    match value {
        Value::Null => out.fill(NULL_FLAG),
        Value::Int(number) => {
            out[0] = VALUE_FLAG;
            LittleEndian::write_i64(&mut out[1..], *number);
        }
        Value::Text(text) => {
            out[0] = VALUE_FLAG;
            write_text(text.as_str().as_bytes(), &mut out[1..]);
        }
    }
}

/// Writes a text behind the flag of its field: its length, its bytes, and zeros.
fn write_text(text: &[u8], rest: &mut [u8])
    requires short { length text.now < 2 ^ 16 }
    requires room { 2 + length text.now ≤ length rest.old }
    ensures { let unused = length rest.old - 2 - length text.now in
        rest.new ≡ little_bytes 2 (length text.now) ++ text.now ++ replicate unused 0 }
{
    let end = 2 + text.len();
    LittleEndian::write_u16(rest, text.len() as u16);
    rest[2..end].copy_from_slice(text);
    rest[end..].fill(0);
}

/// Whether the bytes spell a value of this kind. It takes no memory.
pub fn check_field(kind: FieldKind, bytes: &[u8]) -> bool
    ensures { IsTrue result ↔ IsSpelling kind bytes.now }
{
    if bytes.len() != width(kind) {
        return false;
    }
    match bytes[0] {
        NULL_FLAG => true,
        VALUE_FLAG => check_value(kind, &bytes[1..]),
        _ => false,
    }
}

/// Whether the bytes behind the flag of a value spell one.
fn check_value(kind: FieldKind, rest: &[u8]) -> bool
    requires { length rest.now + 1 ≡ width_of kind }
    ensures { IsTrue result ↔ IsSpelled kind rest.now }
{
    match kind {
        FieldKind::Int => true,
        FieldKind::Text(size) => match text_bytes(size, rest) {
            Some(text) => str::from_utf8(text).is_ok(),
            None => false,
        },
    }
}

/// The bytes of a text behind its length, if it is no longer than the field's size.
fn text_bytes(size: u8, rest: &[u8]) -> Option<&[u8]>
    requires { length rest.now ≡ 2 + size }
    ensures some { IfSome result (λ text. IsCounted size rest.now text.now) }
    ensures none { IfNone result (size < little_number 2 rest.now) }
{
    let count = usize::from(LittleEndian::read_u16(rest));
    if count > usize::from(size) {
        return None;
    }
    Some(&rest[2..2 + count])
}

/// The value that the bytes spell; `Bad` exactly where they spell none, `Memory` for want of memory.
pub fn read_field(alloc: Global, kind: FieldKind, bytes: &[u8]) -> Result<Value, FieldFault>
    ensures value { IfOk result (λ value. IsField kind bytes.now value) }
    ensures bad { IsErrOf result FieldFault.Bad ↔ (IsSpelling kind bytes.now → ⊥) }
{
    if bytes.len() != width(kind) {
        return Err(FieldFault::Bad);
    }
    match bytes[0] {
        NULL_FLAG => Ok(Value::Null),
        VALUE_FLAG => read_value(alloc, kind, &bytes[1..]),
        _ => Err(FieldFault::Bad),
    }
}

/// The value that the bytes behind its flag spell.
fn read_value(alloc: Global, kind: FieldKind, rest: &[u8]) -> Result<Value, FieldFault>
    requires { length rest.now + 1 ≡ width_of kind }
    ensures value { IfOk result (λ value. IsBehindFlag kind rest.now value) }
    ensures bad { IsErrOf result FieldFault.Bad ↔ (IsSpelled kind rest.now → ⊥) }
{
    match kind {
        FieldKind::Int => Ok(Value::Int(LittleEndian::read_i64(rest))),
        FieldKind::Text(size) => match text_bytes(size, rest) {
            Some(text) => Ok(Value::Text(Str::from_bytes(alloc, text)?)),
            None => Err(FieldFault::Bad),
        },
    }
}
