ghost use Rattle.std.specs.Prelude.{◌≡◌, ◌↔◌, ◌≤◌, ◌+◌, ◌++◌, take, drop, length, IsTrue, IfOk, OnOk, IsErrOf};
ghost use Rattle.mt_codec.specs.Fields.{Fits, field_bytes, width_of};
ghost use Rattle.mt_rowfile.specs.Fields.{AreFitting, AreSpelled, fields_bytes, values_of};
ghost use Rattle.mt_rowfile.specs.Layouts.{fields_width};

use crate::slot::SlotFault;
use mt_codec::{FieldFault, FieldKind, check_field, read_field, width, write_field};
use mt_list::List;
use mt_value::{Row, Value};
use std::alloc::Global;

/// Whether each field spells a value. It takes no memory.
pub(crate) fn check_fields(kinds: &[FieldKind], bytes: &[u8]) -> bool
    requires { length bytes.now ≡ fields_width kinds.now }
    ensures { IsTrue result ↔ AreSpelled kinds.now bytes.now }
{
    let mut rest = bytes;
    for kind in kinds {
        let (field, behind) = rest.split_at(width(*kind));
        if !check_field(*kind, field) {
            return false;
        }
        rest = behind;
    }
    true
}

/// The values of the fields: `Bad` where one spells none, `Memory` for want of memory.
pub(crate) fn read_fields(
    alloc: Global,
    kinds: &[FieldKind],
    bytes: &[u8],
) -> Result<Row, SlotFault>
    requires { length bytes.now ≡ fields_width kinds.now }
    ensures values { IfOk result (λ values. values ≡ values_of kinds.now bytes.now) }
    ensures spelled { OnOk result (AreSpelled kinds.now bytes.now) }
    ensures bad { IsErrOf result SlotFault.Bad → AreSpelled kinds.now bytes.now → ⊥ }
{
    let mut values = List::new(alloc);
    let mut rest = bytes;
    for kind in kinds {
        let (field, behind) = rest.split_at(width(*kind));
        match read_field(alloc, *kind, field) {
            Ok(value) => values.push(value)?,
            Err(FieldFault::Bad) => return Err(SlotFault::Bad),
            Err(FieldFault::Memory) => return Err(SlotFault::Memory),
        }
        rest = behind;
    }
    Ok(values)
}

/// Writes the values to the fields. It takes no memory.
pub(crate) fn write_fields(kinds: &[FieldKind], values: &[Value], out: &mut [u8])
    requires width { length out.old ≡ fields_width kinds.now }
    requires same { length values.now ≡ length kinds.now }
    requires fit { AreFitting kinds.now values.now }
    ensures { out.new ≡ fields_bytes kinds.now values.now }
{
    let mut at = 0;
    for i in 0..kinds.len() {
        write_part(kinds[i], &values[i], out, at);
        at += width(kinds[i]);
    }
}

/// Writes one field at its place.
fn write_part(kind: FieldKind, value: &Value, out: &mut [u8], at: usize)
    requires room { at + width_of kind ≤ length out.old }
    requires fits { Fits kind value.now }
    ensures { out.new ≡ (take at out.old ++ field_bytes kind value.now) ++ drop (at + width_of kind) out.old }
{
    write_field(kind, value, &mut out[at..at + width(kind)]);
}
