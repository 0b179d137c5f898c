use crate::{
    FieldFault, FieldKind, check_field, fields_and_values_are_one, read_field, width, write_field,
};
use mt_value::{Str, Value};
use std::test::Fail;

#[test]
fn fields_have_a_width(rt: HostRuntime) {
    fields_and_values_are_one();
    assert_eq!(rt; width(FieldKind::Int), 9);
    assert_eq!(rt; width(FieldKind::Text(40)), 43);
}

#[test]
fn numbers_are_written_and_read(rt: HostRuntime) -> Result<(), Fail> {
    let table = [
        (5, b"\x01\x05\0\0\0\0\0\0\0"),
        (-1, b"\x01\xff\xff\xff\xff\xff\xff\xff\xff"),
        (i64::MIN, b"\x01\0\0\0\0\0\0\0\x80"),
    ];
    for (number, wanted) in table {
        let value = Value::Int(number);
        let mut out = [9; 9];
        write_field(FieldKind::Int, &value, &mut out);
        assert_eq!(rt; out, *wanted);
        assert!(rt; check_field(FieldKind::Int, &out));
        assert_eq!(rt; read_field(rt.alloc(), FieldKind::Int, &out)?, value);
    }
    Ok(())
}

#[test]
fn nulls_are_written_and_read(rt: HostRuntime) -> Result<(), Fail> {
    let mut out = [9; 9];
    write_field(FieldKind::Int, &Value::Null, &mut out);
    assert_eq!(rt; out, [0; 9]);
    let rubbish = [
        (FieldKind::Int, b"\0rubbish!"),
        (FieldKind::Text(6), b"\0\xff\xffubbish"),
    ];
    for (kind, bytes) in rubbish {
        assert!(rt; check_field(kind, bytes));
        assert_eq!(rt; read_field(rt.alloc(), kind, bytes)?, Value::Null);
    }
    Ok(())
}

#[test]
fn texts_are_written_and_read(rt: HostRuntime) -> Result<(), Fail> {
    let table = [
        (40, "Ball", b"\x01\x04\0Ball".as_slice()),
        (40, "Zoë", b"\x01\x04\0Zo\xc3\xab"),
        (3, "abc", b"\x01\x03\0abc"),
        (0, "", b"\x01\0\0"),
    ];
    for (size, text, wanted) in table {
        let text = Str::from_bytes(rt.alloc(), text.as_bytes())?;
        assert!(rt; text.len() <= usize::from(size));
        let value = Value::Text(text);
        let kind = FieldKind::Text(size);
        let mut buf = [9; 258];
        let out = &mut buf[..width(kind)];
        write_field(kind, &value, out);
        assert!(rt; out.starts_with(wanted));
        assert!(rt; out.iter().skip(wanted.len()).all(|byte| *byte == 0));
        assert!(rt; check_field(kind, out));
        assert_eq!(rt; read_field(rt.alloc(), kind, out)?, value);
    }
    Ok(())
}

#[test]
fn bad_fields_are_refused(rt: HostRuntime) {
    let table = [
        (FieldKind::Int, b"\x02\x05\0\0\0\0\0\0\0".as_slice()),
        (FieldKind::Int, b"\x01\x05\0\0\0\0\0\0"),
        (FieldKind::Int, b""),
        (FieldKind::Text(3), b"\x01\x04\0abc"),
        (FieldKind::Text(3), b"\x01\x02\x01abc"),
        (FieldKind::Text(3), b"\x01\x02\0a\xffc"),
        (FieldKind::Text(3), b"\x01\x02\0ab"),
    ];
    for (kind, bytes) in table {
        assert!(rt; !check_field(kind, bytes), "{bytes:?}");
        let fault = read_field(rt.alloc(), kind, bytes).err();
        assert_eq!(rt; fault, Some(FieldFault::Bad), "{bytes:?}");
    }
}
