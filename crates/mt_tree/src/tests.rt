use crate::ReplyText;
use mt_value::{Str, Value};
use std::alloc::{AllocError, Global};
use std::test::Fail;

/// A value behind `> `, as a reply has it.
fn printed(alloc: Global, value: &Value) -> Result<ReplyText, AllocError> {
    let mut reply = ReplyText::from_bytes(alloc, b"> ")?;
    reply.push_value(value)?;
    Ok(reply)
}

#[test]
fn prints_null_and_numbers(rt: HostRuntime) -> Result<(), Fail> {
    let cases = [
        (Value::Null, "> NULL"),
        (Value::Int(0), "> 0"),
        (Value::Int(-1), "> -1"),
        (Value::Int(i64::MIN), "> -9223372036854775808"),
    ];
    for (value, wanted) in cases {
        let reply = printed(rt.alloc(), &value)?;
        assert_eq!(rt; reply.as_bytes(), wanted.as_bytes(), "{wanted}");
    }
    Ok(())
}

#[test]
fn prints_texts(rt: HostRuntime) -> Result<(), Fail> {
    let cases = [
        ("it's", "> 'it''s'"),
        ("", "> ''"),
        ("''", "> ''''''"),
        ("Zoë", "> 'Zoë'"),
    ];
    for (text, wanted) in cases {
        let value = Value::Text(Str::from_bytes(rt.alloc(), text.as_bytes())?);
        let reply = printed(rt.alloc(), &value)?;
        assert_eq!(rt; reply.as_bytes(), wanted.as_bytes(), "{text}");
    }
    Ok(())
}

#[test]
fn counts(rt: HostRuntime) -> Result<(), Fail> {
    let mut reply = ReplyText::new(rt.alloc());
    reply.push_bytes(b"ok ")?;
    reply.push_count(u64::MAX)?;
    assert_eq!(rt; reply.as_bytes(), b"ok 18446744073709551615".as_slice());
    Ok(())
}
