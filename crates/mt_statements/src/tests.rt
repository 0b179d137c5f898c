use crate::{changes_are_determined, read_change, read_select, selects_are_determined};
use mt_lexer::tokens;
use mt_reader::{ReadFault, Reader};
use mt_tree::Stmt;
use std::alloc::{AllocError, Global};
use std::test::Fail;

/// The statement at the front, by its first word.
fn statement(alloc: Global, reader: &mut Reader<'_>) -> Result<Option<Stmt>, ReadFault> {
    if reader.is_at(b"select") {
        let select = read_select(alloc, reader)?;
        return Ok(select.map(Stmt::Select));
    }
    read_change(alloc, reader)
}

/// What the front of a text reads as, with dots where tokens are left.
fn reading(alloc: Global, text: &str) -> Result<String, Fail> {
    let found = tokens(alloc, text)?;
    let mut reader = Reader::new(text, found.as_slice());
    let read = match statement(alloc, &mut reader) {
        Ok(read) => read,
        Err(ReadFault::Unread) => return Ok(String::from_str(alloc, "unread")?),
        Err(ReadFault::Memory) => Err(AllocError)?,
    };
    let left = if reader.is_at_end() { "" } else { " .." };
    Ok(format!(in alloc; "{read:?}{left}")?)
}

#[test]
fn reads_a_select(rt: HostRuntime) -> Result<(), Fail> {
    selects_are_determined();
    let got = reading(
        rt.alloc(),
        "select distinct * FROM T AS x ORDER BY 2 DESC LIMIT 3",
    )?;
    assert_eq!(rt;
        got.as_str(),
        "Some(Select(Select { distinct: true, items: List { items: [] }, refs: List { items: [Ref { table: Str { text: \"t\" }, alias: Some(Str { text: \"x\" }), on: None }] }, cond: None, group: List { items: [] }, having: None, order: List { items: [OrderKey { by: Position(2), desc: true }] }, limit: Some(3) }))"
    );
    Ok(())
}

#[test]
fn reads_changes(rt: HostRuntime) -> Result<(), Fail> {
    changes_are_determined();
    for (text, want) in [
        (
            "INSERT INTO t (a) VALUES (1), (NULL);",
            "Some(Insert(Insert { table: Str { text: \"t\" }, columns: List { items: [Str { text: \"a\" }] }, tuples: List { items: [List { items: [Int(1)] }, List { items: [Null] }] } })) ..",
        ),
        (
            "UPDATE t SET a = 1",
            "Some(Update(Update { table: Str { text: \"t\" }, sets: List { items: [SetItem { column: Str { text: \"a\" }, expr: Atom(Literal(Int(1))) }] }, cond: None }))",
        ),
        (
            "PURGE t u",
            "Some(Purge(Filter { table: Str { text: \"t\" }, cond: None })) ..",
        ),
    ] {
        let got = reading(rt.alloc(), text)?;
        assert_eq!(rt; got.as_str(), want, "of {text}");
    }
    Ok(())
}

/// `None` is for a number outside 64 bits; with too many references it is no SELECT all the same.
#[test]
fn tells_numbers_outside(rt: HostRuntime) -> Result<(), Fail> {
    for (text, want) in [
        ("SELECT * FROM a, b, c, d, e", "unread"),
        (
            "SELECT * FROM a JOIN b ON x = 9223372036854775808, c, d",
            "None",
        ),
        (
            "SELECT * FROM a JOIN b ON x = 9223372036854775808, c, d, e",
            "unread",
        ),
        ("SELECT a FROM t LIMIT 9223372036854775808;", "None .."),
        ("SELECT a FROM t ORDER BY COUNT", "unread"),
        (
            "INSERT INTO t VALUES (1), (9223372036854775808), (",
            "unread",
        ),
        ("DELETE FROM t WHERE a = 9223372036854775808", "None"),
        ("", "unread"),
    ] {
        let got = reading(rt.alloc(), text)?;
        assert_eq!(rt; got.as_str(), want, "of {text}");
    }
    Ok(())
}

/// An INSERT of this tuple behind so many others.
fn inserting(alloc: Global, others: u16, last: &str) -> Result<String, AllocError> {
    let mut text = String::from_str(alloc, "INSERT INTO t VALUES ")?;
    for _ in 0..others {
        text.push_str("(2), ")?;
    }
    text.push_str(last)?;
    Ok(text)
}

#[test]
fn limits_tuples(rt: HostRuntime) -> Result<(), Fail> {
    for (others, last, want) in [
        (999, "(1)", "Some("),
        (1000, "(1)", "unread"),
        (999, "(9223372036854775808)", "None"),
        (1000, "(9223372036854775808)", "unread"),
    ] {
        let text = inserting(rt.alloc(), others, last)?;
        let got = reading(rt.alloc(), text.as_str())?;
        assert!(rt; got.as_str().starts_with(want), "of {last} behind {others}");
    }
    Ok(())
}
