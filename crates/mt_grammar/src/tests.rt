use crate::{each_statement_text_gives_something, parse, statements_are_determined};
use mt_reader::ParseFault;
use mt_tree::Stmt;
use std::test::Fail;

/// The kind of a statement, and how many of its main parts it has.
fn kind(statement: &Stmt) -> (&'static str, usize) {
    match statement {
        Stmt::Select(select) => ("select", select.refs.len()),
        Stmt::Insert(insert) => ("insert", insert.tuples.len()),
        Stmt::Update(update) => ("update", update.sets.len()),
        Stmt::Delete(filter) => ("delete", filter.table.as_str().len()),
        Stmt::Restore(filter) => ("restore", filter.table.as_str().len()),
        Stmt::Purge(filter) => ("purge", filter.table.as_str().len()),
    }
}

#[test]
fn reads_each_kind(rt: HostRuntime) -> Result<(), Fail> {
    statements_are_determined();
    each_statement_text_gives_something();
    for (text, name, parts) in [
        ("SELECT a FROM t, u LIMIT 3;", "select", 2),
        ("INSERT INTO t VALUES (1), (NULL), ('x')", "insert", 3),
        ("UPDATE t SET a = 1, b = a + 1 WHERE a = 1", "update", 2),
        ("DELETE FROM t WHERE a = 1 OR b = 2;", "delete", 1),
        ("RESTORE account", "restore", 7),
        ("purge Rows WHERE a IS NULL", "purge", 4),
    ] {
        let read = parse(rt.alloc(), text)?;
        let (read_name, read_parts) = kind(&read);
        assert_eq!(rt; read_name, name, "of {text}");
        assert_eq!(rt; read_parts, parts, "of {text}");
    }
    Ok(())
}

/// Texts that break one rule each, and numbers outside 64 bits; `-9223372036854775808` is inside.
#[test]
fn tells_why_a_text_is_no_statement(rt: HostRuntime) -> Result<(), Fail> {
    for (text, want) in [
        ("", Some(ParseFault::Syntax)),
        (";", Some(ParseFault::Syntax)),
        ("BEGIN", Some(ParseFault::Syntax)),
        ("PURGE t; PURGE t", Some(ParseFault::Syntax)),
        ("PURGE t;;", Some(ParseFault::Syntax)),
        ("PURGE t u", Some(ParseFault::Syntax)),
        ("PURGE 'x", Some(ParseFault::Syntax)),
        ("PURGE where", Some(ParseFault::Syntax)),
        ("SELECT FROM t", Some(ParseFault::Syntax)),
        ("INSERT INTO t VALUES (a)", Some(ParseFault::Syntax)),
        ("UPDATE t SET a = 1,", Some(ParseFault::Syntax)),
        ("DELETE t", Some(ParseFault::Syntax)),
        ("RESTORE t WHERE (a = 1", Some(ParseFault::Syntax)),
        (
            "PURGE t WHERE a = 9223372036854775808 = b",
            Some(ParseFault::Syntax),
        ),
        (
            "PURGE t WHERE a = 9223372036854775808",
            Some(ParseFault::Literal),
        ),
        (
            "SELECT -9223372036854775809 FROM t",
            Some(ParseFault::Literal),
        ),
        ("PURGE t WHERE a = -9223372036854775808", None),
    ] {
        assert_eq!(rt; parse(rt.alloc(), text).err(), want, "of {text}");
    }
    Ok(())
}
