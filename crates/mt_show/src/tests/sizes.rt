use super::reading;
use std::alloc::{AllocError, Global};
use std::test::Fail;

/// The text `inner` between so many of `open` and of `close`, behind `front`.
fn nested(
    alloc: Global,
    front: &str,
    count: usize,
    open: &str,
    inner: &str,
    close: &str,
) -> Result<String, AllocError> {
    let opened = open.repeat(alloc, count)?;
    let closed = close.repeat(alloc, count)?;
    format!(in alloc; "{front}{}{inner}{}", opened.as_str(), closed.as_str())
}

/// What may stand this often, and not once more.
const MOST: [(&str, &str, &str, &str, usize); 9] = [
    ("PURGE t WHERE ", "(", "a = 1", ")", 64),
    ("PURGE t WHERE ", "NOT ", "a = 1", "", 64),
    ("PURGE t WHERE ", "NOT (", "a = 1", ")", 32),
    ("PURGE t WHERE ", "b = 1 OR (", "a = 1", ")", 64),
    ("UPDATE t SET a = ", "(", "a", ")", 64),
    ("UPDATE t SET a = ", "1 + (", "a", ")", 64),
    ("UPDATE t SET a = ", "2 * (", "a", ")", 64),
    ("INSERT INTO t VALUES ", "(1),", "(1)", "", 999),
    (
        "INSERT INTO t VALUES ",
        "(1),",
        "(9223372036854775808)",
        "",
        999,
    ),
];

#[test]
fn nests_so_deep_and_no_deeper(rt: HostRuntime) -> Result<(), Fail> {
    let alloc = rt.alloc();
    for (front, open, inner, close, most) in MOST {
        let text = nested(alloc, front, most, open, inner, close)?;
        assert_ne!(rt;
            reading(alloc, text.as_str())?.as_str(),
            "syntax",
            "of {open}"
        );
        let text = nested(alloc, front, most + 1, open, inner, close)?;
        assert_eq!(rt;
            reading(alloc, text.as_str())?.as_str(),
            "syntax",
            "of {open}"
        );
    }
    Ok(())
}

/// Statements that are about as long as a line may be, 65,536 bytes.
const LONG: [(&str, &str, &str, &str, usize); 2] = [
    ("SELECT ", "1+", "1 + ", "1 FROM t", 32_749),
    (
        "DELETE FROM t WHERE ",
        "a=1 AND ",
        "a = 1 AND ",
        "a = 1",
        8_187,
    ),
];

#[test]
fn shows_long_statements(rt: HostRuntime) -> Result<(), Fail> {
    let alloc = rt.alloc();
    for (front, member, shown, last, count) in LONG {
        let text = nested(alloc, front, count, member, last, "")?;
        let want = nested(alloc, front, count, shown, last, "")?;
        assert!(rt; text.len() > 65_500 && text.len() <= 65_536);
        assert!(rt;
            reading(alloc, text.as_str())?.as_str() == want.as_str(),
            "of {front}"
        );
    }
    Ok(())
}
