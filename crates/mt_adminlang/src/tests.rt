use crate::{commands_are_determined, each_command_text_gives_something, parse_admin};
use mt_reader::ParseFault;
use std::alloc::{AllocError, Global};
use std::test::Fail;

/// The `Debug` text of the command that a text reads as, or of why there is none.
fn reading(alloc: Global, text: &str) -> Result<String, AllocError> {
    match parse_admin(alloc, text) {
        Ok(command) => format!(in alloc; "{command:?}"),
        Err(fault) => format!(in alloc; "{fault:?}"),
    }
}

const READ: [(&str, &str); 11] = [
    (
        "create\ttable T(A Integer not null,b varchar ( 007 ) , PRIMARY key(A, b) );",
        r#"CreateTable { name: Str { text: "t" }, columns: List { items: [Def { name: Str { text: "a" }, kind: Integer, not_null: true }, Def { name: Str { text: "b" }, kind: Varchar(7), not_null: false }] }, key: List { items: [Str { text: "a" }, Str { text: "b" }] } }"#,
    ),
    (
        "create Extension EXTENSION on Tenant(C1 VARCHAR(3),b Integer) ;",
        r#"CreateExtension { name: Str { text: "extension" }, base: Str { text: "tenant" }, columns: List { items: [Def { name: Str { text: "c1" }, kind: Varchar(3), not_null: false }, Def { name: Str { text: "b" }, kind: Integer, not_null: false }] } }"#,
    ),
    (
        "create tenant 0009223372036854775807 Quota 0 ;",
        "CreateTenant { tenant: 9223372036854775807, quota: 0 }",
    ),
    (
        "extend 0 with WITH;",
        r#"Extend { tenant: 0, extension: Str { text: "with" } }"#,
    ),
    (
        "set Quota 1 to 9223372036854775807",
        "SetQuota { tenant: 1, quota: 9223372036854775807 }",
    ),
    (
        "Advise 3 ADVISE ;",
        r#"Advise { tenant: 3, table: Str { text: "advise" } }"#,
    ),
    (
        "show fold 3 Fold;",
        r#"ShowFold { tenant: 3, table: Str { text: "fold" } }"#,
    ),
    (
        "refold 3 T to conv (A), C6 (c, conv);",
        r#"Refold { tenant: 3, table: Str { text: "t" }, fold: FoldText { conv: List { items: [Str { text: "a" }] }, chunks: List { items: [ChunkText { shape: 6, columns: List { items: [Str { text: "c" }, Str { text: "conv" }] } }] } } }"#,
    ),
    (
        "REFOLD 3 t TO CONV (a, b)",
        r#"Refold { tenant: 3, table: Str { text: "t" }, fold: FoldText { conv: List { items: [Str { text: "a" }, Str { text: "b" }] }, chunks: List { items: [] } } }"#,
    ),
    (
        "step 3 Step 9223372036854775807;",
        r#"Step { tenant: 3, table: Str { text: "step" }, rows: 9223372036854775807 }"#,
    ),
    (
        "EXPLAIN 1 SELECT*FROM t;",
        r#"Explain { tenant: 1, select: Select { distinct: false, items: List { items: [] }, refs: List { items: [Ref { table: Str { text: "t" }, alias: None, on: None }] }, cond: None, group: List { items: [] }, having: None, order: List { items: [] }, limit: None } }"#,
    ),
];

#[test]
fn reads_each_command(rt: HostRuntime) -> Result<(), Fail> {
    commands_are_determined();
    each_command_text_gives_something();
    for (text, want) in READ {
        let got = reading(rt.alloc(), text)?;
        assert_eq!(rt; got.as_str(), want, "of {text}");
    }
    Ok(())
}

/// REFOLD with so many chunks.
fn refolding(alloc: Global, count: u8) -> Result<String, AllocError> {
    let mut text = String::from_str(alloc, "REFOLD 3 t TO ")?;
    for chunk in 0..count {
        let comma = if chunk == 0 { "" } else { ", " };
        write!(text, "{comma}C{} (a)", 1 + chunk % 6)?;
    }
    Ok(text)
}

/// The `Debug` text of that command.
fn refolded(alloc: Global, count: u8) -> Result<String, AllocError> {
    let mut tree = String::from_str(
        alloc,
        r#"Refold { tenant: 3, table: Str { text: "t" }, fold: FoldText { conv: List { items: [] }, chunks: List { items: ["#,
    )?;
    for chunk in 0..count {
        let comma = if chunk == 0 { "" } else { ", " };
        write!(tree, "{comma}ChunkText {{ shape: {}, ", 1 + chunk % 6)?;
        tree.push_str(r#"columns: List { items: [Str { text: "a" }] } }"#)?;
    }
    tree.push_str("] } } }")?;
    Ok(tree)
}

#[test]
fn reads_40_chunks(rt: HostRuntime) -> Result<(), Fail> {
    let text = refolding(rt.alloc(), 40)?;
    let want = refolded(rt.alloc(), 40)?;
    let got = reading(rt.alloc(), text.as_str())?;
    assert_eq!(rt; got.as_str(), want.as_str());
    Ok(())
}

/// Commands, one a line.
const COMMANDS: &str = "CREATE TABLE t (a INTEGER)\n\
CREATE TABLE table (c1 INTEGER, conv VARCHAR(2) NOT NULL)\n\
CREATE TABLE quota (a VARCHAR(9223372036854775807), PRIMARY KEY (x))\n\
CREATE EXTENSION e ON t (a INTEGER)\n\
CREATE EXTENSION create ON table (a INTEGER, b VARCHAR(1), c INTEGER)\n\
CREATE TENANT 5 QUOTA 1000\n\
CREATE TENANT 1 QUOTA 1;\n\
EXTEND 3 WITH e\n\
EXTEND 12 WITH extend\n\
SET QUOTA 3 TO 500\n\
SET QUOTA 007 TO 0;\n\
ADVISE 3 t\n\
advise 1 _t\n\
SHOW FOLD 3 t\n\
SHOW FOLD 0 show\n\
STEP 3 t 10\n\
STEP 1 t 0\n\
EXPLAIN 1 SELECT a FROM t;\n\
explain 7 Select*from t where a=1\n\
EXPLAIN 0 SELECT DISTINCT a FROM t JOIN u ON t.a = u.a ORDER BY 1\n\
refold 3 T to conv (A), c1 (b), C6 (c, conv);\n\
REFOLD 3 to TO C2 (c2), C3 (b), c4(d), c5 (e)";

/// No commands, one a line.
const NO_COMMANDS: &str = "CREATE TABLE t (a VARCHAR(9223372036854775808), b)\n\
CREATE TABLE t (a VARCHAR(9223372036854775808), PRIMARY KEY (a), b INTEGER)\n\
CREATE TABLE t (PRIMARY KEY (a))\n\
CREATE TABLE t (a INTEGER, PRIMARY KEY (a), b INTEGER)\n\
CREATE TABLE t (a INTEGER PRIMARY KEY)\n\
CREATE TABLE t (a INTEGER, PRIMARY KEY ())\n\
CREATE TABLE t (a INTEGER NOT)\n\
CREATE TABLE t (a INTEGER, )\n\
CREATE TABLE t ()\n\
CREATE TABLE t (a VARCHAR(-5))\n\
CREATE TABLE t (a VARCHAR)\n\
CREATE TABLE t (a VARCHAR 5)\n\
CREATE TABLE t (a DATE)\n\
CREATE TABLE t a INTEGER\n\
CREATE TABLE t (key INTEGER)\n\
CREATE TABLE Where (a INTEGER)\n\
CREATE TABLE t (a INTEGER);;\n\
CREATE EXTENSION e ON t (a INTEGER NOT NULL)\n\
CREATE EXTENSION e ON t ()\n\
CREATE EXTENSION e TO t (a INTEGER)\n\
CREATE EXTENSION e ON t (a INTEGER, PRIMARY KEY (a))\n\
CREATE TENANT -1 QUOTA 1\n\
CREATE TENANT 1\n\
CREATE TENANT 9223372036854775808 QUOTA\n\
CREATE t (a INTEGER)\n\
EXTEND 3 e\n\
EXTEND 3 WITH\n\
EXTEND e WITH 3\n\
SET QUOTA 1 500\n\
SET QUOTA 1 TO -1\n\
SET 1 QUOTA TO 500\n\
ADVISE t\n\
ADVISE 3\n\
ADVISE 3 select\n\
SHOW 3 t\n\
SHOW FOLD t\n\
SHOW FOLD 3 t u\n\
STEP 3 t\n\
STEP 3 t -1\n\
STEP 3 10 t\n\
EXPLAIN SELECT a FROM t\n\
EXPLAIN 1 DELETE FROM t\n\
EXPLAIN 1 SELECT a b FROM t\n\
EXPLAIN 1 (SELECT a FROM t)\n\
EXPLAIN 9223372036854775808 SELECT a FROM t LIMIT\n\
SELECT a FROM t\n\
REFOLD 9223372036854775808 t TO C1\n\
REFOLD 3 t TO\n\
REFOLD 3 t CONV (a)\n\
REFOLD 3 t TO CONV ()\n\
REFOLD 3 t TO CONV (a,)\n\
REFOLD 3 t TO CONV a\n\
REFOLD 3 t TO CONV (1)\n\
REFOLD 3 t TO CONV (a) C1 (b)\n\
REFOLD 3 t TO CONV (a),\n\
REFOLD 3 t TO C1 (a), CONV (b)\n\
REFOLD 3 t TO CONV (a), CONV (b)\n\
REFOLD 3 t TO C0 (a)\n\
REFOLD 3 t TO C7 (a)\n\
REFOLD 3 t TO C01 (a)\n\
REFOLD 3 t TO C1 (a) b";

/// Commands with a number outside 64 bits, one a line.
const OUTSIDE: &str = "CREATE TABLE t (a VARCHAR(9223372036854775808), b INTEGER)\n\
CREATE EXTENSION e ON t (a VARCHAR(9223372036854775808))\n\
CREATE TENANT 9223372036854775808 QUOTA 1\n\
CREATE TENANT 1 QUOTA 9223372036854775808\n\
EXTEND 9223372036854775808 WITH e\n\
SET QUOTA 1 TO 9223372036854775808\n\
SET QUOTA 9223372036854775808 TO 1\n\
ADVISE 18446744073709551616 t\n\
SHOW FOLD 9223372036854775808 t\n\
STEP 3 t 9223372036854775808\n\
STEP 9223372036854775808 t 1\n\
EXPLAIN 9223372036854775808 SELECT a FROM t\n\
EXPLAIN 1 SELECT a FROM t LIMIT 9223372036854775808\n\
REFOLD 9223372036854775808 t TO C1 (a)";

#[test]
fn reads_commands(rt: HostRuntime) -> Result<(), Fail> {
    for text in COMMANDS.split('\n') {
        assert!(rt; parse_admin(rt.alloc(), text).is_ok(), "of {text}");
    }
    Ok(())
}

#[test]
fn refuses_other_texts(rt: HostRuntime) -> Result<(), Fail> {
    for text in NO_COMMANDS.split('\n') {
        let fault = parse_admin(rt.alloc(), text).err();
        assert_eq!(rt; fault, Some(ParseFault::Syntax), "of {text}");
    }
    for text in ["", ";", "'"] {
        let fault = parse_admin(rt.alloc(), text).err();
        assert_eq!(rt; fault, Some(ParseFault::Syntax), "of {text}");
    }
    Ok(())
}

#[test]
fn tells_numbers_outside(rt: HostRuntime) -> Result<(), Fail> {
    for text in OUTSIDE.split('\n') {
        let fault = parse_admin(rt.alloc(), text).err();
        assert_eq!(rt; fault, Some(ParseFault::Literal), "of {text}");
    }
    Ok(())
}
