//! Lines of the administrator and of tenants, and what each is answered.
ghost use Rattle.mt_model.specs.Service.{Service};
ghost use Rattle.mt_private.specs.Kept.{IsKept};

use crate::Plain;
use mt_script::reply_bytes;
use std::process::Abort;
use std::test::Fail;

/// Lines, and what each is answered.
const LINES: [(&str, &str); 44] = [
    ("nobody", "error E02 line not readable\n"),
    ("@admin CREATE TABLE t (a INTEGER, b VARCHAR(5))", "ok\n"),
    (
        "@admin create table T (c integer)",
        "error E40 name exists\n",
    ),
    (
        "@admin CREATE TABLE u (a INTEGER, A INTEGER)",
        "error E41 column name taken\n",
    ),
    (
        "@admin CREATE TABLE u (a VARCHAR(121))",
        "error E43 limit\n",
    ),
    ("@1 SELECT * FROM t", "error E03 unknown tenant\n"),
    ("@admin CREATE TENANT 1 QUOTA 1", "ok\n"),
    ("@admin CREATE TENANT 1 QUOTA 2", "error E40 name exists\n"),
    ("@admin CREATE TENANT 2 QUOTA 65537", "error E43 limit\n"),
    ("@admin CREATE TENANT 2 QUOTA 3", "ok\n"),
    ("@1 SELECT a FROM t", "columns a\nok 0\n"),
    ("@1 INSERT INTO t VALUES (7, 'it''s')", "ok 1\n"),
    ("@1 SELECT b, a FROM t;", "columns b|a\n'it''s'|7\nok 1\n"),
    (
        "@1 INSERT INTO t VALUES (8, NULL)",
        "error E30 quota full\n",
    ),
    (
        "@1 INSERT INTO t VALUES (8)",
        "error E14 types do not fit\n",
    ),
    (
        "@1 INSERT INTO t VALUES (8, 'longer')",
        "error E20 text too long\n",
    ),
    (
        "@1 INSERT INTO t VALUES (9223372036854775808, NULL)",
        "error E16 number outside 64 bits\n",
    ),
    ("@1 SELECT c FROM t", "error E12 unknown column\n"),
    ("@1 SELECT c FROM u", "error E11 unknown table\n"),
    ("@1 DELETE FROM t", "error E09 not served here\n"),
    ("@2 INSERT INTO t VALUES (2, NULL)", "ok 1\n"),
    ("@2 INSERT INTO t VALUES (-1, '')", "ok 1\n"),
    ("@2 SELECT * FROM t", "columns a|b\n-1|''\n2|NULL\nok 2\n"),
    ("@admin CREATE TABLE u (c INTEGER)", "ok\n"),
    ("@2 SELECT c FROM u", "columns c\nok 0\n"),
    ("@2 INSERT INTO u VALUES (NULL)", "ok 1\n"),
    ("@2 SELECT * FROM u", "columns c\nNULL\nok 1\n"),
    ("@2 INSERT INTO u VALUES (3)", "error E30 quota full\n"),
    ("@2 SELECT (a) FROM t", "columns a\n-1\n2\nok 2\n"),
    ("@3 BEGIN", "error E03 unknown tenant\n"),
    ("@2 BEGIN", "error E10 syntax\n"),
    ("@2 INSERT INTO t VALUES (1", "error E10 syntax\n"),
    (
        "@2 SELECT a FROM t WHERE a = DATE '2026-01-01'",
        "error E10 syntax\n",
    ),
    (
        "@2 SELECT a FROM t WHERE a < -9223372036854775808",
        "error E09 not served here\n",
    ),
    (
        "@2 SELECT a FROM nowhere WHERE a < -9223372036854775809",
        "error E16 number outside 64 bits\n",
    ),
    (
        "@2 SELECT a x FROM t LIMIT 9223372036854775808",
        "error E10 syntax\n",
    ),
    (
        "@2 INSERT INTO t (a, b) VALUES (1, 'x')",
        "error E09 not served here\n",
    ),
    ("@2 CREATE TENANT 4 QUOTA 1", "error E10 syntax\n"),
    ("@admin SELECT a FROM t", "error E10 syntax\n"),
    ("@admin CREATE TABLE t", "error E10 syntax\n"),
    (
        "@admin CREATE TABLE t (a INTEGER NOT NULL)",
        "error E40 name exists\n",
    ),
    ("@admin STEP 1 t 5", "error E09 not served here\n"),
    (
        "@admin STEP 1 t 9223372036854775808",
        "error E16 number outside 64 bits\n",
    ),
    (
        "@admin EXPLAIN 1 SELECT a FROM t",
        "error E09 not served here\n",
    ),
];

/// Lines on keys, extensions and quotas, and what each is answered.
const STEPS: [(&str, &str); 56] = [
    (
        "@admin CREATE TABLE t (a INTEGER NOT NULL, b VARCHAR(3), PRIMARY KEY (b))",
        "ok\n",
    ),
    (
        "@admin CREATE TABLE v (a INTEGER, PRIMARY KEY (b))",
        "error E42 unknown name\n",
    ),
    (
        "@admin CREATE TABLE v (a INTEGER, PRIMARY KEY (a, a))",
        "error E41 column name taken\n",
    ),
    (
        "@admin CREATE TABLE T (a VARCHAR(0), a INTEGER)",
        "error E40 name exists\n",
    ),
    ("@admin CREATE TENANT 0 QUOTA 1", "error E43 limit\n"),
    ("@admin CREATE TENANT 1 QUOTA 0", "error E43 limit\n"),
    ("@admin CREATE TENANT 1 QUOTA 4", "ok\n"),
    ("@admin CREATE TENANT 2 QUOTA 4", "ok\n"),
    (
        "@1 INSERT INTO t VALUES (NULL, 'x')",
        "error E22 null not allowed\n",
    ),
    (
        "@1 INSERT INTO t VALUES (1, NULL)",
        "error E22 null not allowed\n",
    ),
    ("@1 INSERT INTO t VALUES (1, 'x')", "ok 1\n"),
    (
        "@1 INSERT INTO t VALUES (2, 'x')",
        "error E23 duplicate key\n",
    ),
    ("@1 INSERT INTO t VALUES (1, 'y')", "ok 1\n"),
    ("@2 INSERT INTO t VALUES (2, 'x')", "ok 1\n"),
    (
        "@admin CREATE EXTENSION e ON t (c INTEGER, d VARCHAR(2))",
        "ok\n",
    ),
    (
        "@admin CREATE EXTENSION e ON t (a INTEGER)",
        "error E40 name exists\n",
    ),
    (
        "@admin CREATE EXTENSION f ON u (c INTEGER)",
        "error E42 unknown name\n",
    ),
    (
        "@admin CREATE EXTENSION f ON t (B INTEGER)",
        "error E41 column name taken\n",
    ),
    (
        "@admin CREATE EXTENSION f ON t (c VARCHAR(0))",
        "error E43 limit\n",
    ),
    (
        "@admin CREATE EXTENSION f ON t (c INTEGER NOT NULL)",
        "error E10 syntax\n",
    ),
    ("@admin CREATE EXTENSION f ON t (d INTEGER)", "ok\n"),
    ("@1 SELECT c FROM t", "error E12 unknown column\n"),
    ("@admin EXTEND 3 WITH e", "error E42 unknown name\n"),
    ("@admin EXTEND 1 WITH g", "error E42 unknown name\n"),
    ("@admin EXTEND 1 WITH e", "ok\n"),
    (
        "@1 SELECT * FROM t",
        "columns a|b|c|d\n1|'x'|NULL|NULL\n1|'y'|NULL|NULL\nok 2\n",
    ),
    (
        "@1 INSERT INTO t VALUES (1, 'z')",
        "error E14 types do not fit\n",
    ),
    (
        "@1 INSERT INTO t VALUES (1, 'z', 5, 'far')",
        "error E20 text too long\n",
    ),
    (
        "@1 INSERT INTO t VALUES (1, 'x', 5, 'de')",
        "error E23 duplicate key\n",
    ),
    ("@1 INSERT INTO t VALUES (1, 'z', 5, 'de')", "ok 1\n"),
    (
        "@1 SELECT d, b FROM t",
        "columns d|b\nNULL|'x'\nNULL|'y'\n'de'|'z'\nok 3\n",
    ),
    ("@admin EXTEND 1 WITH e", "error E41 column name taken\n"),
    ("@admin EXTEND 1 WITH f", "error E41 column name taken\n"),
    ("@2 SELECT * FROM t", "columns a|b\n2|'x'\nok 1\n"),
    ("@admin EXTEND 2 WITH f", "ok\n"),
    ("@2 SELECT * FROM t", "columns a|b|d\n2|'x'|NULL\nok 1\n"),
    ("@2 INSERT INTO t VALUES (2, 'y', -6)", "ok 1\n"),
    ("@2 SELECT d FROM t", "columns d\nNULL\n-6\nok 2\n"),
    ("@1 SELECT d FROM t", "columns d\nNULL\nNULL\n'de'\nok 3\n"),
    (
        "@admin SET QUOTA 1 TO 2",
        "error E44 quota below rows kept\n",
    ),
    ("@admin SET QUOTA 1 TO 3", "ok\n"),
    (
        "@1 INSERT INTO t VALUES (1, 'w', NULL, NULL)",
        "error E30 quota full\n",
    ),
    ("@admin SET QUOTA 1 TO 0", "error E43 limit\n"),
    ("@admin SET QUOTA 1 TO 65537", "error E43 limit\n"),
    ("@admin SET QUOTA 3 TO 5", "error E42 unknown name\n"),
    ("@admin SET QUOTA 1 TO 4", "ok\n"),
    ("@1 INSERT INTO t VALUES (1, 'w', NULL, NULL)", "ok 1\n"),
    ("@admin CREATE TABLE u (a INTEGER)", "ok\n"),
    ("@2 INSERT INTO u VALUES (3)", "ok 1\n"),
    ("@admin EXTEND 2 WITH e", "error E41 column name taken\n"),
    ("@admin CREATE EXTENSION g ON u (b VARCHAR(4))", "ok\n"),
    ("@admin EXTEND 2 WITH g", "ok\n"),
    ("@2 SELECT * FROM u", "columns a|b\n3|NULL\nok 1\n"),
    ("@2 SELECT b FROM t", "columns b\n'x'\n'y'\nok 2\n"),
    ("@admin CREATE TENANT 3 QUOTA 1", "ok\n"),
    ("@3 SELECT * FROM t", "columns a|b\nok 0\n"),
];

/// Answers a line, which must be answered so.
fn answer(rt: &impl Abort, plain: &mut Plain, line: &str, expected: &str)
    requires { (service : Service) × IsKept plain.old service }
    ensures { (service : Service) × IsKept plain.new service }
{
    let reply = plain.line(line.as_bytes());
    assert_eq!(rt; reply_bytes(&reply), expected.as_bytes(), "{line}");
}

/// Answers lines, each as stands beside it.
fn answer_each(rt: &impl Abort, plain: &mut Plain, lines: &[(&str, &str)])
    requires { (service : Service) × IsKept plain.old service }
{
    for (line, expected) in lines {
        answer(rt, plain, line, expected);
    }
}

#[test]
fn lines_are_answered(rt: HostRuntime) {
    answer_each(&rt, &mut Plain::new(rt.alloc()), LINES.as_slice());
}

#[test]
fn schema_steps_are_answered(rt: HostRuntime) {
    answer_each(&rt, &mut Plain::new(rt.alloc()), STEPS.as_slice());
}

/// Lines once sixteen tenants have the largest quota, and what each is answered.
const QUOTAS: [(&str, &str); 4] = [
    (
        "@admin CREATE TENANT 17 QUOTA 1",
        "error E45 quotas too large\n",
    ),
    ("@admin SET QUOTA 16 TO 65535", "ok\n"),
    ("@admin CREATE TENANT 17 QUOTA 1", "ok\n"),
    (
        "@admin SET QUOTA 16 TO 65536",
        "error E45 quotas too large\n",
    ),
];

#[test]
fn quotas_are_too_large(rt: HostRuntime) -> Result<(), Fail> {
    let alloc = rt.alloc();
    let mut plain = Plain::new(alloc);
    for tenant in 1..17 {
        let line = format!(in alloc; "@admin CREATE TENANT {tenant} QUOTA 65536")?;
        answer(&rt, &mut plain, line.as_str(), "ok\n");
    }
    answer_each(&rt, &mut plain, QUOTAS.as_slice());
    Ok(())
}

#[test]
fn chunks_are_too_many(rt: HostRuntime) -> Result<(), Fail> {
    let alloc = rt.alloc();
    let mut plain = Plain::new(alloc);
    answer(&rt, &mut plain, "@admin CREATE TABLE t (a INTEGER)", "ok\n");
    answer(&rt, &mut plain, "@admin CREATE TENANT 1 QUOTA 1", "ok\n");
    for number in 0..17 {
        let line = format!(in alloc; "@admin CREATE EXTENSION e{number} ON t (b{number} INTEGER)")?;
        answer(&rt, &mut plain, line.as_str(), "ok\n");
    }
    for number in 0..16 {
        let line = format!(in alloc; "@admin EXTEND 1 WITH e{number}")?;
        answer(&rt, &mut plain, line.as_str(), "ok\n");
    }
    answer(
        &rt,
        &mut plain,
        "@admin EXTEND 1 WITH e16",
        "error E63 too many chunks\n",
    );
    Ok(())
}
