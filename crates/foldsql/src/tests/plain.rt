use super::replies;
use std::alloc::{AllocError, Global};
use std::process::Abort;
use std::test::Fail;
use std::thread::Threads;

/// Lines to send to `plain`, and the replies that are wanted.
#[derive(Drop)]
struct Script {
    input: Vec<u8>,
    wanted: Vec<u8>,
}

impl Script {
    fn new(alloc: Global) -> Script {
        Script {
            input: Vec::new(alloc),
            wanted: Vec::new(alloc),
        }
    }

    /// Adds a line and the reply to it.
    fn add(&mut self, line: &[u8], reply: &str) -> Result<(), AllocError> {
        self.input.extend_from_slice(line)?;
        self.input.push(b'\n')?;
        self.wanted.extend_from_slice(reply.as_bytes())?;
        Ok(())
    }

    fn add_all(&mut self, lines: &[(&str, &str)]) -> Result<(), AllocError> {
        for (line, reply) in lines {
            self.add(line.as_bytes(), reply)?;
        }
        Ok(())
    }

    /// Asserts that the lines get these replies.
    fn check<R: Threads + Sync + Abort>(self, rt: &R, alloc: Global) -> Result<(), Fail> {
        let told = replies(rt, alloc, "plain", &self.input)?;
        assert_eq!(rt; told.as_slice(), self.wanted.as_slice());
        Ok(())
    }
}

/// Asserts that the lines of a script get their replies.
fn check<R: Threads + Sync + Abort>(
    rt: &R,
    alloc: Global,
    lines: &[(&str, &str)],
) -> Result<(), Fail> {
    let mut script = Script::new(alloc);
    script.add_all(lines)?;
    script.check(rt, alloc)
}

#[test]
fn serves_a_tenant(rt: HostRuntime) -> Result<(), Fail> {
    let lines = [
        ("@admin CREATE TABLE t (a INTEGER, b VARCHAR(5))", "ok\n"),
        ("@admin CREATE TENANT 1 QUOTA 1", "ok\n"),
        ("@1 INSERT INTO t VALUES (7, 'x')", "ok 1\n"),
        ("@1 SELECT b, a FROM t", "columns b|a\n'x'|7\nok 1\n"),
        ("@1 INSERT INTO t VALUES (8, 'y')", "error E30 quota full\n"),
        ("@2 SELECT a FROM t", "error E03 unknown tenant\n"),
        ("@1 SELECT c FROM t", "error E12 unknown column\n"),
        ("@1 DELETE FROM t", "error E09 not served here\n"),
        ("@1 BEGIN", "error E10 syntax\n"),
        (
            "@1 SELECT aid FROM account WHERE beds < -9223372036854775808",
            "error E09 not served here\n",
        ),
        (
            "@1 SELECT aid FROM account WHERE beds < -9223372036854775809",
            "error E16 number outside 64 bits\n",
        ),
    ];
    check(&rt, rt.alloc(), &lines)
}

#[test]
fn keeps_values(rt: HostRuntime) -> Result<(), Fail> {
    let lines = [
        ("@admin CREATE TABLE t (a INTEGER, b VARCHAR(5))", "ok\n"),
        ("@admin CREATE TENANT 1 QUOTA 9", "ok\n"),
        ("@1 INSERT INTO t VALUES (1, 'it''s')", "ok 1\n"),
        ("@1 INSERT INTO t VALUES (2, 'ë')", "ok 1\n"),
        ("@1 INSERT INTO t VALUES (NULL, NULL)", "ok 1\n"),
        (
            "@1 INSERT INTO t VALUES (-9223372036854775808, 'least')",
            "ok 1\n",
        ),
        (
            "@1 INSERT INTO t VALUES (9223372036854775808, '')",
            "error E16 number outside 64 bits\n",
        ),
        (
            "@1 INSERT INTO t VALUES (3)",
            "error E14 types do not fit\n",
        ),
        (
            "@1 INSERT INTO t VALUES (3, 'sixsix')",
            "error E20 text too long\n",
        ),
        (
            "@1 SELECT * FROM t",
            "columns a|b\nNULL|NULL\n-9223372036854775808|'least'\n1|'it''s'\n2|'ë'\nok 4\n",
        ),
    ];
    check(&rt, rt.alloc(), &lines)
}

#[test]
fn extends_a_tenants_table(rt: HostRuntime) -> Result<(), Fail> {
    let lines = [
        (
            "@admin CREATE TABLE account (aid INTEGER, name VARCHAR(40) NOT NULL, PRIMARY KEY (aid))",
            "ok\n",
        ),
        (
            "@admin CREATE EXTENSION health ON account (hospital VARCHAR(60), beds INTEGER)",
            "ok\n",
        ),
        ("@admin CREATE TENANT 17 QUOTA 100", "ok\n"),
        ("@admin CREATE TENANT 35 QUOTA 100", "ok\n"),
        ("@17 INSERT INTO account VALUES (1, 'Acme')", "ok 1\n"),
        ("@admin EXTEND 17 WITH health", "ok\n"),
        (
            "@17 SELECT * FROM account",
            "columns aid|name|hospital|beds\n1|'Acme'|NULL|NULL\nok 1\n",
        ),
        (
            "@17 INSERT INTO account VALUES (2, 'Gump')",
            "error E14 types do not fit\n",
        ),
        (
            "@17 INSERT INTO account VALUES (2, 'Gump', 'State', 1042)",
            "ok 1\n",
        ),
        (
            "@17 INSERT INTO account VALUES (2, 'Big', NULL, NULL)",
            "error E23 duplicate key\n",
        ),
        (
            "@17 INSERT INTO account VALUES (3, NULL, NULL, 65)",
            "error E22 null not allowed\n",
        ),
        (
            "@17 INSERT INTO account VALUES (NULL, 'Big', NULL, 65)",
            "error E22 null not allowed\n",
        ),
        ("@35 INSERT INTO account VALUES (1, 'Ball')", "ok 1\n"),
        (
            "@35 SELECT * FROM account",
            "columns aid|name\n1|'Ball'\nok 1\n",
        ),
        ("@35 SELECT beds FROM account", "error E12 unknown column\n"),
        (
            "@admin SET QUOTA 17 TO 1",
            "error E44 quota below rows kept\n",
        ),
        ("@admin SET QUOTA 17 TO 2", "ok\n"),
        (
            "@17 INSERT INTO account VALUES (3, 'Big', NULL, 65)",
            "error E30 quota full\n",
        ),
        ("@admin SET QUOTA 17 TO 3", "ok\n"),
        (
            "@17 INSERT INTO account VALUES (3, 'Big', NULL, 65)",
            "ok 1\n",
        ),
        (
            "@17 SELECT beds, aid FROM account",
            "columns beds|aid\nNULL|1\n65|3\n1042|2\nok 3\n",
        ),
    ];
    check(&rt, rt.alloc(), &lines)
}

#[test]
fn refuses_schema_steps(rt: HostRuntime) -> Result<(), Fail> {
    let unknown = "error E42 unknown name\n";
    let lines = [
        ("@admin CREATE TABLE t (a INTEGER)", "ok\n"),
        ("@admin CREATE EXTENSION e ON t (b INTEGER)", "ok\n"),
        ("@admin CREATE TENANT 1 QUOTA 1", "ok\n"),
        (
            "@admin CREATE TABLE u (a INTEGER, PRIMARY KEY (b))",
            unknown,
        ),
        ("@admin CREATE EXTENSION f ON u (b INTEGER)", unknown),
        ("@admin EXTEND 2 WITH e", unknown),
        ("@admin EXTEND 1 WITH f", unknown),
        ("@admin SET QUOTA 2 TO 1", unknown),
        (
            "@admin CREATE EXTENSION e ON t (c INTEGER)",
            "error E40 name exists\n",
        ),
        (
            "@admin CREATE EXTENSION f ON t (a INTEGER)",
            "error E41 column name taken\n",
        ),
        ("@admin EXTEND 1 WITH e", "ok\n"),
        ("@admin EXTEND 1 WITH e", "error E41 column name taken\n"),
        ("@admin SET QUOTA 1 TO 0", "error E43 limit\n"),
        ("@admin SHOW FOLD 1 t", "error E09 not served here\n"),
        (
            "@admin CREATE EXTENSION f ON t (c INTEGER NOT NULL)",
            "error E10 syntax\n",
        ),
    ];
    check(&rt, rt.alloc(), &lines)
}

#[test]
fn refuses_lines(rt: HostRuntime) -> Result<(), Fail> {
    let unreadable = "error E02 line not readable\n";
    let cases = [
        (b"@1 \xff".as_slice(), unreadable),
        (b"@0 SELECT a FROM t", unreadable),
        (b"@01 SELECT a FROM t", unreadable),
        (b"@4294967296 SELECT a FROM t", unreadable),
        (b"@17x SELECT a FROM t", unreadable),
        (
            b"@admin CREATE TABLE a234567890123456789012345678901 (a INTEGER)",
            "error E10 syntax\n",
        ),
        (
            b"@admin CREATE TABLE t (a INTEGER, A INTEGER)",
            "error E41 column name taken\n",
        ),
        (
            b"@admin CREATE TABLE t (a VARCHAR(121))",
            "error E43 limit\n",
        ),
        (b"@admin CREATE TENANT 1 QUOTA 65537", "error E43 limit\n"),
    ];
    let mut script = Script::new(rt.alloc());
    for (line, reply) in cases {
        script.add(line, reply)?;
    }
    script.check(&rt, rt.alloc())
}

#[test]
fn bounds_tables_and_tenants(rt: HostRuntime) -> Result<(), Fail> {
    let mut script = Script::new(rt.alloc());
    for tenant in 1..=1001 {
        let line = format!(in rt.alloc(); "@admin CREATE TENANT {tenant} QUOTA 1")?;
        let reply = if tenant <= 1000 {
            "ok\n"
        } else {
            "error E43 limit\n"
        };
        script.add(line.as_bytes(), reply)?;
    }
    for number in 1..=17 {
        let line = format!(in rt.alloc(); "@admin CREATE TABLE t{number} (a INTEGER)")?;
        let reply = if number <= 16 {
            "ok\n"
        } else {
            "error E43 limit\n"
        };
        script.add(line.as_bytes(), reply)?;
    }
    script.check(&rt, rt.alloc())
}

#[test]
fn keeps_tenants_apart(rt: HostRuntime) -> Result<(), Fail> {
    let first = [
        ("@1 INSERT INTO t VALUES (1)", "ok 1\n"),
        ("@1 INSERT INTO t VALUES (2)", "ok 1\n"),
        ("@1 SELECT a FROM t", "columns a\n1\n2\nok 2\n"),
    ];
    let second = [
        ("@2 INSERT INTO t VALUES (3)", "ok 1\n"),
        ("@2 INSERT INTO t VALUES (4)", "error E30 quota full\n"),
        ("@2 SELECT a FROM t", "columns a\n3\nok 1\n"),
    ];
    for order in ["111222", "222111", "121212", "211212"] {
        let mut script = Script::new(rt.alloc());
        script.add(b"@admin CREATE TABLE t (a INTEGER)", "ok\n")?;
        script.add(b"@admin CREATE TENANT 1 QUOTA 2", "ok\n")?;
        script.add(b"@admin CREATE TENANT 2 QUOTA 1", "ok\n")?;
        let mut firsts = first.iter();
        let mut seconds = second.iter();
        for tenant in order.chars() {
            let next = if tenant == '1' {
                firsts.next()
            } else {
                seconds.next()
            };
            let (line, reply) = next.ok_or("the tenant has no more lines")?;
            script.add(line.as_bytes(), reply)?;
        }
        script.check(&rt, rt.alloc())?;
    }
    Ok(())
}
