use super::reading;
use std::alloc::Global;
use std::test::Fail;

// Tables of texts, one a row. Behind an arrow stands what is shown of the statement, or `syntax`, or
// `outside`; a row without an arrow is shown as it stands.

const SELECTS: &str = "\
select Aid from account where not(beds>100); => SELECT aid FROM account WHERE NOT beds > 100
select*from t => SELECT * FROM t
SELECT DISTINCT a,b FROM t; => SELECT DISTINCT a , b FROM t
sElEcT a fRoM t wHeRe a=1 gRoUp bY a hAvInG count(*)>1 oRdEr By a lImIt 010 => SELECT a FROM t WHERE a = 1 GROUP BY a HAVING COUNT ( * ) > 1 ORDER BY a LIMIT 10
SELECT a FROM t GROUP BY t.a, b => SELECT a FROM t GROUP BY t . a , b
SELECT a FROM t LIMIT 0
SELECT FROM t => syntax
SELECT a => syntax
SELECT a t => syntax
SELECT a FROM => syntax
SELECT a FROM t WHERE => syntax
SELECT a FROM t LIMIT => syntax
SELECT a FROM t LIMIT -1 => syntax
SELECT a FROM t LIMIT a => syntax
SELECT a FROM t GROUP a => syntax
SELECT a FROM t GROUP BY => syntax
SELECT a FROM t GROUP BY a, => syntax
SELECT a FROM t GROUP BY 1 => syntax
SELECT a FROM t ORDER a => syntax
SELECT a FROM t HAVING => syntax
SELECT a FROM t LIMIT 1 WHERE a = 1 => syntax
SELECT a FROM t HAVING a = 1 GROUP BY a => syntax
SELECT DISTINCT DISTINCT a FROM t => syntax
SELECT a FROM t;; => syntax
(SELECT a FROM t) => syntax
SELECT a FROM t WHERE a = 1 WHERE b = 1 => syntax";

const ITEMS: &str = "\
SELECT a AS x FROM t
SELECT a as x, 1+1 as two, COUNT(*) FROM t => SELECT a AS x , 1 + 1 AS two , COUNT ( * ) FROM t
SELECT 'x' AS c1 FROM t
SELECT * , a FROM t => syntax
SELECT a , * FROM t => syntax
SELECT a b FROM t => syntax
SELECT a AS FROM t => syntax
SELECT a AS 1 FROM t => syntax
SELECT a , FROM t => syntax
SELECT a AS x.y FROM t => syntax";

const REFERENCES: &str = "\
SELECT a FROM t x => SELECT a FROM t AS x
SELECT a FROM t AS x, u => SELECT a FROM t AS x , u
SELECT a FROM t, u, v, w => SELECT a FROM t , u , v , w
SELECT a FROM t JOIN u ON t.a=u.a => SELECT a FROM t JOIN u ON t . a = u . a
SELECT a FROM t x INNER JOIN u AS y ON x.a = y.a, v => SELECT a FROM t AS x JOIN u AS y ON x . a = y . a , v
SELECT a FROM t JOIN u ON a = 1 OR b = 2 JOIN v ON a = b WHERE a = 3
SELECT a FROM t JOIN u => syntax
SELECT a FROM t INNER u ON a = b => syntax
SELECT a FROM t JOIN ON a = b => syntax
SELECT a FROM t , u ON a = b => syntax
SELECT a FROM t x y => syntax
SELECT a FROM t AS => syntax
SELECT a FROM 1 => syntax
SELECT a FROM t AS where => syntax
SELECT a FROM t ,  => syntax
SELECT a FROM t, u, v, w, x => syntax
SELECT a FROM t JOIN u ON a = b JOIN v ON a = b JOIN w ON a = b JOIN x ON a = b => syntax
SELECT a FROM t.u => syntax";

const KEYS: &str = "\
SELECT a FROM t ORDER BY a ASC, 2 DESC, 003 => SELECT a FROM t ORDER BY a , 2 DESC , 3
SELECT a FROM t ORDER BY b desc => SELECT a FROM t ORDER BY b DESC
SELECT a FROM t ORDER BY 1
SELECT a FROM t ORDER BY 1.0 => syntax
SELECT a FROM t ORDER BY t.a => syntax
SELECT a FROM t ORDER BY a DESC ASC => syntax
SELECT a FROM t ORDER BY a, => syntax
SELECT a FROM t ORDER BY => syntax
SELECT a FROM t ORDER BY -1 => syntax
SELECT a FROM t ORDER BY desc => syntax";

const INSERTS: &str = "\
INSERT INTO t VALUES (1) => INSERT INTO t VALUES ( 1 )
insert\tinto T (A, b) values(0007,-3),( - 5,NULL) ; => INSERT INTO t ( a , b ) VALUES ( 7 , - 3 ) , ( - 5 , NULL )
INSERT INTO create VALUES ('it''s', '') => INSERT INTO create VALUES ( 'it''s' , '' )
INSERT INTO t VALUES (9223372036854775807, -9223372036854775808, -0) => INSERT INTO t VALUES ( 9223372036854775807 , - 9223372036854775808 , 0 )
INSERT INTO t VALUES ('Zoë', 'SELECT') => INSERT INTO t VALUES ( 'Zoë' , 'SELECT' )
INSERT t VALUES (1) => syntax
INSERT INTO t (1) => syntax
INSERT INTO t VALUES => syntax
INSERT INTO t VALUES 1 => syntax
INSERT INTO t () VALUES (1) => syntax
INSERT INTO t (a,) VALUES (1) => syntax
INSERT INTO t (t.a) VALUES (1) => syntax
INSERT INTO t VALUES () => syntax
INSERT INTO t VALUES (1,) => syntax
INSERT INTO t VALUES (1 => syntax
INSERT INTO t VALUES (1) (2) => syntax
INSERT INTO t VALUES (1), => syntax
INSERT INTO t VALUES (a) => syntax
INSERT INTO t VALUES (1 + 1) => syntax
INSERT INTO t VALUES (- -1) => syntax
INSERT INTO t VALUES ((1)) => syntax
INSERT INTO t SELECT a FROM t => syntax";

const CHANGES: &str = "\
UPDATE t SET a=1 => UPDATE t SET a = 1
update T set A = a+1, b = NULL where a=2; => UPDATE t SET a = a + 1 , b = NULL WHERE a = 2
UPDATE t SET a = (b + c) * 2 => UPDATE t SET a = ( b + c ) * 2
DELETE FROM t
delete from t where a is null => DELETE FROM t WHERE a IS NULL
DELETE FROM t WHERE NOT (a = 1 OR b = 2); => DELETE FROM t WHERE NOT ( a = 1 OR b = 2 )
RESTORE t
restore t where (a=1) => RESTORE t WHERE a = 1
RESTORE purged ; => RESTORE purged
PURGE t
purge t where a<>1 => PURGE t WHERE a <> 1
PURGE table WHERE a = 1
UPDATE t a = 1 => syntax
UPDATE SET a = 1 => syntax
UPDATE t SET => syntax
UPDATE t SET a => syntax
UPDATE t SET a = 1, => syntax
UPDATE t SET t.a = 1 => syntax
UPDATE t SET a = b = 1 => syntax
UPDATE t x SET a = 1 => syntax
DELETE t => syntax
DELETE FROM => syntax
DELETE FROM t, u => syntax
DELETE FROM t WHERE => syntax
RESTORE FROM t => syntax
RESTORE => syntax
RESTORE t u => syntax
PURGE FROM t => syntax
PURGE => syntax
PURGE t LIMIT 1 => syntax";

const EXPRESSIONS: &str = "\
SELECT a+b-c FROM t => SELECT a + b - c FROM t
SELECT a+(b-c) FROM t => SELECT a + ( b - c ) FROM t
SELECT (a+b)-c FROM t => SELECT ( a + b ) - c FROM t
SELECT a-1 FROM t => SELECT a - 1 FROM t
SELECT 1 - -1 FROM t => SELECT 1 - - 1 FROM t
SELECT 1--1 FROM t => SELECT 1 - - 1 FROM t
SELECT a*b*c FROM t => SELECT a * b * c FROM t
SELECT a*(b*c) FROM t => SELECT a * ( b * c ) FROM t
SELECT a*(b+c) FROM t => SELECT a * ( b + c ) FROM t
SELECT a*b+c*d FROM t => SELECT a * b + c * d FROM t
SELECT (a*b)+(c*d) FROM t => SELECT a * b + c * d FROM t
SELECT a-(b*c) FROM t => SELECT a - b * c FROM t
SELECT ((a)) FROM t => SELECT a FROM t
SELECT ((a)*(b)) FROM t => SELECT a * b FROM t
SELECT (a + (b)) FROM t => SELECT a + b FROM t
SELECT (-5) FROM t => SELECT - 5 FROM t
SELECT 2*(3) FROM t => SELECT 2 * 3 FROM t
SELECT a + FROM t => syntax
SELECT + a FROM t => syntax
SELECT a + + b FROM t => syntax
SELECT -a FROM t => syntax
SELECT - (a) FROM t => syntax
SELECT a - - b FROM t => syntax
SELECT a b FROM t => syntax
SELECT a **b FROM t => syntax
SELECT a * FROM t => syntax
SELECT * a * b FROM t => syntax
SELECT () FROM t => syntax
SELECT (a FROM t => syntax
SELECT a) FROM t => syntax
SELECT (a)) FROM t => syntax
SELECT (a,b) FROM t => syntax
SELECT a / b FROM t => syntax
SELECT a % b FROM t => syntax
SELECT a || b FROM t => syntax";

const ATOMS: &str = "\
SELECT t.a FROM t => SELECT t . a FROM t
SELECT T . A FROM t => SELECT t . a FROM t
SELECT _x1 FROM t
SELECT c1 FROM t
SELECT conv FROM t
SELECT COUNT (*) FROM t => SELECT COUNT ( * ) FROM t
SELECT count(t.a) FROM t => SELECT COUNT ( t . a ) FROM t
SELECT Sum(a), mIN(b), max(c) FROM t => SELECT SUM ( a ) , MIN ( b ) , MAX ( c ) FROM t
SELECT 5 FROM t
SELECT -5 FROM t => SELECT - 5 FROM t
SELECT - 5 FROM t
SELECT 000 FROM t => SELECT 0 FROM t
SELECT NULL FROM t
SELECT 'it''s' FROM t
SELECT '' FROM t
SELECT '''' FROM t
SELECT 'a b  c' FROM t
SELECT 'ä--;' FROM t
SELECT a.b.c FROM t => syntax
SELECT t. FROM t => syntax
SELECT .a FROM t => syntax
SELECT t.1 FROM t => syntax
SELECT t.* FROM t => syntax
SELECT t.where FROM t => syntax
SELECT 5a FROM t => syntax
SELECT 1.5 FROM t => syntax
SELECT 1e5 FROM t => syntax
SELECT 'a FROM t => syntax
SELECT \"a\" FROM t => syntax
SELECT --5 FROM t => syntax
SELECT - -5 FROM t => syntax
SELECT -'a' FROM t => syntax
SELECT -NULL FROM t => syntax
SELECT COUNT() FROM t => syntax
SELECT COUNT a FROM t => syntax
SELECT COUNT(1) FROM t => syntax
SELECT COUNT(a, b) FROM t => syntax
SELECT COUNT(DISTINCT a) FROM t => syntax
SELECT MIN(*) FROM t => syntax
SELECT SUM(1) FROM t => syntax
SELECT SUM(a + 1) FROM t => syntax
SELECT SUM((a)) FROM t => syntax
SELECT MAX(COUNT(a)) FROM t => syntax
SELECT AVG(a) FROM t => syntax
SELECT C7 (a) FROM t => syntax
SELECT CONV () FROM t => syntax
SELECT COUNT FROM t => syntax
SELECT DATE '2026-01-01' FROM t => syntax
SELECT DATE FROM t => syntax";

const LOGIC: &str = "\
DELETE FROM t WHERE a=1 or b=2 and c=3 => DELETE FROM t WHERE a = 1 OR b = 2 AND c = 3
DELETE FROM t WHERE (a=1 or b=2) and c=3 => DELETE FROM t WHERE ( a = 1 OR b = 2 ) AND c = 3
DELETE FROM t WHERE a=1 or (b=2 and c=3) => DELETE FROM t WHERE a = 1 OR b = 2 AND c = 3
DELETE FROM t WHERE (a=1 or b=2) or c=3 => DELETE FROM t WHERE ( a = 1 OR b = 2 ) OR c = 3
DELETE FROM t WHERE a=1 or b=2 or c=3 => DELETE FROM t WHERE a = 1 OR b = 2 OR c = 3
DELETE FROM t WHERE a=1 and (b=2 and c=3) => DELETE FROM t WHERE a = 1 AND ( b = 2 AND c = 3 )
DELETE FROM t WHERE (a=1) and ((b=2)) => DELETE FROM t WHERE a = 1 AND b = 2
DELETE FROM t WHERE not a=1 and b=2 => DELETE FROM t WHERE NOT a = 1 AND b = 2
DELETE FROM t WHERE not(a=1 and b=2) => DELETE FROM t WHERE NOT ( a = 1 AND b = 2 )
DELETE FROM t WHERE NOT NOT a = b
DELETE FROM t WHERE not(not(a=b)) => DELETE FROM t WHERE NOT NOT a = b
DELETE FROM t WHERE not (not a = 1 or b = 2) => DELETE FROM t WHERE NOT ( NOT a = 1 OR b = 2 )
DELETE FROM t WHERE a = 1 OR => syntax
DELETE FROM t WHERE OR a = 1 => syntax
DELETE FROM t WHERE a = 1 OR OR b = 1 => syntax
DELETE FROM t WHERE a = 1 AND => syntax
DELETE FROM t WHERE AND a = 1 => syntax
DELETE FROM t WHERE a = 1 AND AND b = 1 => syntax
DELETE FROM t WHERE NOT => syntax
DELETE FROM t WHERE a NOT = b => syntax
DELETE FROM t WHERE NOT NOT => syntax
DELETE FROM t WHERE NOT a => syntax
DELETE FROM t WHERE () => syntax
DELETE FROM t WHERE (a = 1 => syntax
DELETE FROM t WHERE a = 1) => syntax
DELETE FROM t WHERE a = 1, b = 2 => syntax
DELETE FROM t WHERE a = 1 XOR b = 2 => syntax";

const PREDICATES: &str = "\
DELETE FROM t WHERE a=b => DELETE FROM t WHERE a = b
DELETE FROM t WHERE a<>1 => DELETE FROM t WHERE a <> 1
DELETE FROM t WHERE a<b => DELETE FROM t WHERE a < b
DELETE FROM t WHERE a<=b => DELETE FROM t WHERE a <= b
DELETE FROM t WHERE a>b => DELETE FROM t WHERE a > b
DELETE FROM t WHERE a>=-1 => DELETE FROM t WHERE a >= - 1
DELETE FROM t WHERE 1='a' => DELETE FROM t WHERE 1 = 'a'
DELETE FROM t WHERE NULL = NULL
DELETE FROM t WHERE COUNT(*) > 1 => DELETE FROM t WHERE COUNT ( * ) > 1
DELETE FROM t WHERE a in (1,b,'c') => DELETE FROM t WHERE a IN ( 1 , b , 'c' )
DELETE FROM t WHERE a not in (NULL) => DELETE FROM t WHERE a NOT IN ( NULL )
DELETE FROM t WHERE not a in (1) => DELETE FROM t WHERE NOT a IN ( 1 )
DELETE FROM t WHERE x between 1 and 2 and y=3 => DELETE FROM t WHERE x BETWEEN 1 AND 2 AND y = 3
DELETE FROM t WHERE x not between a and b => DELETE FROM t WHERE x NOT BETWEEN a AND b
DELETE FROM t WHERE 5 BETWEEN a AND b OR a = 1
DELETE FROM t WHERE a like 'x%' => DELETE FROM t WHERE a LIKE 'x%'
DELETE FROM t WHERE a not like b => DELETE FROM t WHERE a NOT LIKE b
DELETE FROM t WHERE 'x' LIKE a
DELETE FROM t WHERE a is null => DELETE FROM t WHERE a IS NULL
DELETE FROM t WHERE t.a is not null => DELETE FROM t WHERE t . a IS NOT NULL
DELETE FROM t WHERE 5 IS NULL
DELETE FROM t WHERE a = b = c => syntax
DELETE FROM t WHERE (a) = b => syntax
DELETE FROM t WHERE a = (b) => syntax
DELETE FROM t WHERE a => syntax
DELETE FROM t WHERE a + 1 = b => syntax
DELETE FROM t WHERE a = b + 1 => syntax
DELETE FROM t WHERE a = => syntax
DELETE FROM t WHERE = a => syntax
DELETE FROM t WHERE a == b => syntax
DELETE FROM t WHERE a != b => syntax
DELETE FROM t WHERE a =< b => syntax
DELETE FROM t WHERE a < = b => syntax
DELETE FROM t WHERE a => b => syntax
DELETE FROM t WHERE a < > b => syntax
DELETE FROM t WHERE a IN () => syntax
DELETE FROM t WHERE a IN 1 => syntax
DELETE FROM t WHERE a IN (1,) => syntax
DELETE FROM t WHERE a IN (1 => syntax
DELETE FROM t WHERE a IN (1 + 1) => syntax
DELETE FROM t WHERE a IN (SELECT b FROM t) => syntax
DELETE FROM t WHERE IN (1) => syntax
DELETE FROM t WHERE a BETWEEN 1 => syntax
DELETE FROM t WHERE a BETWEEN 1 AND => syntax
DELETE FROM t WHERE a BETWEEN 1 OR 2 => syntax
DELETE FROM t WHERE a BETWEEN (1) AND 2 => syntax
DELETE FROM t WHERE a LIKE => syntax
DELETE FROM t WHERE LIKE 'x' => syntax
DELETE FROM t WHERE a LIKE NOT 'x' => syntax
DELETE FROM t WHERE a NOT 'x' => syntax
DELETE FROM t WHERE a IS => syntax
DELETE FROM t WHERE a IS 1 => syntax
DELETE FROM t WHERE a NOT NULL => syntax
DELETE FROM t WHERE a IS NOT => syntax
DELETE FROM t WHERE IS NULL => syntax
DELETE FROM t WHERE a NOT IS NULL => syntax
DELETE FROM t WHERE EXISTS (a) => syntax
DELETE FROM t WHERE a = 1 ESCAPE 'x' => syntax";

const NUMBERS: &str = "\
DELETE FROM t WHERE beds < -9223372036854775808 => DELETE FROM t WHERE beds < - 9223372036854775808
DELETE FROM t WHERE beds < -9223372036854775809 => outside
DELETE FROM t WHERE beds < 9223372036854775807
DELETE FROM t WHERE beds < 9223372036854775808 => outside
DELETE FROM t WHERE a IN (1, 99999999999999999999, 2) => outside
DELETE FROM t WHERE a = 1 OR NOT (b BETWEEN 0 AND 18446744073709551616) => outside
DELETE FROM t WHERE a = 9223372036854775808 AND => syntax
DELETE FROM t WHERE a = 9223372036854775808 = b => syntax
SELECT 9223372036854775808 FROM t => outside
SELECT a + 2 * (9223372036854775808 - 1) FROM t => outside
SELECT a FROM t JOIN u ON a = 9223372036854775808 => outside
SELECT a FROM t HAVING COUNT(*) = 9223372036854775808 => outside
SELECT a FROM t LIMIT 9223372036854775807
SELECT a FROM t LIMIT 9223372036854775808 => outside
SELECT a FROM t ORDER BY 9223372036854775808 => outside
SELECT a FROM t ORDER BY 9223372036854775808 LIMIT => syntax
INSERT INTO t VALUES (1), (9223372036854775808) => outside
INSERT INTO t VALUES (9223372036854775808 => syntax
INSERT INTO t VALUES (NULL, -99999999999999999999999999) => outside
UPDATE t SET a = 9223372036854775808, b = 1 => outside
UPDATE t SET a = 1 WHERE b = 9223372036854775808 => outside
PURGE t WHERE a = 9223372036854775808 => outside";

const OTHER_TEXTS: &str = "\
; => syntax
BEGIN => syntax
COMMIT => syntax
ROLLBACK => syntax
begin; => syntax
CREATE TABLE t (a INTEGER) => syntax
SHOW FOLD 1 t => syntax
EXPLAIN 1 SELECT a FROM t => syntax
SELECT => syntax
a => syntax
1 => syntax
'x' => syntax
SELECT a FROM t # => syntax
SELECT a FROM t -- x => syntax
SELECT a FROM t; SELECT a FROM t => syntax
VALUES (1) => syntax
SELECT ä FROM t => syntax
DROP TABLE t => syntax
SELECT\u{b}a FROM t => syntax";

const SHOWN: &str = "\
SELECT DISTINCT a AS x , COUNT ( * ) FROM t AS u JOIN v ON u . a = v . a WHERE a = 1 OR NOT ( b = 2 OR c = 3 ) GROUP BY a HAVING COUNT ( * ) > 1 ORDER BY x DESC , 2 LIMIT 7
INSERT INTO t ( a , b ) VALUES ( 1 , - 2 ) , ( NULL , 'it''s' )
UPDATE t SET a = ( a + 1 ) * 2 WHERE a IN ( 1 , 2 ) AND b NOT LIKE 'x%'
DELETE FROM t WHERE a NOT BETWEEN - 1 AND 1
SELECT aid FROM account WHERE NOT beds > 100
SELECT DISTINCT COUNT ( * ) AS n FROM a , b AS x JOIN c ON k = 1 GROUP BY x . g HAVING g <> - 1 ORDER BY n DESC , 2 LIMIT 5
SELECT * FROM t WHERE ( a <= 1 OR b >= 2 ) AND NOT ( c < 3 AND d = 4 )
UPDATE t SET a = ( a - b ) * c WHERE b NOT BETWEEN 1 AND 2
INSERT INTO t ( a , b ) VALUES ( NULL , - 9223372036854775808 ) , ( 'it''s' , 7 )
DELETE FROM t WHERE a IN ( 1 , NULL )
RESTORE t WHERE a NOT LIKE 'x%'
PURGE t WHERE MAX ( a ) IS NOT NULL";

const NAMES: &str = "\
DELETE FROM create
DELETE FROM TABLE => DELETE FROM table
DELETE FROM conv
DELETE FROM c1
DELETE FROM Quota => DELETE FROM quota
DELETE FROM step
DELETE FROM selects
DELETE FROM _and
PURGE a23456789_a23456789_a23456789_
PURGE a23456789_a23456789_a23456789_1 => syntax";

const RESERVED: &str = "\
and AS asc BEGIN between By commit COUNT date Delete desc DISTINCT from Group having IN inner
Insert integer INTO is Join key LIKE limit Max min NOT null On or ORDER primary Purge restore
ROLLBACK select Set sum UPDATE values Varchar where";

/// The rows of a table that are not read as they say, each with how it is read.
fn misread(alloc: Global, table: &str) -> Result<String, Fail> {
    let mut rows = String::new(alloc);
    for row in table.lines() {
        let (text, want) = row.rsplit_once(" => ").unwrap_or((row, row));
        let got = reading(alloc, text)?;
        if got.as_str() != want {
            writeln!(rows, "{text} => {}", got.as_str())?;
        }
    }
    Ok(rows)
}

#[test]
fn reads_and_shows(rt: HostRuntime) -> Result<(), Fail> {
    for table in [
        SELECTS,
        ITEMS,
        REFERENCES,
        KEYS,
        INSERTS,
        CHANGES,
        EXPRESSIONS,
        ATOMS,
        LOGIC,
        PREDICATES,
        NUMBERS,
        OTHER_TEXTS,
        SHOWN,
        NAMES,
        " => syntax",
        "  => syntax",
    ] {
        assert_eq!(rt; misread(rt.alloc(), table)?.as_str(), "");
    }
    Ok(())
}

/// The reserved words, in two cases.
#[test]
fn takes_no_reserved_word_as_a_name(rt: HostRuntime) -> Result<(), Fail> {
    for word in RESERVED.split_whitespace() {
        let text = format!(in rt.alloc(); "DELETE FROM {word}")?;
        assert_eq!(rt;
            reading(rt.alloc(), text.as_str())?.as_str(),
            "syntax",
            "of {word}"
        );
    }
    Ok(())
}
