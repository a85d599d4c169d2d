//! What binding refuses. Where two faults stand in a statement, the one of the lower number is reported, and of one number
//! the first in the text.

use crate::calls::{check_calls, check_tables};
use crate::small::Small;
use std::mem::drop;

const CREATES: &str = "\
CREATE TABLE t (id INT PRIMARY KEY, n INT, s TEXT, r TEXT, q INT NOT NULL) => ok
CREATE DATA_SUBJECT TABLE p (mail TEXT PRIMARY KEY, n INT) => ok
CREATE VIEW v AS SELECT n, s FROM t => ok
CREATE VIEW w AS SELECT n, SUM(q) AS total, COUNT(*) FROM t GROUP BY n => ok";

const SELECTS: &str = "\
-- no table
SELECT zz FROM x => refused table x
SELECT * FROM x JOIN y ON x.a = y.a => refused table x
SELECT * FROM t JOIN y ON t.n = y.a WHERE s = 1 => refused table y
SELECT * FROM v JOIN x ON v.n = x.a => refused table v
SELECT * FROM t JOIN v ON t.n = v.n => refused table v
SELECT * FROM t JOIN t ON t.n = t.q => refused table t
SELECT COUNT(*) FROM v => refused table v
SELECT SUM(s) FROM v => refused table v
SELECT n FROM v GROUP BY n => refused table v
-- no column, in the order items, ON, WHERE, GROUP BY, ORDER BY
SELECT a1, a2 FROM t => refused column a1
SELECT a1 FROM t WHERE a2 = 1 ORDER BY a3 => refused column a1
SELECT * FROM t WHERE a2 = 1 ORDER BY a3 => refused column a2
SELECT * FROM t ORDER BY a3 DESC => refused column a3
SELECT a0 FROM t JOIN p ON a1 = a2 WHERE a3 = 1 => refused column a0
SELECT * FROM t JOIN p ON a1 = a2 WHERE a3 = 1 => refused column a1
SELECT * FROM t JOIN p ON t.n = a2 WHERE a3 = 1 => refused column a2
SELECT * FROM t JOIN p ON t.n = p.n WHERE a3 = 1 ORDER BY a4 => refused column a3
SELECT * FROM t WHERE a1 = a2 => refused column a1
SELECT * FROM t WHERE n = a2 => refused column a2
SELECT * FROM t WHERE NOT (n = 1 OR a1 = 1) AND a2 IS NULL => refused column a1
SELECT * FROM t WHERE n = 1 AND a2 IS NOT NULL => refused column a2
SELECT p.n FROM t => refused column n
SELECT t.mail FROM t JOIN p ON t.n = p.n => refused column mail
SELECT s FROM v WHERE q = 1 => refused column q
SELECT total FROM w ORDER BY sum => refused column sum
-- a bare name of two tables
SELECT n FROM t JOIN p ON t.n = p.n => refused column n
SELECT s FROM t JOIN p ON n = p.n => refused column n
SELECT t.n, mail FROM t JOIN p ON p.n = q => rows 0
-- ON of one table names the second
SELECT * FROM t JOIN p ON t.n = q => refused column q
SELECT * FROM t JOIN p ON t.n = t.s => refused column s
SELECT * FROM t JOIN p ON mail = p.n => refused column n
-- grouped selects
SELECT s FROM t GROUP BY n => refused column s
SELECT s FROM t GROUP BY a2 ORDER BY a3 => refused column s
SELECT n, COUNT(*) FROM t => refused column n
SELECT SUM(a1) FROM t WHERE a2 = 1 GROUP BY a3 => refused column a1
SELECT COUNT(*) FROM t WHERE a2 = 1 GROUP BY a3 => refused column a2
SELECT COUNT(*) FROM t GROUP BY a3 ORDER BY a4 => refused column a3
SELECT n, COUNT(*) FROM t GROUP BY n ORDER BY s => refused column s
SELECT n AS m, COUNT(*) FROM t GROUP BY n ORDER BY n => refused column n
SELECT n AS m, COUNT(*) FROM t GROUP BY n ORDER BY p.m => refused column m
SELECT n AS m, COUNT(*) FROM t GROUP BY n ORDER BY t.m => rows 0
SELECT t.n, SUM(q) FROM t GROUP BY n ORDER BY sum => rows 0
-- kinds; the left column of a comparison is named
SELECT * FROM t WHERE s = 1 AND n = 'x' => refused kind s
SELECT * FROM t WHERE n = 'x' OR s = 1 => refused kind n
SELECT * FROM t WHERE n <> s => refused kind n
SELECT * FROM t WHERE NOT s >= n => refused kind s
SELECT * FROM t WHERE s = NULL AND n = NULL => rows 0
SELECT SUM(s) FROM t WHERE n = 'x' => refused kind s
SELECT SUM(q), SUM(r), SUM(s) FROM t => refused kind r
SELECT * FROM t JOIN p ON t.n = mail WHERE s = 1 => refused kind n
SELECT * FROM t JOIN p ON mail = t.n WHERE s = 1 => refused kind mail
SELECT * FROM w WHERE n = 1 AND total = 'x' => refused kind total
SELECT * FROM w WHERE total > n AND count < total => rows 0
-- a column that isn't there is reported before a kind
SELECT * FROM t WHERE s = 1 AND a2 = 1 => refused column a2
SELECT SUM(s) FROM t GROUP BY a2 => refused column a2
SELECT SUM(s), n FROM t ORDER BY a3 => refused column n
SELECT * FROM t JOIN p ON t.n = mail ORDER BY a3 => refused column a3";

const INSERTS: &str = "\
INSERT INTO x (n, n) VALUES (1) => refused table x
INSERT INTO v VALUES (1, 'a') => refused table v
-- columns
INSERT INTO t (a1, a2) VALUES (1, 2) => refused column a1
INSERT INTO t (id, a2, n) VALUES (1, 2, 'x') => refused column a2
INSERT INTO t (n, n, a3) VALUES (1, 2, 3) => refused column a3
INSERT INTO t (id, a2) VALUES (1) => refused column a2
INSERT INTO t (id, a2) VALUES (NULL, 1) => refused column a2
-- kinds, paired by position as far as both go
INSERT INTO t VALUES (1, 'x', 2, 'r', 3) => refused kind n
INSERT INTO t (s, n, id, q) VALUES (2, 'x', 1, 3) => refused kind s
INSERT INTO t VALUES (1, 2, 's', 'r', 3), (1, 2, 's', 4, 'x') => refused kind r
INSERT INTO t VALUES (1, 'x') => refused kind n
INSERT INTO t VALUES (1, 2, 's', 'r', 3, 'x', NULL) => refused count 7 5
INSERT INTO t (n, n) VALUES ('x', 1) => refused kind n
INSERT INTO t VALUES (NULL, 'x', 's', 'r', NULL) => refused kind n
INSERT INTO p VALUES (5, 'x') => refused kind mail
-- counts
INSERT INTO t VALUES (1), (1, 2) => refused count 1 5
INSERT INTO t (id, q) VALUES (1, 2), (1, 2, 3), (1) => refused count 3 2
INSERT INTO t (id, q, id, id) VALUES (1) => refused count 2 1
INSERT INTO t (id, q, id) VALUES (NULL, 1, 2) => refused count 2 1
INSERT INTO t VALUES (NULL, 1) => refused count 2 5
-- NULL, written or for a column that isn't named, which stands at the end of its tuple
INSERT INTO t VALUES (NULL, 1, 's', 'r', NULL) => refused null id
INSERT INTO t (q) VALUES (NULL) => refused null q
INSERT INTO t (n, s) VALUES (1, NULL) => refused null id
INSERT INTO t (id) VALUES (1), (NULL) => refused null q";

const UPDATES: &str = "\
UPDATE x SET n = 1, n = 2 WHERE s = 1 => refused table x
UPDATE v SET n = 'x' WHERE s = 1 => refused table v
-- columns
UPDATE t SET a1 = a2 => refused column a1
UPDATE t SET n = a2, a1 = 1 => refused column a2
UPDATE t SET n = a2 + 1 WHERE a3 = 1 => refused column a2
UPDATE t SET n = a2 - 1 WHERE a3 = 1 => refused column a2
UPDATE t SET n = 'x', a2 = 1 => refused column a2
UPDATE t SET n = 'x' WHERE a3 = 1 => refused column a3
UPDATE t SET n = 1, n = 2 WHERE a3 = 1 => refused column a3
UPDATE t SET id = 1, a2 = 2 => refused column a2
UPDATE t SET q = NULL, a2 = 1 => refused column a2
-- kinds
UPDATE t SET n = 'x', s = 1 => refused kind n
UPDATE t SET n = s, s = n => refused kind n
UPDATE t SET s = n + 1 => refused kind s
UPDATE t SET n = s - 1 => refused kind s
UPDATE t SET s = r + 1 => refused kind s
UPDATE t SET n = 1 WHERE s = 1 => refused kind s
UPDATE t SET n = 'x' WHERE s = 1 => refused kind n
UPDATE t SET n = 1, n = 'x' => refused kind n
UPDATE t SET n = 1, n = 2 WHERE s = 1 => refused kind s
UPDATE t SET id = 'x' => refused kind id
UPDATE t SET id = 1, n = 'x' => refused kind n
UPDATE t SET q = NULL, n = 'x' => refused kind n
-- counts
UPDATE t SET n = 1, n = 2 => refused count 2 1
UPDATE t SET n = 1, s = 's', n = 2, n = 3 => refused count 2 1
UPDATE t SET id = 1, id = 2 => refused count 2 1
UPDATE t SET q = NULL, q = 1 => refused count 2 1
-- the primary key
UPDATE t SET id = 2 => refused key id
UPDATE t SET id = NULL => refused key id
UPDATE t SET q = NULL, id = 2 => refused key id
UPDATE p SET n = 1, mail = mail => refused key mail
-- NULL
UPDATE t SET n = NULL, q = NULL => refused null q
UPDATE t SET n = NULL, s = NULL, q = n => ok
-- DELETE
DELETE FROM x WHERE n = 1 => refused table x
DELETE FROM v WHERE s = 1 => refused table v";

const OTHERS: &str = "\
DELETE FROM t WHERE s = 1 OR a2 = 1 OR a3 = 1 => refused column a2
DELETE FROM t WHERE p.n = 1 => refused column n
DELETE FROM t WHERE s = 1 OR n = 'x' => refused kind s
DELETE FROM t WHERE t.s = 'x' AND n = 1 => ok
-- GDPR calls
GDPR GET x 1 => refused table x
GDPR FORGET v 1 => refused table v
GDPR GET p 1 => refused kind mail
GDPR FORGET p 1 => refused kind mail
GDPR GET t 'x' => refused kind id
GDPR GET t 1 => refused subject t
GDPR FORGET t 1 => refused subject t
GDPR GET p 'x' => ok
GDPR FORGET p 'x' => ok";

const VIEWS: &str = "\
-- a view reads no view
CREATE VIEW x AS SELECT n FROM y => refused table y
CREATE VIEW x AS SELECT n FROM v => refused table v
CREATE VIEW x AS SELECT zz FROM v => refused table v
CREATE VIEW x AS SELECT n FROM v WHERE s = 1 => refused table v
CREATE VIEW t AS SELECT n FROM v => refused table v
CREATE VIEW x AS SELECT n, n FROM v => refused table v
-- its select
CREATE VIEW x AS SELECT SUM(s), zz FROM t => refused column zz
CREATE VIEW t AS SELECT n FROM t WHERE a2 = 1 => refused column a2
CREATE VIEW x AS SELECT n, n, zz FROM t => refused column zz
CREATE VIEW v AS SELECT n FROM t WHERE s = 1 => refused kind s
CREATE VIEW x AS SELECT n, n FROM t WHERE s = 1 => refused kind s
-- its name, which no table and no view has
CREATE VIEW t AS SELECT n FROM t => refused taken t
CREATE VIEW v AS SELECT n FROM t => refused taken v
CREATE VIEW p AS SELECT n, n FROM t => refused taken p
-- its columns: the first that repeats a name
CREATE VIEW x AS SELECT n, s, s, n FROM t => refused schema 15 s
CREATE VIEW x AS SELECT n AS a, q AS a FROM t => refused schema 15 a
CREATE VIEW x AS SELECT q, n AS q FROM t => refused schema 15 q
CREATE VIEW x AS SELECT * FROM t JOIN p ON t.q = p.n => refused schema 15 n
CREATE VIEW x AS SELECT COUNT(*), COUNT(*) FROM t => refused schema 15 count
CREATE VIEW x AS SELECT n, n AS sum, SUM(q) FROM t GROUP BY n => refused schema 15 sum
CREATE VIEW x AS SELECT t.n, p.n AS m FROM t JOIN p ON t.q = p.n => ok
SELECT m, n FROM x WHERE x.m = 1 => rows 0
SELECT p FROM x => refused column p
CREATE VIEW y AS SELECT m FROM x => refused table x
CREATE VIEW x AS SELECT n FROM t => refused taken x
CREATE VIEW x AS SELECT n FROM v => refused table v";

/// Where there are as many views as there may be.
const FULL: &str = "\
CREATE VIEW x AS SELECT n FROM t => refused limit views 32
CREATE VIEW x AS SELECT n FROM y => refused table y
CREATE VIEW x AS SELECT zz FROM t => refused column zz
CREATE VIEW x AS SELECT SUM(s) FROM t => refused kind s
CREATE VIEW t AS SELECT n FROM t => refused taken t
CREATE VIEW a0 AS SELECT n FROM t => refused taken a0
CREATE VIEW x AS SELECT n, n FROM t => refused schema 15 n";

/// One table.
const TABLE: &str =
    "CREATE TABLE t (id INT PRIMARY KEY, n INT, s TEXT, r TEXT, q INT NOT NULL) => ok";

#[test]
fn the_first_fault_of_the_lowest_number_is_reported(rt: HostRuntime) {
    check_tables(&rt, &[CREATES, SELECTS, INSERTS, UPDATES, OTHERS, VIEWS]);
}

#[test]
fn views_are_few(rt: HostRuntime) {
    let mut small = Small::new(rt.alloc());
    check_calls(&rt, &mut small, TABLE);
    for number in 0..32 {
        let line = format!(in rt.alloc(); "CREATE VIEW a{number} AS SELECT n FROM t => ok").expect(
            &rt, "memory",
        );
        check_calls(&rt, &mut small, line.as_str());
    }
    check_calls(&rt, &mut small, FULL);
    drop(small);
}
