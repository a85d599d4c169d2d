//! Selects over small stores. The rows of each were worked out by hand.

use crate::calls::check_tables;

const JOINS: &str = "\
CREATE TABLE a (id INT PRIMARY KEY, k INT) => ok
CREATE TABLE b (id INT PRIMARY KEY, k INT) => ok
INSERT INTO a VALUES (1, 1), (2, NULL), (3, 1) => ok 3
INSERT INTO b VALUES (7, 1), (8, NULL) => ok 2
SELECT a.id, b.id FROM a JOIN b ON b.k = a.k ORDER BY a.id DESC => rows 2 / 3|7 / 1|7
SELECT id FROM a JOIN b ON a.k = b.k => refused column id
SELECT k, SUM(id) FROM a GROUP BY k => rows 2 / NULL|2 / 1|4
-- by left key, then right key
SELECT a.id, b.id FROM b JOIN a ON a.k = b.k => rows 2 / 1|7 / 3|7
-- by the right table's primary key, and by the left one's
SELECT * FROM b JOIN a ON a.id = b.k => rows 1 / 7|1|1|1
SELECT * FROM a JOIN b ON a.id = b.k => rows 1 / 1|1|7|1
SELECT * FROM a JOIN b ON a.k = b.id => rows 0
SELECT b.k, a.id FROM a JOIN b ON a.k = b.k WHERE b.id = 7 AND a.id > 1 => rows 1 / 1|3";

const ROWS: &str = "\
CREATE TABLE q (id INT PRIMARY KEY, t TEXT) => ok
INSERT INTO q VALUES (1, 'a'), (2, NULL), (3, 'b') => ok 3
SELECT id FROM q WHERE NOT t = 'a' => rows 1 / 3
SELECT id FROM q WHERE t IS NULL OR t = 'a' ORDER BY t DESC => rows 2 / 1 / 2
SELECT COUNT(*), SUM(id) FROM q WHERE id > 9 => rows 1 / 0|NULL
SELECT t FROM q WHERE id > 9 GROUP BY t => rows 0
SELECT t, id FROM q WHERE id = 3 AND t <> 'a' => rows 1 / 'b'|3
SELECT t FROM q WHERE id = 3 AND t IS NULL => rows 0
SELECT t FROM q WHERE id = 4 => rows 0
CREATE TABLE c (id TEXT PRIMARY KEY, g TEXT, n INT) => ok
INSERT INTO c VALUES ('A', 'x', 5), ('Z', NULL, NULL), ('a', 'x', 9223372036854775807), ('b', 'y', NULL), ('\u{e9}', NULL, -5) => ok 5
-- values that are alike stay as they stood, with DESC too
SELECT id FROM c ORDER BY g DESC => rows 5 / 'b' / 'A' / 'a' / 'Z' / '\u{e9}'
SELECT id FROM c ORDER BY n => rows 5 / 'Z' / 'b' / '\u{e9}' / 'A' / 'a'
SELECT n FROM c WHERE id = 'a' => rows 1 / 9223372036854775807
SELECT g, COUNT(*), SUM(n) FROM c GROUP BY g => rows 3 / NULL|2|-5 / 'x'|2|9223372036854775812 / 'y'|1|NULL
SELECT SUM(n), g FROM c GROUP BY g ORDER BY sum => rows 3 / NULL|'y' / -5|NULL / 9223372036854775812|'x'
SELECT COUNT(*), g FROM c GROUP BY g ORDER BY count DESC => rows 3 / 2|NULL / 2|'x' / 1|'y'
SELECT COUNT(*) AS n, g FROM c WHERE n > 0 GROUP BY g => rows 1 / 2|'x'
CREATE VIEW s AS SELECT g, SUM(n) AS total FROM c GROUP BY g => ok
SELECT g AS h FROM s WHERE total < 0 OR total IS NULL ORDER BY g DESC => rows 2 / 'y' / NULL";

/// Three tables, and two views of them.
const CREATES: &str = "\
CREATE DATA_SUBJECT TABLE users (id INT PRIMARY KEY, name TEXT NOT NULL, mail TEXT UNIQUE) => ok
CREATE TABLE posts (id INT PRIMARY KEY, author INT OWNED_BY users(id), circle INT, body TEXT) => ok
CREATE TABLE comments (id INT PRIMARY KEY, post INT ACCESSED_BY posts(id), author INT OWNED_BY users(id), body TEXT) => ok
CREATE VIEW per_post AS SELECT post, COUNT(*) FROM comments GROUP BY post => ok
CREATE VIEW shown AS SELECT posts.id, users.name FROM posts JOIN users ON posts.author = users.id => ok";

/// Their rows before a FORGET of user 1, and what is left after it: its post is gone, and comments name none.
const BEFORE: &str = "\
INSERT INTO users VALUES (1, 'Ada', 'a@x'), (2, 'Ben', 'b@x'), (3, 'Cy', NULL) => ok 3
INSERT INTO posts VALUES (1, 1, 1, 'first') => ok 1
INSERT INTO comments VALUES (1, 1, 2, 'nice'), (2, 1, 3, 'late') => ok 2
SELECT * FROM per_post => rows 1 / 1|2
SELECT * FROM shown => rows 1 / 1|'Ada'";

const AFTER: &str = "\
INSERT INTO users VALUES (2, 'Ben', 'b@x'), (3, 'Cy', NULL) => ok 2
INSERT INTO comments VALUES (1, NULL, 2, 'nice'), (2, NULL, 3, 'late') => ok 2
SELECT * FROM per_post => rows 1 / NULL|2
SELECT * FROM shown => rows 0";

#[test]
fn joins_give_rows(rt: HostRuntime) {
    check_tables(&rt, &[JOINS]);
}

#[test]
fn selects_give_rows(rt: HostRuntime) {
    check_tables(&rt, &[ROWS]);
}

#[test]
fn views_show_what_is_there(rt: HostRuntime) {
    check_tables(&rt, &[CREATES, BEFORE]);
}

#[test]
fn views_show_what_is_left(rt: HostRuntime) {
    check_tables(&rt, &[CREATES, AFTER]);
}
