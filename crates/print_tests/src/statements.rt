//! Statements that were read, and their canonical texts.

ghost use Rattle.std.specs.Prelude.{◌<◌, ◌^◌, length};

use own_base::Text;
use sql_print::print_statement;
use sql_reader::read_statement;
use std::alloc::{AllocError, Global};
use std::mem::drop;

/// Texts, and the canonical text of the statement that each is.
const TEXTS: [(&str, &str); 17] = [
    (
        "delete from T where not (a=1 or b != 'x') and c is null",
        "DELETE FROM t WHERE NOT ( a = 1 OR b <> 'x' ) AND c IS NULL",
    ),
    (
        "select COUNT(*), sum ( a.b ) as s, c from a WHERE x = -0 AND (y = 007 AND z = - 5) order by c asc",
        "SELECT COUNT ( * ) , SUM ( a . b ) AS s , c FROM a WHERE x = 0 AND ( y = 7 AND z = -5 ) ORDER BY c",
    ),
    (
        "Select * From t Inner Join U on t.a=U.b where (a<1 or b<=2) or (c>3 and d>=4) order by t.c desc",
        "SELECT * FROM t JOIN u ON t . a = u . b WHERE ( a < 1 OR b <= 2 ) OR c > 3 AND d >= 4 ORDER BY t . c DESC",
    ),
    (
        "select a, count ( * ) from t where a = b group by t.a order by a",
        "SELECT a , COUNT ( * ) FROM t WHERE a = b GROUP BY t . a ORDER BY a",
    ),
    (
        "select a from t where not not (a = b) and ((not (a = 1 and b is not null)))",
        "SELECT a FROM t WHERE NOT NOT a = b AND NOT ( a = 1 AND b IS NOT NULL )",
    ),
    ("CTX START", "BEGIN"),
    ("ctx commit -- the end", "COMMIT"),
    ("Rollback", "ROLLBACK"),
    ("checkpoint", "CHECKPOINT"),
    ("explain\tcompliance", "EXPLAIN COMPLIANCE"),
    ("gdpr get acc 'it''s'", "GDPR GET acc 'it''s'"),
    ("GDPR FORGET acc - 7", "GDPR FORGET acc -7"),
    (
        "create data_subject table T (A int primary key, b text not null unique references only u (c), \
         c int owned_by v(d) accesses w(e), unique(b), primary key (a), \
         foreign key (b) owns x (f), on get b anon (a, c), on del c anon(b), on del b delete_row)",
        "CREATE DATA_SUBJECT TABLE t ( a INT PRIMARY KEY , b TEXT NOT NULL UNIQUE REFERENCES u ( c ) , \
         c INT OWNED_BY v ( d ) ACCESSES w ( e ) , UNIQUE ( b ) , PRIMARY KEY ( a ) , \
         FOREIGN KEY ( b ) OWNS x ( f ) , ON GET b ANON ( a , c ) , ON DEL c ANON ( b ) , ON DEL b DELETE_ROW )",
    ),
    (
        "create table t (a int accessed_by u(b))",
        "CREATE TABLE t ( a INT ACCESSED_BY u ( b ) )",
    ),
    (
        "create view v as select t.a as b from t where a = ''",
        "CREATE VIEW v AS SELECT t . a AS b FROM t WHERE a = ''",
    ),
    (
        "UPDATE t SET n = n - -5, t = 'it''s', m = k, o = o+1 where n=null",
        "UPDATE t SET n = n - -5 , t = 'it''s' , m = k , o = o + 1 WHERE n = NULL",
    ),
    (
        "insert into t (a,b) values (1,null), (-9223372036854775808, 'a \\ ''''')",
        "INSERT INTO t ( a , b ) VALUES ( 1 , NULL ) , ( -9223372036854775808 , 'a \\ ''''' )",
    ),
];

/// The canonical text of the statement that a text is, if it is one.
fn canonical(alloc: Global, text: &str) -> Result<Option<Text>, AllocError>
    requires { length text.now < 2 ^ 32 }
{
    match read_statement(alloc, text) {
        Ok(statement) => {
            let printed = print_statement(alloc, &statement);
            drop(statement);
            Ok(Some(printed?))
        }
        Err(_) => Ok(None),
    }
}

/// What is printed of a text is wanted, or `none` where it is no statement.
fn printed(alloc: Global, text: &str) -> Result<Text, AllocError>
    requires { length text.now < 2 ^ 32 }
{
    match canonical(alloc, text)? {
        Some(printed) => Ok(printed),
        None => Text::from_str(alloc, "none"),
    }
}

#[test]
fn statements_have_canonical_texts(rt: HostRuntime) {
    let alloc = rt.alloc();
    for (text, wanted) in TEXTS {
        assert!(rt; text.len() < 1000 && wanted.len() < 1000);
        assert_eq!(rt; printed(alloc, text).expect(&rt, "memory").as_str(), wanted);
        assert_eq!(rt;
            printed(alloc, wanted).expect(&rt, "memory").as_str(),
            wanted
        );
    }
}
