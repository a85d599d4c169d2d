//! Keywords are no names, and COUNT and SUM are names where no `(` follows in an item.

use crate::check::check_rows;
use std::process::Abort;

/// The keywords.
pub const KEYWORDS: &str =
    "ACCESSED_BY ACCESSES AND ANON AS ASC BEGIN BY CHECKPOINT COMMIT COMPLIANCE CREATE CTX \
     DATA_SUBJECT DEL DELETE DELETE_ROW DESC EXPLAIN FOREIGN FORGET FROM GDPR GET GROUP INNER INSERT INT INTO IS JOIN \
     KEY NOT NULL ON ONLY OR ORDER OWNED_BY OWNS PRIMARY REFERENCES ROLLBACK SELECT SET START TABLE TEXT TRANSACTION \
     UNIQUE UPDATE VALUES VIEW WHERE";

/// COUNT and SUM. A `^` in a row is the place of its fault; a row without `^` is read.
const COUNT_AND_SUM: [&str; 42] = [
    "select count from sum",
    "select count, sum from t",
    "select count.sum, sum.count as count, t.sum as sum from count",
    "select count from t join sum on count = sum where count = sum and sum.count < count.sum order by count.sum desc",
    "select COUNT(*), Sum(count), sum as count from count group by sum order by count",
    "select sum(sum.sum) as sum, count as sum from sum",
    "select count\t(*) from t",
    "select sum--(\n(a) from t",
    "select count(^a) from t",
    "select count(^) from t",
    "select count(*^, a) from t",
    "select count(*^",
    "select count(*)^.a from t",
    "select count(*) ^b from t",
    "select count(^t.a) from t",
    "select sum(^*) from t",
    "select sum(^) from t",
    "select sum(^1) from t",
    "select sum(a^, b) from t",
    "select sum(count^(*)) from t",
    "select sum(a^",
    "select sum(t.^*) from t",
    "select a as count^(*) from t",
    "select t.count^(*) from t",
    "select t.sum^(a) from t",
    "select counts^(*) from t",
    "select count(*), ^* from t",
    "select a, count(*) from t ^inner join u on a = b",
    "select sum(a) from t where a = 1 ^join u on a = b",
    "select * from t where count^(*) = 1",
    "select * from t where a = sum^(a)",
    "select a from t group by count^(*)",
    "select a from t order by sum^(a)",
    "create table count (sum int, count text, primary key (sum), foreign key (count) owns sum (count))",
    "create table sum (count int references count(sum), on get count anon (sum))",
    "create view sum as select count from count",
    "create view count as select count(*) from sum group by count",
    "insert into count(sum, count) values (1, 2)",
    "update sum set count = sum + 1, sum = count where sum = count",
    "update t set a = sum^(b)",
    "delete from count where sum is null",
    "gdpr get sum 5",
];

/// A keyword is no name, and a name may begin or end with one.
fn check_keyword(rt: &(impl Abort + AllocGlobal), keyword: &str) {
    let alone = format!(in rt.alloc(); "delete from ^{keyword}").expect(rt, "memory");
    let first = format!(in rt.alloc(); "delete from {keyword}_").expect(rt, "memory");
    let last = format!(in rt.alloc(); "delete from x{keyword}").expect(rt, "memory");
    check_rows(rt, &[alone.as_str(), first.as_str(), last.as_str()]);
}

#[test]
fn keywords_count_and_sum(rt: HostRuntime) {
    for word in KEYWORDS.split(' ') {
        check_keyword(&rt, word);
        let lower = word.to_ascii_lowercase(rt.alloc()).expect(&rt, "memory");
        check_keyword(&rt, lower.as_str());
    }
    check_rows(&rt, &COUNT_AND_SUM);
}
