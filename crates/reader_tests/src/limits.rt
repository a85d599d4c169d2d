//! The reader's limits, and which fault stands where two meet: the first in the text; at one byte Syntax before a
//! limit, and Items before Name. In a row `{64 a}` represents 64 times `a`, and a `^` is the place of a fault of
//! syntax.

use crate::check::{check_limit, check_rows};
use own_model::LimitName;
use std::process::Abort;

/// Conditions of at most 64 levels, and faults in front of level 65 or in place of it.
const NOT_NESTED: [&str; 17] = [
    "delete from t where {64 (}a = 1{64 )}",
    "delete from t where {64 not }a = 1",
    "delete from t where {32 not (}a = 1{32 )}",
    "delete from t where {32 (not }a = 1{32 )}",
    "delete from t where {64 (}a is not null{64 )}",
    "delete from t where {64 (}a = 1{64 )} and {64 (}a = 1{64 )} or {64 not }b = 2",
    "delete from t where {99 (a = 1) and }{99 not b = 2 or }c = 3",
    "delete from t where {64 (}a = 1{99  or b = 2 and c = 3}{64 )}",
    "delete from t where {64 (}a = 1^",
    "delete from t where {64 (}a = 1{63 )}^",
    "delete from t where {64 (}a = 1{64 )}^)",
    "delete from t where {64 (}^*{64 )}",
    "delete from t where {64 (}^1",
    "delete from t where {64 (}a ^(a = 1",
    "delete from t where {64 (}a = ^(b)",
    "delete from t where ^;{65 (}a = 1{65 )}",
    "delete ^t where {65 (}a = 1{65 )}",
];

const NESTED: [&str; 15] = [
    "delete from t where {65 (}a = 1{65 )}",
    "delete from t where {65 not }a = 1",
    "delete from t where {32 not (}not a = 1{32 )}",
    "delete from t where {32 not (}(a = 1){32 )}",
    "delete from t where {32 (not }(a = 1){32 )}",
    "delete from t where not {32 not (}a = 1{32 )}",
    "delete from t where ({32 not (}a = 1{33 )}",
    "delete from t where {64 (}a = 1 and (b = 2){64 )}",
    "delete from t where {64 (}a = 1{64 )} or {65 (}a = 1{65 )}",
    "delete from t where {65 (}",
    "delete from t where {64 (}not",
    "delete from t where {65 (};",
    "update t set a = 1 where {65 (}a = 1{65 )}",
    "select * from t where {65 (}a = 1{65 )}",
    "create view v as select count(*) from t where {64 not }(a = 1)",
];

/// Selects of at most 64 items, faults in place of item 65, and longer lists of what isn't an item.
const FEW_ITEMS: [&str; 18] = [
    "select a{63 ,a} from t",
    "select count(*){63 ,sum(t.a) as b} from t",
    "create view v as select a{63 ,a} from t",
    "select a{63 ,a}, ^from t",
    "select a{63 ,a},^* from t",
    "select a{63 ,a},^7 from t",
    "select a{63 ,a},^(a) from t",
    "select a{63 ,a},^",
    "select a{63 ,a},^'{4097 a}' from t",
    "select a{63 ,a}.b^.c from t",
    "select a{62 ,a},^;{9 ,a} from t",
    "insert into t values (1{99 ,1})",
    "insert into t values (1){99 ,(1)}",
    "insert into t (a{99 ,a}) values (1)",
    "update t set a = 1{99 ,a = 1}",
    "create table t (a int{99 ,a int})",
    "create table t (on get a anon (a{99 ,a}), a int{99  unique})",
    "delete from t where a = 1{99  and a = 1}{99  or a = 1}",
];

const MANY_ITEMS: [&str; 9] = [
    "select a{64 ,a} from t",
    "select a{64 ,a}",
    "select count(*){63 ,sum(a)},count(*) from t",
    "select a{63 ,a},sum;",
    "select a{63 ,t.a as b},t.a as b from t",
    "create view v as select a{64 ,a} from t",
    // Item 65 has a name that is too long: Items comes before Name.
    "select a{63 ,a},{65 b} from t",
    "select a{64 ,a},{65 b} from t",
    "select a{64 ,a} from {65 b}",
];

/// Texts of at most 4,096 bytes, and faults in front of a longer one or in place of it.
const SHORT_TEXTS: [&str; 14] = [
    "gdpr get t '{4096 a}'",
    "gdpr get t '{4096 ''}'",
    "gdpr get t '{2048 ''a}'",
    "gdpr get t '{2048 \u{e9}}'",
    "insert into t values ('{4096 a}', '{4096 b}')",
    "update t set a = '{4096 ''}' where b = '{4095 b}'''",
    "select ^'{4097 a}'",
    "gdpr ^'{4097 a}'",
    "gdpr get ^'{4097 a}' 5",
    "update t set a = b + ^'{4097 a}'",
    "delete from t where a is ^'{4097 ''}'",
    "gdpr get t ^'{4097 a}",
    "gdpr get t ^'{4097 ''}",
    "gdpr ^grab t '{4097 a}'",
];

const LONG_TEXTS: [&str; 12] = [
    "gdpr get t '{4097 a}'",
    "gdpr get t '{4097 ''}'",
    "gdpr get t '{2048 ''a}a'",
    "gdpr get t '{2048 ''a}'''",
    "gdpr get t '{2048 \u{e9}}a'",
    "insert into t values ('{4097 a}')",
    "insert into t values (1), ('{4096 a}', '{4097 a}'",
    "update t set a = '{4097 a}'",
    "delete from t where a = '{4097 a}'",
    "delete from t where a = '{4097 a}' and {65 (}",
    "gdpr forget t '{4097 a}' 5",
    "gdpr forget t '{4097 a}' 'open",
];

/// Where a name stands: `N`.
const NAMES: [&str; 36] = [
    "create table N (a int)",
    "create table t (N int)",
    "create table t (a text unique references N (b))",
    "create table t (a text owned_by u (N))",
    "create table t (primary key (N))",
    "create table t (unique (N))",
    "create table t (foreign key (N) owns u (b))",
    "create table t (foreign key (a) accesses N (b))",
    "create table t (foreign key (a) references only u (N))",
    "create table t (on get N anon (b))",
    "create table t (on get a anon (N))",
    "create table t (on del N delete_row)",
    "create table t (on del a anon (b, N))",
    "create view N as select * from t",
    "select N from t",
    "select a, N.b from t",
    "select t.N from t",
    "select a as N from t",
    "select sum(N) from t",
    "select sum(t.N) from t",
    "select count(*) as N from t",
    "select * from N",
    "select * from t join N on a = b",
    "select * from t join u on N = u.b",
    "select * from t join u on t.a = u.N",
    "select a from t group by N",
    "select a from t order by t.N",
    "insert into N values (1)",
    "insert into t (a, N) values (1, 2)",
    "update N set a = 1",
    "update t set N = 1",
    "update t set a = N",
    "update t set a = N + 1",
    "delete from t where N = 1",
    "delete from t where a < N or t.N is null",
    "gdpr forget N 5",
];

/// Names of more than 64 bytes where none may stand, or after another fault.
const MISPLACED_NAMES: [&str; 16] = [
    "^{65 a}",
    "^{65 a} from t",
    "delete ^{65 a}",
    "delete from t ^{65 a}",
    "select * ^{65 a}",
    "select * from t ^{65 a}",
    "select * from t order by a ^{65 a}",
    "select count(^{65 a}) from t",
    "create table t (a ^{65 a})",
    "create table t (a int ^{65 a})",
    "insert into t values (^{65 a})",
    "update t set a = b + ^{65 a}",
    "delete from t where a is ^{65 a}",
    "gdpr get t ^{65 a}",
    "begin ^{65 a}",
    "delete from t where ^; and {65 a} = 1",
];

const LONG_NAMES: [&str; 7] = [
    "delete from {65 a};",
    "delete from {65 A} where {65 (}",
    "select {65 a}{99 ,a} from t",
    "select a{62 ,a},{65 b},c from t",
    "select {65 a}, 'open",
    "delete from t where {64 (}{65 a}",
    "delete from a{64 _0}",
];

/// Texts of more than 65,536 bytes: the limit on a call is none of the reader's.
const LONG_CALLS: [&str; 4] = [
    "delete from t{65513  }where a = 1",
    "delete from t{65524  }^;",
    "delete from t --{65522 -}",
    "delete from --{65523 -}^",
];

fn check_names(rt: &(impl Abort + AllocGlobal)) {
    for row in NAMES {
        let short = row.replace(rt.alloc(), 'N', "{63 A}_").expect(rt, "memory");
        check_rows(rt, &[short.as_str()]);
        let long = row.replace(rt.alloc(), 'N', "{64 A}_").expect(rt, "memory");
        check_limit(rt, &[long.as_str()], LimitName::Name);
    }
}

#[test]
fn limits(rt: HostRuntime) {
    check_rows(&rt, &NOT_NESTED);
    check_limit(&rt, &NESTED, LimitName::Nesting);
    check_rows(&rt, &FEW_ITEMS);
    check_limit(&rt, &MANY_ITEMS, LimitName::Items);
    check_rows(&rt, &SHORT_TEXTS);
    check_limit(&rt, &LONG_TEXTS, LimitName::Text);
    check_names(&rt);
    check_rows(&rt, &MISPLACED_NAMES);
    check_limit(&rt, &LONG_NAMES, LimitName::Name);
    check_rows(&rt, &LONG_CALLS);
}
