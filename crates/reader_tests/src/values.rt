//! What is read, as its derived text.

ghost use Rattle.std.specs.Prelude.{◌<◌, ◌^◌, length};

use crate::check::{Answer, answer_of};
use own_base::MakeCopy;
use own_model::Statement;
use sql_reader::read_statement;
use std::mem::drop;
use std::process::Abort;

/// Texts, and what is read of them: `<t>` is the name `t`, `«a»` the column `a` without a table, and brackets hold a
/// list (`written_out`).
const CREATES: [(&str, &str); 4] = [
    (
        "Create Data_Subject Table T (A Int Primary Key, b text not null unique references only u (c))",
        "CreateTable(CreateTable { name: <t>, subject: true, parts: [Column(ColumnDef { name: <a>, kind: Int, \
         attrs: [Key] }), Column(ColumnDef { name: <b>, kind: Text, attrs: [NotNull, Unique, \
         Refers(RefDef { kind: Plain, table: <u>, column: <c> })] })] })",
    ),
    (
        "create table t (a int owned_by u (b) owns v (c) accessed_by w (d), foreign key (a) accesses x (e))",
        "CreateTable(CreateTable { name: <t>, subject: false, parts: [Column(ColumnDef { name: <a>, kind: Int, \
         attrs: [Refers(RefDef { kind: OwnedBy, table: <u>, column: <b> }), \
         Refers(RefDef { kind: Owns, table: <v>, column: <c> }), \
         Refers(RefDef { kind: AccessedBy, table: <w>, column: <d> })] }), \
         Foreign(<a>, RefDef { kind: Accesses, table: <x>, column: <e> })] })",
    ),
    (
        "create table t (a int, primary key (b), unique (c), on get d anon (e, f), on del g anon (h), \
         on del i delete_row)",
        "CreateTable(CreateTable { name: <t>, subject: false, parts: [Column(ColumnDef { name: <a>, kind: Int, \
         attrs: [] }), Key(<b>), Unique(<c>), Get(<d>, [<e>, <f>]), Del(<g>, [<h>]), DelRow(<i>)] })",
    ),
    (
        "create view v as select a from t where b is null group by t.a",
        "CreateView(CreateView { name: <v>, select: Select { items: Listed([Item { what: Column(«a»), alias: None }]), \
         from: <t>, join: None, cond: Some(IsNull(«b», false)), group: Some(ColRef { table: Some(<t>), column: <a> }), \
         order: None } })",
    ),
];

const SELECTS: [(&str, &str); 3] = [
    (
        "select * from t",
        "Select(Select { items: Star, from: <t>, join: None, cond: None, group: None, order: None })",
    ),
    (
        "select a as b, T.C from t inner join u on t.d = e where f = 1 order by u.g desc",
        "Select(Select { items: Listed([Item { what: Column(«a»), alias: Some(<b>) }, \
         Item { what: Column(ColRef { table: Some(<t>), column: <c> }), alias: None }]), from: <t>, \
         join: Some(Join { table: <u>, left: ColRef { table: Some(<t>), column: <d> }, right: «e» }), \
         cond: Some(Compare(«f», Eq, Literal(Int(1)))), group: None, \
         order: Some(Order { column: ColRef { table: Some(<u>), column: <g> }, down: true }) })",
    ),
    (
        "select count(*) as n, sum(t.a), count, sum as count from t where a <> 'x' group by b order by n asc",
        "Select(Select { items: Listed([Item { what: Count, alias: Some(<n>) }, \
         Item { what: SumOf(ColRef { table: Some(<t>), column: <a> }), alias: None }, \
         Item { what: Column(«count»), alias: None }, Item { what: Column(«sum»), alias: Some(<count>) }]), \
         from: <t>, join: None, cond: Some(Compare(«a», Ne, Literal(Text(Text { text: \"x\" })))), \
         group: Some(«b»), order: Some(Order { column: «n», down: false }) })",
    ),
];

const WRITES: [(&str, &str); 3] = [
    (
        "insert into T (A, b) values (1, null), (-2, 'it''s'), (007, '')",
        "Insert { table: <t>, columns: Some([<a>, <b>]), rows: [[Int(1), Null], \
         [Int(-2), Text(Text { text: \"it's\" })], [Int(7), Text(Text { text: \"\" })]] }",
    ),
    (
        "insert into t values (-9223372036854775808, - 0)",
        "Insert { table: <t>, columns: None, rows: [[Int(-9223372036854775808), Int(0)]] }",
    ),
    (
        "update t set a = null, b = c, d = e + 1, f = g - -2, h = -0 where a < b",
        "Update { table: <t>, sets: [(<a>, Literal(Null)), (<b>, Column(<c>)), (<d>, Plus(<e>, 1)), \
         (<f>, Minus(<g>, -2)), (<h>, Literal(Int(0)))], cond: Some(Compare(«a», Lt, Column(«b»))) }",
    ),
];

const CONDITIONS: [(&str, &str); 6] = [
    ("delete from t", "Delete { table: <t>, cond: None }"),
    (
        "delete from t where a = 1 or b <= 2 and not c > d or e is null",
        "Delete { table: <t>, cond: Some(Some1([Compare(«a», Eq, Literal(Int(1))), \
         Every([Compare(«b», Le, Literal(Int(2))), Not(Compare(«c», Gt, Column(«d»)))]), \
         IsNull(«e», false)])) }",
    ),
    (
        "delete from t where (a = 1 or b != 2) and (c >= 3 and d is not null)",
        "Delete { table: <t>, cond: Some(Every([Some1([Compare(«a», Eq, Literal(Int(1))), \
         Compare(«b», Ne, Literal(Int(2)))]), Every([Compare(«c», Ge, Literal(Int(3))), IsNull(«d», true)])])) }",
    ),
    (
        "delete from T where not (a=1 or b != 'x') and c is null",
        "Delete { table: <t>, cond: Some(Every([Not(Some1([Compare(«a», Eq, Literal(Int(1))), \
         Compare(«b», Ne, Literal(Text(Text { text: \"x\" })))])), IsNull(«c», false)])) }",
    ),
    (
        "delete from t where (a = 1 or b = 2) or c = null",
        "Delete { table: <t>, cond: Some(Some1([Some1([Compare(«a», Eq, Literal(Int(1))), \
         Compare(«b», Eq, Literal(Int(2)))]), Compare(«c», Eq, Literal(Null))])) }",
    ),
    (
        "delete from t where not not (a = 1 and b = t.c) and not (d = 1)",
        "Delete { table: <t>, cond: Some(Every([Not(Not(\
         Every([Compare(«a», Eq, Literal(Int(1))), \
         Compare(«b», Eq, Column(ColRef { table: Some(<t>), column: <c> }))]))), \
         Not(Compare(«d», Eq, Literal(Int(1))))])) }",
    ),
];

const OTHERS: [(&str, &str); 7] = [
    (
        "GDPR Get Tab 'it''s'",
        "GdprGet { table: <tab>, key: Text(Text { text: \"it's\" }) }",
    ),
    (
        "gdpr forget t -5",
        "GdprForget { table: <t>, key: Int(-5) }",
    ),
    ("begin", "Begin"),
    ("commit", "Commit"),
    ("rollback", "Rollback"),
    ("explain compliance", "Explain"),
    ("checkpoint", "Checkpoint"),
];

/// Two texts of one statement.
const SAME: [(&str, &str); 21] = [
    ("delete from t where a != 1", "delete from t where a <> 1"),
    ("gdpr get t -0", "gdpr get t 0"),
    ("gdpr get t 007", "gdpr get t 7"),
    ("gdpr get t - 5", "gdpr get t -5"),
    (
        "select * from t inner join u on a = b",
        "select * from t join u on a = b",
    ),
    (
        "select * from t order by a asc",
        "select * from t order by a",
    ),
    (
        "create table t (a int references only u (b))",
        "create table t (a int references u (b))",
    ),
    (
        "create table t (foreign key (a) references only u (b))",
        "create table t (foreign key (a) references u (b))",
    ),
    ("begin transaction", "begin"),
    ("ctx start", "begin"),
    ("ctx commit", "commit"),
    ("ctx rollback", "rollback"),
    ("DELETE FROM T WHERE A = B.C", "delete from t where a = b.c"),
    ("delete from t where ((a = 1))", "delete from t where a = 1"),
    (
        "delete from t where a = 1 or b = 2 and c = 3",
        "delete from t where a = 1 or (b = 2 and c = 3)",
    ),
    (
        "delete from t where a = 1 and b = 2 or c = 3",
        "delete from t where (a = 1 and b = 2) or c = 3",
    ),
    (
        "delete from t where not a = 1 and b = 2",
        "delete from t where (not a = 1) and b = 2",
    ),
    (
        "delete from t where not a = 1",
        "delete from t where not (a = 1)",
    ),
    (
        "delete from t where not a is null or b = 2",
        "delete from t where (not (a is null)) or (b = 2)",
    ),
    (
        "insert into t values(1,'a')--x",
        " insert--\n into t\tvalues ( 1 , 'a' )\r\n",
    ),
    ("update t set a = b--1", "update t set a = b"),
];

/// Texts of two statements.
const DIFFERENT: [(&str, &str); 21] = [
    (
        "delete from t where (a = 1 or b = 2) and c = 3",
        "delete from t where a = 1 or b = 2 and c = 3",
    ),
    (
        "delete from t where a = 1 and b = 2 and c = 3",
        "delete from t where a = 1 and (b = 2 and c = 3)",
    ),
    (
        "delete from t where a = 1 or b = 2 or c = 3",
        "delete from t where (a = 1 or b = 2) or c = 3",
    ),
    (
        "delete from t where not (a = 1 and b = 2)",
        "delete from t where not a = 1 and b = 2",
    ),
    (
        "delete from t where not a is null",
        "delete from t where a is not null",
    ),
    (
        "delete from t where not not a = 1",
        "delete from t where a = 1",
    ),
    ("delete from t where a = 1", "delete from t where a <> 1"),
    ("delete from t where a = 'B'", "delete from t where a = 'b'"),
    ("delete from t where a = ''", "delete from t where a = null"),
    ("delete from t where a = b", "delete from t where a = t.b"),
    (
        "select * from t join u on a = b",
        "select * from t join u on b = a",
    ),
    (
        "select * from t order by a asc",
        "select * from t order by a desc",
    ),
    ("select a from t", "select a from t group by a"),
    ("select count from t", "select count(*) from t"),
    ("select sum(a) from t", "select sum(a) as sum from t"),
    (
        "create table t (a int references u (b))",
        "create table t (a int owned_by u (b))",
    ),
    (
        "create table t (a int)",
        "create data_subject table t (a int)",
    ),
    ("gdpr get t 5", "gdpr get t '5'"),
    ("gdpr get t 5", "gdpr forget t 5"),
    (
        "insert into t values (1, 2)",
        "insert into t values (1), (2)",
    ),
    ("update t set a = a + 1", "update t set a = a - -1"),
];

/// What is read, or why nothing is, as its derived text.
fn told(rt: &(impl Abort + AllocGlobal), text: &str) -> String
    requires { length text.now < 2 ^ 32 }
{
    match read_statement(rt.alloc(), text) {
        Ok(statement) => {
            let told = format!(in rt.alloc(); "{statement:?}");
            drop(statement);
            told.expect(rt, "memory")
        }
        Err(fault) => format!(in rt.alloc(); "{fault:?}").expect(rt, "memory"),
    }
}

/// The copy of the CREATE TABLE that is read, as its derived text.
fn copy_told(rt: &(impl Abort + AllocGlobal), text: &str) -> String
    requires { length text.now < 2 ^ 32 }
{
    match read_statement(rt.alloc(), text) {
        Ok(Statement::CreateTable(create)) => {
            let copied = create.copy(rt.alloc()).expect(rt, "memory");
            drop(create);
            let statement = Statement::CreateTable(copied);
            let told = format!(in rt.alloc(); "{statement:?}");
            drop(statement);
            told.expect(rt, "memory")
        }
        Ok(statement) => {
            drop(statement);
            format!(in rt.alloc(); "no CREATE TABLE").expect(rt, "memory")
        }
        Err(fault) => format!(in rt.alloc(); "{fault:?}").expect(rt, "memory"),
    }
}

/// The derived text that a row represents.
fn written_out(rt: &(impl Abort + AllocGlobal), row: &str) -> String {
    let mut text = String::new(rt.alloc());
    for letter in row.chars() {
        match letter {
            '<' => text
                .push_str("Name { text: Text { text: \"")
                .expect(rt, "memory"),
            '>' => text.push_str("\" } }").expect(rt, "memory"),
            '«' => text
                .push_str("ColRef { table: None, column: Name { text: Text { text: \"")
                .expect(rt, "memory"),
            '»' => text.push_str("\" } } }").expect(rt, "memory"),
            '[' => text.push_str("List { items: [").expect(rt, "memory"),
            ']' => text.push_str("] }").expect(rt, "memory"),
            _ => text.push(letter).expect(rt, "memory"),
        }
    }
    text
}

fn check_values(rt: &(impl Abort + AllocGlobal), rows: &[(&str, &str)]) {
    for (text, wanted) in rows {
        assert!(rt; text.len() < 1000);
        assert_eq!(rt; answer_of(rt.alloc(), text), Answer::Read, "{text}");
        let told = told(rt, text);
        let wanted = written_out(rt, wanted);
        assert_eq!(rt; told.as_str(), wanted.as_str(), "{text}");
    }
}

/// Both texts are read, and whether to one statement.
fn check_pairs(rt: &(impl Abort + AllocGlobal), pairs: &[(&str, &str)], same: bool) {
    for (left, right) in pairs {
        assert!(rt; left.len() < 1000 && right.len() < 1000);
        assert_eq!(rt; answer_of(rt.alloc(), left), Answer::Read, "{left}");
        assert_eq!(rt; answer_of(rt.alloc(), right), Answer::Read, "{right}");
        let left_told = told(rt, left);
        let right_told = told(rt, right);
        assert_eq!(rt;
            left_told.as_str() == right_told.as_str(),
            same,
            "{left}, {right}"
        );
    }
}

#[test]
fn copies_are_the_same(rt: HostRuntime) {
    for (text, wanted) in &CREATES[..3] {
        assert!(rt; text.len() < 1000);
        let told = copy_told(&rt, text);
        let wanted = written_out(&rt, wanted);
        assert_eq!(rt; told.as_str(), wanted.as_str(), "{text}");
    }
}

#[test]
fn values_are_read(rt: HostRuntime) {
    check_values(&rt, &CREATES);
    check_values(&rt, &SELECTS);
    check_values(&rt, &WRITES);
    check_values(&rt, &CONDITIONS);
    check_values(&rt, &OTHERS);
    check_pairs(&rt, &SAME, true);
    check_pairs(&rt, &DIFFERENT, false);
}
