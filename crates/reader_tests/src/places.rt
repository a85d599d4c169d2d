//! Each rule of the grammar, place by place: which tokens go on there, and whether the text may end.

use crate::check::{Answer, answer_of};
use crate::words::KEYWORDS;
use std::process::Abort;

// A row is a statement, its places parted by `|`. First in a place stands the statement's token there, and after it
// what else goes on there: tokens, or a small word for several of them (`several`); `end` says that the text may end
// in front of the place. The last place has `$` for its token. What isn't listed is refused at the place's first byte.

/// A CREATE TABLE with columns, their attributes and their references.
const COLUMNS: [&str; 8] = [
    "CREATE begin | TABLE DATA_SUBJECT VIEW | t name | ( | a part | INT TEXT | ) attr , | $ end",
    "CREATE begin | DATA_SUBJECT TABLE VIEW | TABLE | t name | ( | a part | TEXT INT | , attr ) | b part | INT TEXT \
     | ) attr , | $ end",
    // attr
    "CREATE begin | TABLE DATA_SUBJECT VIEW | t name | ( | a part | INT TEXT | PRIMARY attr , ) | KEY | NOT attr , ) \
     | NULL | UNIQUE attr , ) | NOT attr , ) | NULL | ) attr , | $ end",
    "CREATE begin | TABLE DATA_SUBJECT VIEW | t name | ( | a part | INT TEXT | UNIQUE attr , ) | PRIMARY attr , ) \
     | KEY | , attr ) | c part | TEXT INT | UNIQUE attr , ) | ) attr , | $ end",
    // refers
    "CREATE begin | TABLE DATA_SUBJECT VIEW | t name | ( | a part | INT TEXT | REFERENCES attr , ) | ONLY name \
     | u name | ( | b name | ) | UNIQUE attr , ) | ) attr , | $ end",
    "CREATE begin | TABLE DATA_SUBJECT VIEW | t name | ( | a part | INT TEXT | REFERENCES attr , ) | u name ONLY \
     | ( | b name | ) | OWNED_BY attr , ) | u name | ( | b name | ) | ) attr , | $ end",
    "CREATE begin | TABLE DATA_SUBJECT VIEW | t name | ( | a part | TEXT INT | OWNS attr , ) | u name | ( | b name | ) \
     | NOT attr , ) | NULL | ) attr , | $ end",
    "CREATE begin | TABLE DATA_SUBJECT VIEW | t name | ( | a part | TEXT INT | ACCESSED_BY attr , ) | u name | ( \
     | b name | ) | ACCESSES attr , ) | u name | ( | b name | ) | ) attr , | $ end",
];

/// The constraints and the rules of a CREATE TABLE.
const CONSTRAINTS: [&str; 11] = [
    // part: PRIMARY KEY
    "CREATE begin | TABLE DATA_SUBJECT VIEW | t name | ( | PRIMARY part | KEY | ( | a name | ) | , ) | PRIMARY part \
     | KEY | ( | b name | ) | ) , | $ end",
    // part: UNIQUE
    "CREATE begin | DATA_SUBJECT TABLE VIEW | TABLE | t name | ( | UNIQUE part | ( | a name | ) | , ) | UNIQUE part \
     | ( | b name | ) | ) , | $ end",
    // part: FOREIGN KEY
    "CREATE begin | TABLE DATA_SUBJECT VIEW | t name | ( | FOREIGN part | KEY | ( | a name | ) | REFERENCES refers \
     | u name ONLY | ( | b name | ) | ) , | $ end",
    "CREATE begin | TABLE DATA_SUBJECT VIEW | t name | ( | FOREIGN part | KEY | ( | a name | ) | REFERENCES refers \
     | ONLY name | u name | ( | b name | ) | ) , | $ end",
    "CREATE begin | TABLE DATA_SUBJECT VIEW | t name | ( | FOREIGN part | KEY | ( | a name | ) | OWNED_BY refers \
     | u name | ( | b name | ) | ) , | $ end",
    "CREATE begin | TABLE DATA_SUBJECT VIEW | t name | ( | FOREIGN part | KEY | ( | a name | ) | OWNS refers \
     | u name | ( | b name | ) | , ) | c part | INT TEXT | ) attr , | $ end",
    "CREATE begin | TABLE DATA_SUBJECT VIEW | t name | ( | FOREIGN part | KEY | ( | a name | ) | ACCESSED_BY refers \
     | u name | ( | b name | ) | ) , | $ end",
    "CREATE begin | TABLE DATA_SUBJECT VIEW | t name | ( | FOREIGN part | KEY | ( | a name | ) | ACCESSES refers \
     | u name | ( | b name | ) | ) , | $ end",
    // part: ON GET
    "CREATE begin | TABLE DATA_SUBJECT VIEW | t name | ( | ON part | GET DEL | a name | ANON | ( | b name | , ) \
     | c name | ) , | , ) | ON part | GET DEL | d name | ANON | ( | e name | ) , | ) , | $ end",
    // part: ON DEL, ANON
    "CREATE begin | TABLE DATA_SUBJECT VIEW | t name | ( | ON part | DEL GET | a name | ANON DELETE_ROW | ( | b name \
     | , ) | c name | , ) | d name | ) , | ) , | $ end",
    // part: ON DEL, DELETE_ROW
    "CREATE begin | TABLE DATA_SUBJECT VIEW | t name | ( | ON part | DEL GET | a name | DELETE_ROW ANON | , ) \
     | b part | INT TEXT | ) attr , | $ end",
];

/// Views: a select without an order.
const VIEWS: [&str; 4] = [
    "CREATE begin | VIEW TABLE DATA_SUBJECT | v name | AS | SELECT | * name | FROM | t name | $ end INNER JOIN WHERE",
    "CREATE begin | VIEW TABLE DATA_SUBJECT | v name | AS | SELECT | a name * | AS . , FROM | b name | FROM , \
     | t name | JOIN INNER WHERE GROUP end | u name | ON | a name | = . | b name | WHERE . end | a cond | = sign . IS \
     | 1 value name | $ end AND OR",
    "CREATE begin | VIEW TABLE DATA_SUBJECT | v name | AS | SELECT | COUNT name * | ( . AS , FROM | * | ) | FROM AS , \
     | t name | WHERE GROUP end | a cond | IS sign . | NULL NOT | $ end AND OR GROUP",
    "CREATE begin | VIEW TABLE DATA_SUBJECT | v name | AS | SELECT | SUM name * | ( . AS , FROM | a name | ) . \
     | AS , FROM | s name | FROM , | t name | GROUP WHERE end | BY | a name | $ end .",
];

/// Selects without COUNT, SUM and GROUP BY, their items and their columns.
const PLAIN_SELECTS: [&str; 6] = [
    "SELECT begin | * name | FROM | t name | $ end INNER JOIN WHERE ORDER",
    "SELECT begin | a name * | FROM . AS , | t name | $ end INNER JOIN WHERE GROUP ORDER",
    // citem, col
    "SELECT begin | a name * | , . AS FROM | t name | . AS , FROM | b name | AS , FROM | c name | , FROM | d name \
     | FROM . AS , | t name | INNER JOIN WHERE GROUP ORDER end | JOIN | u name | ON | t name | . = | a name | = \
     | u name | . WHERE ORDER end | b name | WHERE ORDER end | a cond | = sign . IS | 1 value name \
     | ORDER AND OR end | BY | a name | DESC ASC . end | $ end",
    "SELECT begin | * name | FROM | t name | JOIN INNER WHERE ORDER end | u name | ON | a name | = . | b name \
     | $ end . WHERE ORDER",
    "SELECT begin | * name | FROM | t name | ORDER INNER JOIN WHERE end | BY | t name | . ASC DESC end | a name \
     | ASC DESC end | $ end",
    "SELECT begin | * name | FROM | t name | WHERE INNER JOIN ORDER end | a cond | IS sign . | NULL NOT \
     | ORDER AND OR end | BY | a name | $ end . ASC DESC",
];

/// Selects with COUNT, SUM or GROUP BY.
const GROUPED_SELECTS: [&str; 5] = [
    "SELECT begin | a name * | FROM . AS , | t name | GROUP INNER JOIN WHERE ORDER end | BY | a name | $ end . ORDER",
    "SELECT begin | a name * | FROM . AS , | t name | WHERE INNER JOIN GROUP ORDER end | a cond | IS sign . \
     | NOT NULL | NULL | GROUP AND OR ORDER end | BY | t name | . ORDER end | a name | ORDER end | BY | a name \
     | . ASC DESC end | b name | $ end ASC DESC",
    "SELECT begin | a name * | , . AS FROM | COUNT name | ( . AS , FROM | * | ) | FROM AS , | t name \
     | $ end WHERE GROUP ORDER",
    // gitem
    "SELECT begin | COUNT name * | ( . AS , FROM | * | ) | AS , FROM | n name | , FROM | SUM name | ( . AS , FROM \
     | t name | . ) | a name | ) | , AS FROM | b name | AS . , FROM | c name | FROM , | t name | WHERE GROUP ORDER end \
     | a cond | = sign . IS | 1 value name | GROUP AND OR ORDER end | BY | t name | . ORDER end | b name | ORDER end \
     | BY | n name | ASC . DESC end | $ end",
    "SELECT begin | SUM name * | ( . AS , FROM | a name | . ) | b name | ) | , AS FROM | COUNT name | ( . AS , FROM \
     | * | ) | , AS FROM | d name | . AS , FROM | e name | , AS FROM | f name | FROM . AS , | t name \
     | ORDER WHERE GROUP end | BY | d name | DESC . ASC end | $ end",
];

/// INSERT, UPDATE and DELETE, with tuples, literals and expressions.
const WRITES: [&str; 7] = [
    "INSERT begin | INTO | t name | VALUES ( | ( | 1 value | ) , | $ end ,",
    // tuple, literal, int
    "INSERT begin | INTO | t name | ( VALUES | a name | , ) | b name | ) , | VALUES | ( | - value | 1 number | , ) \
     | 'x' value | ) , | , end | ( | NULL value | , ) | 2 value | , ) | - value | 3 number | ) , | $ end ,",
    "INSERT begin | INTO | t name | ( VALUES | a name | ) , | VALUES | ( | NULL value | ) , | $ end ,",
    "UPDATE begin | t name | SET | a name | = | 1 value name | $ end , WHERE",
    // expr
    "UPDATE begin | t name | SET | a name | = | b value name | + - , WHERE end | 1 int | , WHERE end | c name | = \
     | d value name | - + , WHERE end | - int | 2 number | , WHERE end | e name | = | - value name | 3 number \
     | , WHERE end | f name | = | 'x' value name | , WHERE end | g name | = | NULL value name | , WHERE end | h name \
     | = | k value name | WHERE + - , end | a cond | = sign . IS | 1 value name | $ end AND OR",
    "DELETE begin | FROM | t name | $ end WHERE",
    "DELETE begin | FROM | t name | WHERE end | a cond | = sign . IS | 1 value name | $ end AND OR",
];

/// Conditions: cond, conj, neg and cmp.
const CONDITIONS: [&str; 4] = [
    "DELETE begin | FROM | t name | WHERE end | a cond | = sign . IS | 1 value name | OR AND end | b cond \
     | <> sign . IS | c value name | AND . OR end | t cond | . sign IS | d name | < sign IS | u value name \
     | . AND OR end | e name | OR AND end | a cond | IS sign . | NOT NULL | NULL | $ end AND OR",
    "UPDATE begin | t name | SET | a name | = | 1 value name | WHERE , end | NOT cond | a cond | IS sign . | NULL NOT \
     | AND OR end | ( cond | a cond | != sign . IS | NULL value name | OR AND ) | b cond | <= sign . IS \
     | - value name | 5 number | ) AND OR | OR AND end | c cond | = sign . IS | 'x' value name | $ end AND OR",
    "SELECT begin | a name * | FROM . AS , | t name | WHERE INNER JOIN GROUP ORDER end | ( cond | ( cond | a cond \
     | > sign . IS | 'x' value name | ) AND OR | AND OR ) | c cond | >= sign . IS | t value name | . AND OR ) \
     | d name | ) AND OR | GROUP AND OR ORDER end | BY | a name | $ end . ORDER",
    "DELETE begin | FROM | t name | WHERE end | NOT cond | NOT cond | ( cond | NOT cond | ( cond | a cond | . sign IS \
     | b name | IS sign | NOT NULL | NULL | ) AND OR | ) AND OR | AND OR end | NOT cond | c cond | = sign . IS \
     | d value name | $ end . AND OR",
];

/// What opens and ends transactions, and the calls that name no table or one subject.
const CONTROLS: [&str; 13] = [
    "BEGIN begin | $ end TRANSACTION",
    "BEGIN begin | TRANSACTION end | $ end",
    "COMMIT begin | $ end",
    "ROLLBACK begin | $ end",
    "CTX begin | START COMMIT ROLLBACK | $ end",
    "CTX begin | COMMIT START ROLLBACK | $ end",
    "CTX begin | ROLLBACK START COMMIT | $ end",
    "CHECKPOINT begin | $ end",
    "EXPLAIN begin | COMPLIANCE | $ end",
    // gdpr
    "GDPR begin | GET FORGET | t name | 5 int quoted | $ end",
    "GDPR begin | GET FORGET | t name | 'x' int quoted | $ end",
    "GDPR begin | FORGET GET | t name | - int quoted | 5 number | $ end",
    "GDPR begin | FORGET GET | t name | 'x' int quoted | $ end",
];

/// The tokens that are tried at each place, besides the keywords. `;` and `!` begin none.
const OTHERS: &str = "q COUNT SUM 7 'q' ( ) , . = <> != < <= > >= + - * ; !";

/// Those that are tried with the rest of the statement after them, and with comments between all tokens.
const FEW: &str = "; q 7 , )";

/// The tokens that a word of a row represents.
fn several(word: &str) -> &str {
    match word {
        "begin" => {
            "CREATE SELECT INSERT UPDATE DELETE BEGIN COMMIT ROLLBACK CTX CHECKPOINT EXPLAIN GDPR"
        }
        "name" => "q COUNT SUM",
        "number" => "7",
        "quoted" => "'q'",
        "int" => "- 7",
        "value" => "NULL - 7 'q'",
        "sign" => "= <> != < <= > >=",
        "cond" => "q COUNT SUM NOT (",
        "part" => "q COUNT SUM PRIMARY UNIQUE FOREIGN ON",
        "attr" => "PRIMARY NOT UNIQUE REFERENCES OWNED_BY OWNS ACCESSED_BY ACCESSES",
        "refers" => "REFERENCES OWNED_BY OWNS ACCESSED_BY ACCESSES",
        _ => word,
    }
}

/// Whether the place lists the token.
fn lists(place: &str, token: &str) -> bool {
    for word in place.split_whitespace() {
        for listed in several(word).split(' ') {
            if listed == token {
                return true;
            }
        }
    }
    false
}

/// The statement's tokens from one place of the row up to another, joined.
fn joined(
    rt: &(impl Abort + AllocGlobal),
    row: &str,
    from: usize,
    to: usize,
    glue: &str,
) -> String {
    let mut text = String::new(rt.alloc());
    for (at, place) in row.split('|').enumerate() {
        let token = place.split_whitespace().next().unwrap_or("no token");
        if from <= at && at < to && token != "$" {
            if from < at {
                text.push_str(glue).expect(rt, "memory");
            }
            text.push_str(token).expect(rt, "memory");
        }
    }
    text
}

/// What the text of these parts gives.
fn answer_to(rt: &(impl Abort + AllocGlobal), parts: &[&str]) -> Answer {
    let mut text = String::new(rt.alloc());
    for part in parts {
        text.push_str(part).expect(rt, "memory");
    }
    assert!(rt; text.len() < 100000);
    answer_of(rt.alloc(), text.as_str())
}

/// The answer at the end of these parts.
fn at_end(rt: &impl Abort, parts: &[&str]) -> Answer {
    let mut len: u32 = 0;
    for part in parts {
        len = len.saturating_add(u32::try_from(part.len()).expect(rt, "a length"));
    }
    Answer::At(len)
}

/// The token after the text: it goes on exactly where the place lists it.
fn goes_on(rt: &(impl Abort + AllocGlobal), before: &str, token: &str, place: &str) {
    let answer = answer_to(rt, &[before, token]);
    if lists(place, token) {
        let early = at_end(rt, &[before, token]);
        assert!(rt;
            answer == Answer::Read || answer == early,
            "{before}{token}: {answer:?}"
        );
    } else {
        assert_eq!(rt; answer, at_end(rt, &[before]), "{before}{token}");
    }
}

/// The token in place of the statement's own, with the rest of the statement after it: it isn't listed.
fn stands_wrong(
    rt: &(impl Abort + AllocGlobal),
    before: &str,
    token: &str,
    after: &str,
    place: &str,
) {
    if !lists(place, token) {
        let answer = answer_to(rt, &[before, token, " ", after]);
        assert_eq!(rt; answer, at_end(rt, &[before]), "{before}{token} {after}");
    }
}

/// Each place of the row, with its tokens joined so, and whether these tokens go on there.
fn check(rt: &(impl Abort + AllocGlobal), row: &str, glue: &str, tried: &[&str]) {
    let mut is_over = false;
    for (at, place) in row.split('|').enumerate() {
        assert!(rt; !is_over, "a place after $: {row}");
        is_over = lists(place, "$");
        let mut before = joined(rt, row, 0, at, glue);
        let after = joined(rt, row, at.saturating_add(1), usize::MAX, glue);
        let ended = answer_to(rt, &[before.as_str()]);
        if lists(place, "end") {
            assert_eq!(rt; ended, Answer::Read, "{before}");
        } else {
            assert_eq!(rt; ended, at_end(rt, &[before.as_str()]), "{before}");
        }
        if at > 0 {
            before.push_str(glue).expect(rt, "memory");
        }
        for tokens in tried {
            for token in tokens.split(' ') {
                goes_on(rt, before.as_str(), token, place);
            }
        }
        for token in FEW.split(' ') {
            stands_wrong(rt, before.as_str(), token, after.as_str(), place);
        }
    }
    assert!(rt; is_over, "no $: {row}");
}

fn check_all(rt: &(impl Abort + AllocGlobal), rows: &[&str]) {
    for row in rows {
        check(rt, row, " ", &[KEYWORDS, OTHERS]);
        check(rt, row, "\t--'(;\r\n", &[]);
    }
}

#[test]
fn each_place_of_a_column(rt: HostRuntime) {
    check_all(&rt, &COLUMNS);
}

#[test]
fn each_place_of_a_constraint_or_view(rt: HostRuntime) {
    check_all(&rt, &CONSTRAINTS);
    check_all(&rt, &VIEWS);
}

#[test]
fn each_place_of_a_select(rt: HostRuntime) {
    check_all(&rt, &PLAIN_SELECTS);
    check_all(&rt, &GROUPED_SELECTS);
}

#[test]
fn each_place_of_another_call(rt: HostRuntime) {
    check_all(&rt, &WRITES);
    check_all(&rt, &CONDITIONS);
    check_all(&rt, &CONTROLS);
}
