//! Refusals, and what a reply says of each.

use own_base::{Key, Name, Place, SessionNo, Text};
use own_model::{LimitName, Refusal, Reply};
use sql_print::print_reply;
use std::alloc::{AllocError, Global};
use std::mem::drop;

/// The lines of a call without a place that was refused, the 4th of session 16.
fn refused(alloc: Global, refusal: Refusal) -> Result<Text, AllocError> {
    let reply = Reply::Refused(refusal);
    let lines = print_reply(alloc, None, SessionNo(16), 4, &reply);
    drop(reply);
    lines
}

/// What each refusal of `PLAIN` says.
const PLAIN: [&str; 10] = [
    "- 16.4 refused syntax 17\n",
    "- 16.4 refused count 2 3\n",
    "- 16.4 refused inside\n",
    "- 16.4 refused outside\n",
    "- 16.4 refused busy 12\n",
    "- 16.4 refused doomed 18446744073709551615\n",
    "- 16.4 refused big 16777217\n",
    "- 16.4 disk\n",
    "- 16.4 down 0\n",
    "- 16.4 memory\n",
];

fn plain(which: usize) -> Refusal {
    match which {
        0 => Refusal::Syntax(17),
        1 => Refusal::Count { got: 2, wanted: 3 },
        2 => Refusal::Inside,
        3 => Refusal::Outside,
        4 => Refusal::Busy(SessionNo(12)),
        5 => Refusal::Doomed(Place(18_446_744_073_709_551_615)),
        6 => Refusal::TooBig(16_777_217),
        7 => Refusal::Disk,
        8 => Refusal::Down(Place(0)),
        _ => Refusal::Memory,
    }
}

/// What each refusal with a name says, where it is `acc`.
const NAMED: [&str; 11] = [
    "- 16.4 refused table acc\n",
    "- 16.4 refused column acc\n",
    "- 16.4 refused kind acc\n",
    "- 16.4 refused taken acc\n",
    "- 16.4 refused schema 9 acc\n",
    "- 16.4 refused rows acc\n",
    "- 16.4 refused key acc\n",
    "- 16.4 refused subject acc\n",
    "- 16.4 refused null acc\n",
    "- 16.4 refused range acc\n",
    "- 16.4 refused conflict 3 acc *\n",
];

fn named(alloc: Global, which: usize) -> Result<Refusal, AllocError> {
    let name = Name::from_str(alloc, "acc")?;
    Ok(match which {
        0 => Refusal::NoTable(name),
        1 => Refusal::NoColumn(name),
        2 => Refusal::WrongKind(name),
        3 => Refusal::NameTaken(name),
        4 => Refusal::BadSchema { rule: 9, name },
        5 => Refusal::HasRows(name),
        6 => Refusal::KeyWrite(name),
        7 => Refusal::NotSubject(name),
        8 => Refusal::NullValue(name),
        9 => Refusal::Range(name),
        _ => Refusal::Conflict {
            session: SessionNo(3),
            table: name,
            key: None,
        },
    })
}

/// What each refusal with a row says, where it is the row `it's` of `acc`.
const OF_ROWS: [&str; 4] = [
    "- 16.4 refused duplicate acc 'it''s'\n",
    "- 16.4 refused absent acc 'it''s'\n",
    "- 16.4 refused owner acc 'it''s'\n",
    "- 16.4 refused conflict 3 acc 'it''s'\n",
];

fn of_row(alloc: Global, which: usize) -> Result<Refusal, AllocError> {
    let table = Name::from_str(alloc, "acc")?;
    let key = Key::Text(Text::from_str(alloc, "it's")?);
    Ok(match which {
        0 => Refusal::Duplicate { table, key },
        1 => Refusal::NoSubject { table, key },
        2 => Refusal::Owner { table, key },
        _ => Refusal::Conflict {
            session: SessionNo(3),
            table,
            key: Some(key),
        },
    })
}

/// What each refusal with two names says, where they are `acc` and `col`, and the row is -5.
const OF_PAIRS: [&str; 3] = [
    "- 16.4 refused cycle acc col\n",
    "- 16.4 refused unique acc -5 col\n",
    "- 16.4 refused reference acc -5 col\n",
];

fn of_pair(alloc: Global, which: usize) -> Result<Refusal, AllocError> {
    let table = Name::from_str(alloc, "acc")?;
    let column = Name::from_str(alloc, "col")?;
    let key = Key::Int(-5);
    Ok(match which {
        0 => Refusal::Cycle {
            table,
            through: column,
        },
        1 => Refusal::Unique { table, key, column },
        _ => Refusal::Reference { table, key, column },
    })
}

const LIMITS: [(LimitName, &str); 12] = [
    (
        LimitName::Statement,
        "- 16.4 refused limit statement 65536\n",
    ),
    (LimitName::Nesting, "- 16.4 refused limit nesting 64\n"),
    (LimitName::Text, "- 16.4 refused limit text 4096\n"),
    (LimitName::Items, "- 16.4 refused limit items 64\n"),
    (LimitName::Name, "- 16.4 refused limit name 64\n"),
    (LimitName::Columns, "- 16.4 refused limit columns 32\n"),
    (LimitName::Tables, "- 16.4 refused limit tables 64\n"),
    (LimitName::Views, "- 16.4 refused limit views 32\n"),
    (LimitName::Reply, "- 16.4 refused limit reply 1000000\n"),
    (LimitName::Rows, "- 16.4 refused limit rows 1000000\n"),
    (
        LimitName::Weight,
        "- 16.4 refused limit weight 1073741824\n",
    ),
    (
        LimitName::Room,
        "- 16.4 refused limit room 4611686018427387904\n",
    ),
];

#[test]
fn refusals_say_why(rt: HostRuntime) {
    for (which, wanted) in PLAIN.iter().enumerate() {
        assert_eq!(rt;
            refused(rt.alloc(), plain(which))
                .expect(&rt, "memory")
                .as_str(),
            *wanted
        );
    }
}

#[test]
fn refusals_name_what_shows_it(rt: HostRuntime) {
    let alloc = rt.alloc();
    for (which, wanted) in NAMED.iter().enumerate() {
        let refusal = named(alloc, which).expect(&rt, "memory");
        assert_eq!(rt;
            refused(alloc, refusal).expect(&rt, "memory").as_str(),
            *wanted
        );
    }
}

#[test]
fn refusals_tell_the_row(rt: HostRuntime) {
    let alloc = rt.alloc();
    for (which, wanted) in OF_ROWS.iter().enumerate() {
        let refusal = of_row(alloc, which).expect(&rt, "memory");
        assert_eq!(rt;
            refused(alloc, refusal).expect(&rt, "memory").as_str(),
            *wanted
        );
    }
}

#[test]
fn refusals_tell_two_names(rt: HostRuntime) {
    let alloc = rt.alloc();
    for (which, wanted) in OF_PAIRS.iter().enumerate() {
        let refusal = of_pair(alloc, which).expect(&rt, "memory");
        assert_eq!(rt;
            refused(alloc, refusal).expect(&rt, "memory").as_str(),
            *wanted
        );
    }
}

#[test]
fn refusals_tell_the_limit(rt: HostRuntime) {
    for (limit, wanted) in LIMITS {
        assert_eq!(rt;
            refused(rt.alloc(), Refusal::Limit(limit))
                .expect(&rt, "memory")
                .as_str(),
            wanted
        );
    }
}
