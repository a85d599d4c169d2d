use annot_schema::SchemaFault;
use crash_recover::OpenFault;
use own_base::{Area, Name};
use own_model::LimitName;
use std::alloc::{AllocError, Global};

/// What is written of why a CREATE TABLE isn't admitted.
fn of_schema(alloc: Global, fault: SchemaFault) -> Result<String, AllocError> {
    format!(in alloc; "{fault}")
}

/// What is written of why a store isn't opened.
fn of_opening(alloc: Global, fault: OpenFault) -> Result<String, AllocError> {
    format!(in alloc; "{fault}")
}

#[test]
fn names_and_rules_of_a_schema_are_shown(rt: HostRuntime) {
    let alloc = rt.alloc();
    let taken = SchemaFault::NameTaken(Name::from_str(alloc, "users").expect(&rt, "memory"));
    assert_eq!(rt;
        of_schema(alloc, taken).expect(&rt, "memory").as_str(),
        "the name users is taken"
    );
    let name = Name::from_str(alloc, "bio").expect(&rt, "memory");
    let broken = SchemaFault::BadSchema { rule: 13, name };
    assert_eq!(rt;
        of_schema(alloc, broken).expect(&rt, "memory").as_str(),
        "bio breaks rule 13 of CREATE TABLE"
    );
    let table = Name::from_str(alloc, "a").expect(&rt, "memory");
    let through = Name::from_str(alloc, "b").expect(&rt, "memory");
    let cyclic = SchemaFault::Cycle { table, through };
    assert_eq!(rt;
        of_schema(alloc, cyclic).expect(&rt, "memory").as_str(),
        "a would be owned or accessed by itself, through b"
    );
    let rows = SchemaFault::HasRows(Name::from_str(alloc, "c").expect(&rt, "memory"));
    assert_eq!(rt;
        of_schema(alloc, rows).expect(&rt, "memory").as_str(),
        "the table c holds rows"
    );
}

#[test]
fn limits_and_memory_of_a_schema_are_shown(rt: HostRuntime) {
    let alloc = rt.alloc();
    let limit = SchemaFault::Limit(LimitName::Columns);
    assert_eq!(rt;
        of_schema(alloc, limit).expect(&rt, "memory").as_str(),
        "the limit Columns is passed"
    );
    assert_eq!(rt;
        of_schema(alloc, SchemaFault::Memory)
            .expect(&rt, "memory")
            .as_str(),
        "out of memory"
    );
}

#[test]
fn faults_of_an_opening_are_shown(rt: HostRuntime) {
    let alloc = rt.alloc();
    assert_eq!(rt;
        of_opening(alloc, OpenFault::DiskFault)
            .expect(&rt, "memory")
            .as_str(),
        "the disk failed"
    );
    for (area, offset, shown) in [
        (Area::A, 9, "area A is damaged at byte 9"),
        (
            Area::B,
            u64::MAX,
            "area B is damaged at byte 18446744073709551615",
        ),
    ] {
        let damaged = OpenFault::Damaged { area, offset };
        assert_eq!(rt;
            of_opening(alloc, damaged).expect(&rt, "memory").as_str(),
            shown
        );
    }
    assert_eq!(rt;
        of_opening(alloc, OpenFault::Memory)
            .expect(&rt, "memory")
            .as_str(),
        "out of memory"
    );
}
