//! Views beside their queries: after random writes, one commit after another, and inside the transactions too, a SELECT from a
//! view is answered as the view's query itself, which is evaluated from all rows.
use crate::disks::told;
use outer_world::MemDisk;
use std::alloc::Global;
use std::mem::drop;
use std::test::Fail;

const TABLES: &str =
    "CREATE TABLE a (id INT PRIMARY KEY, k INT, n INT);\nCREATE TABLE b (id INT PRIMARY KEY, k INT, n INT);\n";

/// The queries of six views: plain, grouped and over two tables.
const QUERIES: [&str; 6] = [
    "SELECT * FROM a",
    "SELECT n, id FROM a WHERE n >= 2 OR k IS NULL",
    "SELECT k, COUNT(*) AS many, SUM(n) AS total FROM b GROUP BY k",
    "SELECT COUNT(*) AS many, SUM(n) AS total FROM a WHERE k > 1",
    "SELECT a.id, b.id AS other, a.n FROM a JOIN b ON a.k = b.k WHERE a.id <> 3",
    "SELECT a.k, b.n FROM b JOIN a ON b.k = a.id",
];

/// How many commits there are, and how many writes each has.
const COMMITS: u64 = 16;

const WRITES: u64 = 3;

/// Numbers that follow from a first one, each as any other.
#[derive(Drop)]
struct Numbers {
    last: u64,
}

impl Numbers {
    /// The next, below an end that isn't 0.
    fn below(&mut self, end: u64) -> u64 {
        self.last = self
            .last
            .wrapping_mul(6_364_136_223_846_793_005)
            .wrapping_add(1_442_695_040_888_963_407);
        (self.last >> 33).checked_rem(end).unwrap_or(0)
    }
}

/// A small number or NULL.
fn value(alloc: Global, numbers: &mut Numbers) -> Result<String, Fail> {
    match numbers.below(6) {
        5 => Ok(String::from_str(alloc, "NULL")?),
        small => Ok(format!(in alloc; "{small}")?),
    }
}

/// A write of one of the tables.
fn write(alloc: Global, numbers: &mut Numbers) -> Result<String, Fail> {
    let table = if numbers.below(2) == 0 { "a" } else { "b" };
    let id = numbers.below(10);
    let value = value(alloc, numbers)?;
    let value = value.as_str();
    match numbers.below(6) {
        0 => Ok(format!(in alloc; "DELETE FROM {table} WHERE id = {id};\n")?),
        1 => Ok(format!(in alloc; "UPDATE {table} SET k = {value} WHERE id < {id};\n")?),
        2 => Ok(format!(in alloc; "UPDATE {table} SET n = {value} WHERE id >= {id};\n")?),
        key => Ok(format!(in alloc; "INSERT INTO {table} VALUES ({id}, {value}, {key});\n")?),
    }
}

/// A SELECT from each view, or its query.
fn looks(alloc: Global, from_views: bool) -> Result<String, Fail> {
    let mut text = String::new(alloc);
    for (number, query) in QUERIES.iter().enumerate() {
        let look = if from_views {
            format!(in alloc; "SELECT * FROM v{number};\n")?
        } else {
            format!(in alloc; "{query};\n")?
        };
        text.push_str(look.as_str())?;
    }
    Ok(text)
}

/// The creates of the tables and the views.
fn creates(alloc: Global) -> Result<String, Fail> {
    let mut text = String::from_str(alloc, TABLES)?;
    for (number, query) in QUERIES.iter().enumerate() {
        let create = format!(in alloc; "CREATE VIEW v{number} AS {query};\n")?;
        text.push_str(create.as_str())?;
    }
    Ok(text)
}

/// Random commits, with looks before the first write of each, behind it, and behind the COMMIT.
fn script(alloc: Global, looks: &str) -> Result<String, Fail> {
    let mut numbers = Numbers { last: 7 };
    let mut text = creates(alloc)?;
    for _ in 0..COMMITS {
        text.push_str("BEGIN;\n")?;
        text.push_str(looks)?;
        for _ in 0..WRITES {
            text.push_str(write(alloc, &mut numbers)?.as_str())?;
        }
        text.push_str(looks)?;
        text.push_str("COMMIT;\n")?;
        text.push_str(looks)?;
    }
    Ok(text)
}

/// What a script with SELECTs from the views, or with their queries, is answered.
fn answered(alloc: Global, from_views: bool) -> Result<String, Fail> {
    let script = script(alloc, looks(alloc, from_views)?.as_str())?;
    let (output, disk) = told(alloc, script.as_str(), MemDisk::new(alloc, &[])?)?;
    drop(disk);
    Ok(output)
}

#[test]
fn views_show_what_their_queries_give(rt: HostRuntime) -> Result<(), Fail> {
    let shown = answered(rt.alloc(), true)?;
    let given = answered(rt.alloc(), false)?;
    assert!(rt; shown.as_str().contains("rows 4"));
    assert_eq!(rt; shown.as_str(), given.as_str());
    Ok(())
}
