ghost use Rattle.rec_codec.specs.Encodable.{IsEncodable};

use disk_model::{Commit, Put};
use own_base::{Key, List, Row, RowName, TableNo, Value};
use rec_codec::laws::decoded_commit_encodes_to_the_same_bytes;
use rec_codec::{EncodeFault, decode, encode};
use std::process::Abort;

/// The row (5, 'Ann') is put into table 0.
const INSERT: [u8; 40] = [
    3, 0, 0, 0, 1, 0, 0, 0, 0, 1, 0, 0, 0, 0, 0, 0, 0, 5, 1, 0, 0, 0, 2, 1, 0, 0, 0, 0, 0, 0, 0, 5,
    2, 0, 0, 0, 3, 65, 110, 110,
];

/// The row 5 of table 0 is forgotten.
const FORGET: [u8; 14] = [4, 0, 0, 0, 0, 1, 0, 0, 0, 0, 0, 0, 0, 5];

/// The row 'b' of table 1 is taken away, and the row (-1, NULL) is put into table 2.
const TWO_CHANGES: [u8; 44] = [
    3, 0, 0, 0, 2, 0, 0, 0, 1, 2, 0, 0, 0, 1, 98, 0, 0, 0, 0, 2, 1, 255, 255, 255, 255, 255, 255,
    255, 255, 1, 0, 0, 0, 2, 1, 255, 255, 255, 255, 255, 255, 255, 255, 0,
];

/// A CREATE TABLE and a CREATE VIEW, by texts that begin as theirs.
const TABLE: [u8; 11] = [1, 0, 0, 0, 6, 67, 82, 69, 65, 84, 69];

const VIEW: [u8; 6] = [2, 0, 0, 0, 1, 67];

/// The commit that the bytes are the payload of.
fn commit_of(rt: &(impl Abort + AllocGlobal), payload: &[u8]) -> Commit {
    let commit = decode(rt.alloc(), payload).expect(rt, "memory");
    commit.expect(rt, "a payload")
}

/// The same, which may be encoded.
fn decoded(rt: &(impl Abort + AllocGlobal), payload: &[u8]) -> Commit
    ensures { IsEncodable result }
{
    decoded_commit_encodes_to_the_same_bytes();
    let commit = decode(rt.alloc(), payload).expect(rt, "memory");
    commit.expect(rt, "a payload")
}

/// The rows that a commit changed.
fn changes_of(commit: Commit) -> Option<List<Put>> {
    match commit {
        Commit::Changes(puts) => Some(puts),
        _ => None,
    }
}

/// The data subject whose rows a commit forgot.
fn forgotten(commit: Commit) -> Option<RowName> {
    match commit {
        Commit::Forget(name) => Some(name),
        _ => None,
    }
}

/// The row 5 of table 0.
fn assert_five(rt: &impl Abort, name: &RowName) {
    assert_eq!(rt; name.table, TableNo(0));
    assert!(rt; matches!(name.key, Key::Int(5)));
}

/// Whether a row is (5, 'Ann').
fn is_ann(row: &Row) -> bool {
    match row.values() {
        [Value::Int(5), Value::Text(name)] => name.as_str() == "Ann",
        _ => false,
    }
}

#[test]
fn an_insert_is_decoded(rt: HostRuntime) {
    let puts = changes_of(commit_of(&rt, &INSERT)).expect(&rt, "changes");
    assert_eq!(rt; puts.items().len(), 1);
    for put in puts.items() {
        assert_five(&rt, &put.name);
        assert!(rt; put.after.as_ref().is_some_and(is_ann));
    }
}

#[test]
fn a_forget_is_decoded(rt: HostRuntime) {
    let name = forgotten(commit_of(&rt, &FORGET)).expect(&rt, "a forget");
    assert_five(&rt, &name);
}

/// The payload stands behind its length of four bytes, and a closed gate behind it.
fn assert_framed(rt: &impl Abort, framed: &[u8], payload: &[u8]) {
    assert!(rt; payload.len() < 256);
    assert_eq!(rt; framed.len(), payload.len() + 5);
    assert!(rt; framed.starts_with(&[0, 0, 0, payload.len() as u8]));
    assert!(rt; framed.ends_with(&[0]));
    assert_eq!(rt; framed.get(4..4 + payload.len()), Some(payload));
}

#[test]
fn what_was_decoded_is_encoded_again(rt: HostRuntime) {
    for payload in &[
        INSERT.as_slice(),
        FORGET.as_slice(),
        TWO_CHANGES.as_slice(),
        TABLE.as_slice(),
        VIEW.as_slice(),
    ] {
        let framed = encode(rt.alloc(), &decoded(&rt, payload)).expect(&rt, "memory");
        assert_framed(&rt, framed.items(), payload);
    }
}

/// Bytes that are no payload.
const NO_PAYLOADS: [&[u8]; 10] = [
    // no change
    &[3, 0, 0, 0, 0],
    // no kind, and kinds that there are not
    &[],
    &[0, 0, 0, 0, 0],
    &[5, 0, 0, 0, 0, 1, 0, 0, 0, 0, 0, 0, 0, 5],
    // a key that is NULL, and one of no kind
    &[4, 0, 0, 0, 0, 0],
    &[4, 0, 0, 0, 0, 3, 0, 0, 0, 0, 0, 0, 0, 5],
    // bytes that are no text
    &[1, 0, 0, 0, 1, 255],
    // a row without values
    &[3, 0, 0, 0, 1, 0, 0, 0, 0, 2, 0, 0, 0, 0, 1, 0, 0, 0, 0],
    // one row twice
    &[
        3, 0, 0, 0, 2, 0, 0, 0, 0, 2, 0, 0, 0, 0, 0, 0, 0, 0, 0, 2, 0, 0, 0, 0, 0,
    ],
    // the higher table first
    &[
        3, 0, 0, 0, 2, 0, 0, 0, 1, 2, 0, 0, 0, 0, 0, 0, 0, 0, 0, 2, 0, 0, 0, 0, 0,
    ],
];

/// The bytes aren't decoded.
fn assert_none(rt: &(impl Abort + AllocGlobal), payload: &[u8]) {
    let commit = decode(rt.alloc(), payload).expect(rt, "memory");
    assert!(rt; commit.is_none(), "at {payload:?}");
}

/// The INSERT, and these bytes behind it.
fn insert_and(rt: &(impl Abort + AllocGlobal), behind: &[u8]) -> Vec<u8> {
    let mut bytes = Vec::from_slice(rt.alloc(), &INSERT).expect(rt, "memory");
    bytes.extend_from_slice(behind).expect(rt, "memory");
    bytes
}

#[test]
fn payloads_that_are_none(rt: HostRuntime) {
    // a byte less, a byte more, and another tag before the row
    assert_none(&rt, &INSERT[..39]);
    assert_none(&rt, &insert_and(&rt, &[0]));
    let mut other_tag = insert_and(&rt, &[]);
    if let Some(tag) = other_tag.get_mut(18) {
        *tag = 2;
    }
    assert_none(&rt, &other_tag);
    for payload in &NO_PAYLOADS {
        assert_none(&rt, payload);
    }
}

/// The payload of a CREATE TABLE whose text has so many bytes, fewer than 2 ^ 32.
fn long_text(rt: &(impl Abort + AllocGlobal), length: u32) -> Vec<u8> {
    let mut payload = Vec::from_slice(rt.alloc(), &[1]).expect(rt, "memory");
    payload
        .extend_from_slice(&length.to_be_bytes())
        .expect(rt, "memory");
    payload.resize(5 + length as usize, 97).expect(rt, "memory");
    payload
}

/// How many bytes such a payload is encoded to.
fn encoded_length(rt: &(impl Abort + AllocGlobal), length: u32) -> Result<usize, EncodeFault> {
    let commit = decoded(rt, &long_text(rt, length));
    let framed = encode(rt.alloc(), &commit)?;
    Ok(framed.items().len())
}

#[test]
fn a_payload_of_the_limit_is_encoded_and_none_above(rt: HostRuntime) {
    assert_eq!(rt; encoded_length(&rt, 16_777_211), Ok(16_777_221));
    assert_eq!(rt;
        encoded_length(&rt, 16_777_212),
        Err(EncodeFault::TooBig(16_777_217))
    );
}
