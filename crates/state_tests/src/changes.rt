//! Changes of rows as cases have them.

use own_base::{Change, Key, List, Row, RowName};
use own_model::Reply;
use std::alloc::{AllocError, Global};
use std::process::Abort;

/// Whether a row has the name of this table's number and key.
pub fn is_named(name: &RowName, wanted: (u32, i64)) -> bool {
    name.table.0 == wanted.0 && name.key == Key::Int(wanted.1)
}

/// Looks at the names of changes.
pub fn check_names(rt: &impl Abort, changes: &List<Change>, wanted: &[(u32, i64)]) {
    let found = changes.items();
    assert_eq!(rt; found.len(), wanted.len());
    assert!(rt;
        found
            .iter()
            .zip(wanted)
            .all(|(change, name)| is_named(&change.name, *name))
    );
}

/// The rows that changes leave.
pub fn rows_left(alloc: Global, changes: List<Change>) -> Result<Reply, AllocError> {
    let mut rows: List<Row> = List::new(alloc);
    for change in changes.into_vec() {
        let Change { after, .. } = change;
        if let Some(row) = after {
            rows.add(row)?;
        }
    }
    Ok(Reply::Rows(rows))
}
