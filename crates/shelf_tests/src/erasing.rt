//! Erasure from what is kept for a data subject, beside erasure that goes over the whole store.
ghost use Rattle.std.specs.Prelude.{IsTrue, MatchBool, ⊤};
ghost use Rattle.schema_model.specs.Tables.{is_subject};
ghost use Rattle.state_model.specs.Sound.{IsWellFormed, Sound};

use commit_check::{Judged, judge_flat};
use own_base::{Change, List, Subject};
use row_reading::is_subject;
use std::mem::drop;
use std::process::Abort;
use store_version::{Shown, Version};

/// Whether a version has no fault.
fn is_sound(rt: &(impl Abort + AllocGlobal), version: &Version) -> bool
    requires { IsWellFormed version.now }
    ensures { MatchBool result (Sound version.now) ⊤ }
{
    let shown = Shown { version };
    match judge_flat(rt.alloc(), &shown).expect(rt, "memory") {
        Judged::Weighs(_) => true,
        Judged::Fault(_) => false,
    }
}

/// What a FORGET changes, from the whole store.
fn flat_forget(
    rt: &(impl Abort + AllocGlobal),
    version: &Version,
    subject: &Subject,
) -> List<Change>
    requires sound { Sound version.now }
    requires subject { IsTrue (is_subject version.now.schema subject.now.0.table.0) }
{
    let shown = Shown { version };
    subject_erase::erase_changes(rt.alloc(), &shown, version.graph(), subject).expect(rt, "memory")
}

/// What it changes, from what is kept for the subject.
fn kept_forget(
    rt: &(impl Abort + AllocGlobal),
    version: &Version,
    subject: &Subject,
) -> List<Change>
    requires sound { Sound version.now }
    requires subject { IsTrue (is_subject version.now.schema subject.now.0.table.0) }
{
    let shown = Shown { version };
    shelf_erase::erase_changes(rt.alloc(), &shown, version.graph(), subject).expect(rt, "memory")
}

/// Whether two changes are of one row and leave it alike.
fn is_same(change: &Change, other: &Change) -> bool {
    let alike = match (&change.after, &other.after) {
        (None, None) => true,
        (Some(row), Some(other)) => row.values() == other.values(),
        _ => false,
    };
    alike && change.name == other.name
}

/// Compares what a FORGET changes both ways. It changes at least the subject's own row.
pub fn check_forget(rt: &(impl Abort + AllocGlobal), version: &Version, subject: &Subject)
    requires { IsWellFormed version.now }
{
    let sound = is_sound(rt, version);
    assert!(rt; sound);
    let there = is_subject(version.schema(), subject.0.table.0 as usize);
    assert!(rt; there);
    let flat = flat_forget(rt, version, subject);
    let kept = kept_forget(rt, version, subject);
    assert!(rt; !kept.items().is_empty());
    assert_eq!(rt; kept.items().len(), flat.items().len());
    assert!(rt;
        kept.items()
            .iter()
            .zip(flat.items())
            .all(|(change, other)| is_same(change, other))
    );
    drop(kept);
    drop(flat);
}
