//! Access from what is kept for a data subject, beside access that goes over the whole store.
ghost use Rattle.std.specs.Prelude.{◌<◌, length};
ghost use Rattle.state_model.specs.Sound.{IsWellFormed};

use own_base::{SessionNo, Subject, Text};
use own_model::{Reply, StoreView};
use shelf_access::{collect, sights_of};
use sql_print::print_reply;
use std::mem::drop;
use std::process::Abort;
use store_version::{Shown, Version};
use subject_access::collect_by_graph;

/// The answer to a GET from the whole store.
fn flat_get(rt: &(impl Abort + AllocGlobal), version: &Version, subject: &Subject) -> Reply
    requires well_formed { IsWellFormed version.now }
    requires there { subject.now.0.table.0 < length version.now.schema.tables }
{
    let shown = Shown { version };
    collect_by_graph(rt.alloc(), &shown, version.graph(), subject).expect(rt, "memory")
}

/// The answer to a GET by a subject that is there, from what is kept for it.
fn kept_get(rt: &(impl Abort + AllocGlobal), version: &Version, subject: &Subject) -> Reply
    requires well_formed { IsWellFormed version.now }
    requires there { subject.now.0.table.0 < length version.now.schema.tables }
{
    let shown = Shown { version };
    if shown.row(&subject.0).is_none() {
        panic!(rt; "no subject");
    }
    let seen = sights_of(rt.alloc(), &shown, subject).expect(rt, "memory");
    let reply = collect(rt.alloc(), version.schema(), &shown, seen.items(), subject);
    drop(seen);
    reply.expect(rt, "memory")
}

/// The text of a reply.
fn text_of(rt: &(impl Abort + AllocGlobal), reply: Reply) -> Text {
    let text = print_reply(rt.alloc(), None, SessionNo(1), 1, &reply);
    drop(reply);
    text.expect(rt, "memory")
}

/// Compares the two answers to a GET by a subject that is there.
pub fn check_get(rt: &(impl Abort + AllocGlobal), version: &Version, subject: &Subject)
    requires { IsWellFormed version.now }
{
    assert!(rt; (subject.0.table.0 as usize) < version.schema().tables.items().len());
    let flat = text_of(rt, flat_get(rt, version, subject));
    let kept = text_of(rt, kept_get(rt, version, subject));
    assert_eq!(rt; kept.as_str(), flat.as_str());
    drop(kept);
    drop(flat);
}
