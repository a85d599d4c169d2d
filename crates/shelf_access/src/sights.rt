ghost use Rattle.std.specs.Prelude.{◌≡◌, ◌++◌, IfOk, OnOk, flat_map};
ghost use Rattle.schema_model.specs.OwnerSchema.{IsOwnerSchema};
ghost use Rattle.shelf_access.specs.Sights.{sight_of, sights};

use link_model::Linked;
use micro_db::copy_of;
use own_base::{List, RowName, Subject};
use shelf_model::{Shelved, Shelves};
use std::alloc::{AllocError, Global};

/// Adds the copy of a row, where the row is there.
fn add_sight<V: Linked>(
    alloc: Global,
    view: &V,
    subject: &Subject,
    name: &RowName,
    copies: &mut List<Shelved>,
) -> Result<(), AllocError>
    requires { IsOwnerSchema (V.db view.now).schema }
    ensures { OnOk result (copies.new ≡ copies.old ++ sight_of (V.db view.now) subject.now.0 name.now) }
{
    match copy_of(alloc, view, subject, name)? {
        Some(copy) => copies.add(copy),
        None => Ok(()),
    }
}

/// Adds the copies of the rows of a run of names.
fn add_run<V: Linked>(
    alloc: Global,
    view: &V,
    subject: &Subject,
    run: &[(Subject, RowName)],
    copies: &mut List<Shelved>,
) -> Result<(), AllocError>
    requires { IsOwnerSchema (V.db view.now).schema }
    ensures { OnOk result (copies.new ≡ copies.old ++ flat_map (λ filed. sight_of (V.db view.now) subject.now.0 filed.1) run.now) }
{
    for filed in run {
        add_sight(alloc, view, subject, &filed.1, copies)?;
    }
    Ok(())
}

/// Copies of the rows that a subject reaches and doesn't own, with the edges by which it reaches them, by table, then key.
pub fn sights_of<V: Linked + Shelves>(
    alloc: Global,
    view: &V,
    subject: &Subject,
) -> Result<List<Shelved>, AllocError>
    requires owner { IsOwnerSchema (V.db view.now).schema }
    requires one { V.shelved view.now ≡ V.db view.now }
    ensures { IfOk result (λ copies. copies ≡ sights (V.db view.now) subject.now.0) }
{
    let count = view.seen_count(subject);
    let mut copies = List::new(alloc);
    let mut at = 0;
    while at < count {
        let run = view.seen_from(subject, at);
        add_run(alloc, view, subject, run, &mut copies)?;
        at += run.len() as u64;
    }
    Ok(copies)
}
