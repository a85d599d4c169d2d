ghost use Rattle.std.specs.Prelude.{◌≡◌, ◌+◌, ◌≤◌, length, true, false, IsTrue, if◌then◌else◌};
ghost use Rattle.own_model.specs.Db.{Db};
ghost use Rattle.own_model.specs.declared.limit.TheConstants.{JOURNAL_ROOM};
ghost use Rattle.state_model.specs.Sound.{Sound};
ghost use Rattle.check_image.specs.Gated.{IsGatedImage};
ghost use Rattle.commit_record.specs.Recorded.{IsRecordOf};
ghost use Rattle.store_disk.specs.Kept.{IsSomeFramed, IsSomeGated, IsSomeKept};
ghost use Rattle.engine_core.specs.Stored.{Carries, IsUp};

use outer_world::{Disk, Failed};
use own_model::Verdict;
use store_disk::StoreDisk;

/// Asks the disk to take the record of a commit. Takes no memory.
pub(crate) fn take<D: Disk>(store: &mut StoreDisk<D>, framed: &[u8]) -> Verdict
    requires sound { store.old.journal.failed ≡ false }
    requires at_rest { IsTrue (D.honest store.old.journal.disk) → IsSomeKept D.holds D.leaves store.old.journal store.old.commits }
    requires framed { IsSomeFramed framed.now }
    ensures carried { (db next : Db) → IsUp D.holds D.leaves D.honest store.old db → IsRecordOf db next framed.now
        → Carries D.holds D.leaves D.moment D.might_have_left D.honest D.faults db next true true false (length framed.now) store.old result store.new }
{
    if !store.fits(framed.len() as u64) {
        return Verdict::NoRoom;
    }
    match store.append(framed) {
        Ok(()) => Verdict::Took,
        Err(Failed) => Verdict::DiskFault,
    }
}

/// How many commits make what is laid anew, with one more where it counts as one.
fn commits_of<D: Disk>(store: &StoreDisk<D>, counts: bool) -> u64
    requires { store.now.commits + 1 ≤ JOURNAL_ROOM }
    ensures { result ≡ store.now.commits + (if counts then 1 else 0) }
{
    if counts {
        store.commits() + 1
    } else {
        store.commits()
    }
}

/// Asks the disk to lay the store anew, as its image: what a commit leaves, where it counts as one. Takes no memory.
pub(crate) fn lay<D: Disk>(store: &mut StoreDisk<D>, gated: &[u8], counts: bool) -> Verdict
    requires sound { store.old.journal.failed ≡ false }
    requires at_rest { IsTrue (D.honest store.old.journal.disk) → IsSomeKept D.holds D.leaves store.old.journal store.old.commits }
    requires gated { IsSomeGated (store.old.commits + (if counts then 1 else 0)) gated.now }
    ensures carried { (db next : Db) → IsUp D.holds D.leaves D.honest store.old db → Sound next
        → IsGatedImage next (store.old.commits + (if counts then 1 else 0)) gated.now
        → Carries D.holds D.leaves D.moment D.might_have_left D.honest D.faults db next true counts true (length gated.now) store.old result store.new }
{
    if !store.fits(gated.len() as u64) {
        return Verdict::NoRoom;
    }
    let commits = commits_of(store, counts);
    match store.replace(gated, commits) {
        Ok(()) => Verdict::Took,
        Err(Failed) => Verdict::DiskFault,
    }
}
