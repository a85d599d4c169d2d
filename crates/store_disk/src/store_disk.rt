ghost use Rattle.std.specs.Prelude.{◌≡◌, ◌+◌, ◌≤◌, ◌↔◌, false, true, length, IsTrue, OnOk, OnErr};
ghost use Rattle.own_model.specs.Db.{Db};
ghost use Rattle.state_model.specs.Sound.{Sound};
ghost use Rattle.outer_world.specs.FaultCount.{CountRose};
ghost use Rattle.outer_world.specs.LeavesOnly.{LeavesOnly};
ghost use Rattle.outer_world.specs.OtherArea.{other_of};
ghost use Rattle.disk_model.specs.declared.commit.Commit.{Commit};
ghost use Rattle.disk_model.specs.Follows.{Follows};
ghost use Rattle.commit_journal.specs.JournalState.{IsAt};
ghost use Rattle.rec_codec.specs.Framed.{IsFramed};
ghost use Rattle.check_image.specs.Gated.{IsGatedImage};
ghost use Rattle.crash_model.specs.Alone.{IsAloneOn};
ghost use Rattle.store_disk.specs.Kept.{HasRoomFor, IsEither, IsKept, IsSomeFramed, IsSomeGated, IsSomeKept};

use commit_journal::Journal;
use outer_world::{Disk, Failed};
use own_model::JOURNAL_ROOM;
use sql_print::laws::canonical_text_reads_back;

/// The disk of a store: its journal, and how many commits made the database that the journal keeps. Once a call has failed
/// it is used no more, and the store is opened anew.
#[derive(Drop)]
pub struct StoreDisk<D: Disk> {
    journal: Journal<D>,
    commits: u64,
}

impl<D: Disk> StoreDisk<D> {
    /// The disk of a store that was opened: its journal, which keeps a database that so many commits made. Takes no memory.
    pub fn new(journal: Journal<D>, commits: u64) -> StoreDisk<D>
        ensures journal { result.journal ≡ journal }
        ensures commits { result.commits ≡ commits }
    {
        StoreDisk { journal, commits }
    }

    /// How many commits made the database. Takes no memory.
    pub fn commits(&self) -> u64
        ensures { result ≡ self.now.commits }
    {
        self.commits
    }

    /// The epoch of its journal. Takes no memory.
    pub fn epoch(&self) -> u64
        ensures { result ≡ self.now.journal.epoch }
    {
        self.journal.epoch()
    }

    /// Where the records of its journal end. Takes no memory.
    pub fn end(&self) -> u64
        ensures { result ≡ self.now.journal.end }
    {
        self.journal.end()
    }

    /// Whether an epoch, a commit and so many bytes more are within the room of a journal. Takes no memory.
    pub fn fits(&self, bytes: u64) -> bool
        ensures { IsTrue result ↔ HasRoomFor self.now.journal self.now.commits bytes }
    {
        self.commits < JOURNAL_ROOM && self.journal.fits(bytes)
    }

    /// Adds a commit, as its record: after `Ok` a crash leaves the database that it leads to. Takes no memory.
    pub fn append(&mut self, framed: &[u8]) -> Result<(), Failed>
        requires sound { self.old.journal.failed ≡ false }
        requires room { HasRoomFor self.old.journal self.old.commits (length framed.now) }
        requires framed { IsSomeFramed framed.now }
        requires at_rest { IsTrue (D.honest self.old.journal.disk) → IsSomeKept D.holds D.leaves self.old.journal self.old.commits }

        ensures at { OnOk result (IsAt self.new.journal self.old.journal.area self.old.journal.epoch (self.old.journal.end + length framed.now)) }
        ensures commits { OnOk result (self.new.commits ≡ self.old.commits + 1) }
        ensures no_more { OnErr result (self.new.commits ≡ self.old.commits) }
        ensures failed { OnErr result (self.new.journal.failed ≡ true) }
        ensures kept { OnOk result ((commit : Commit) (db after : Db) → IsTrue (D.honest self.old.journal.disk)
            → IsFramed commit framed.now → Follows db commit after
            → IsKept D.holds D.leaves self.old.journal db self.old.commits
            → IsKept D.holds D.leaves self.new.journal after self.new.commits) }
        ensures moments { (commit : Commit) (db after : Db) → IsTrue (D.honest self.old.journal.disk)
            → IsFramed commit framed.now → Follows db commit after
            → IsKept D.holds D.leaves self.old.journal db self.old.commits
            → LeavesOnly D.moment D.might_have_left (IsEither db self.old.commits after (self.old.commits + 1)) self.old.journal.disk self.new.journal.disk }
        ensures honesty { D.honest self.new.journal.disk ≡ D.honest self.old.journal.disk }
        ensures time { D.moment self.old.journal.disk ≤ D.moment self.new.journal.disk }

        ensures fault { OnErr result (CountRose (D.faults self.old.journal.disk) (D.faults self.new.journal.disk)) }
        ensures steady { OnOk result (D.faults self.new.journal.disk ≡ D.faults self.old.journal.disk) }
        ensures counted { D.faults self.old.journal.disk ≤ D.faults self.new.journal.disk }
    {
        self.journal.append(framed)?;
        self.commits += 1;
        Ok(())
    }

    /// Lays a database anew, as its image with the number of the commits that made it: the one that is kept, or one to which
    /// a commit more leads. After `Ok` nothing else is on the disk, and a crash leaves nothing else. Takes no memory.
    pub fn replace(&mut self, gated: &[u8], commits: u64) -> Result<(), Failed>
        requires sound { self.old.journal.failed ≡ false }
        requires room { HasRoomFor self.old.journal self.old.commits (length gated.now) }
        requires most { commits ≤ self.old.commits + 1 }
        requires gated { IsSomeGated commits gated.now }
        requires at_rest { IsTrue (D.honest self.old.journal.disk) → IsSomeKept D.holds D.leaves self.old.journal self.old.commits }

        ensures at { OnOk result (IsAt self.new.journal (other_of self.old.journal.area) (self.old.journal.epoch + 1) (16 + length gated.now)) }
        ensures commits { OnOk result (self.new.commits ≡ commits) }
        ensures no_more { OnErr result (self.new.commits ≡ self.old.commits) }
        ensures failed { OnErr result (self.new.journal.failed ≡ true) }
        ensures kept { OnOk result ((next : Db) → IsTrue (D.honest self.old.journal.disk)
            → Sound next → IsGatedImage next commits gated.now
            → IsKept D.holds D.leaves self.new.journal next commits) }
        ensures alone { OnOk result ((next : Db) → IsTrue (D.honest self.old.journal.disk)
            → IsGatedImage next commits gated.now
            → IsAloneOn D.holds D.leaves self.new.journal.disk next commits (self.old.journal.epoch + 1) (other_of self.old.journal.area)) }
        ensures moments { (db next : Db) → IsTrue (D.honest self.old.journal.disk)
            → Sound next → IsGatedImage next commits gated.now
            → IsKept D.holds D.leaves self.old.journal db self.old.commits
            → LeavesOnly D.moment D.might_have_left (IsEither db self.old.commits next commits) self.old.journal.disk self.new.journal.disk }
        ensures honesty { D.honest self.new.journal.disk ≡ D.honest self.old.journal.disk }
        ensures time { D.moment self.old.journal.disk ≤ D.moment self.new.journal.disk }

        ensures fault { OnErr result (CountRose (D.faults self.old.journal.disk) (D.faults self.new.journal.disk)) }
        ensures steady { OnOk result (D.faults self.new.journal.disk ≡ D.faults self.old.journal.disk) }
        ensures counted { D.faults self.old.journal.disk ≤ D.faults self.new.journal.disk }
    {
        // A sound database is lawful as its image, since the texts of its creates read back.
        canonical_text_reads_back();
        self.journal.replace(gated)?;
        self.commits = commits;
        Ok(())
    }

    /// Lends the disk, for its count of faults and its moment. Takes no memory.
    pub fn disk(&self) -> &D
        ensures { result.now ≡ self.now.journal.disk }
    {
        self.journal.disk()
    }

    /// Whether a call has failed. Takes no memory.
    pub fn failed(&self) -> bool
        ensures { result ≡ self.now.journal.failed }
    {
        self.journal.failed()
    }

    /// The disk. Takes no memory.
    pub fn close(self) -> D
        ensures { result ≡ self.journal.disk }
    {
        let StoreDisk { journal, .. } = self;
        journal.close()
    }
}
