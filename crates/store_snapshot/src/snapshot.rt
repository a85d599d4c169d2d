ghost use Rattle.std.specs.Prelude.{◌≡◌, if◌then◌else◌, IfOk, IsTrue, length};
ghost use Rattle.own_model.specs.declared.bound.Source1.TheVariants.{View};
ghost use Rattle.own_model.specs.declared.refusal.Refusal.TheVariants.{NoSubject};
ghost use Rattle.own_model.specs.declared.reply.Reply.TheVariants.{Got, Refused};
ghost use Rattle.page_model.specs.Run.{IsRunFrom};
ghost use Rattle.query_model.specs.Query.{source_rows};
ghost use Rattle.run_model.specs.Run.{run_bound};
ghost use Rattle.schema_model.specs.Tables.{is_subject};
ghost use Rattle.state_model.specs.Sound.{IsWellFormed};
ghost use Rattle.subject_model.specs.Get.{get, table_name};
ghost use Rattle.subject_model.specs.Named.{is_there};
ghost use Rattle.store_snapshot.specs.Reads.{IsRead};
ghost use Rattle.view_deltas.specs.RunRows.{run_rows};

use crate::reading::{access, selected};
use own_base::{MakeCopy, Subject, ViewNo};
use own_model::{Bound, Reply, Schema};
use serve_model::Looks;
use std::alloc::{AllocError, Global};
use std::marker::Model;
use std::sync::Arc;
use store_version::{Shown, Version};
use view_deltas::ViewRun;

/// The state of a store at one moment, which contracts see as the database that it shows. Whatever becomes of the store, it stays.
#[derive(Drop)]
pub struct Snapshot {
    alloc: Global,
    version: Arc<Version, Global>,
}

impl Model for Snapshot {
    ghost use Rattle.own_model.specs.Db.{Db};
    ghost use Rattle.own_model.specs.contracts.bound.BoundCond as cond;
    ghost use Rattle.std.specs.Coded.{codes};

    ghost Value = { Db };

    ghost coded = { Prim.hlevel (codes, cond.the_row.coded) };

    ghost view = { λ snapshot. snapshot.version.value };

    ghost use Rattle.state_model.specs.Sound.{IsWellFormed};

    ghost invariant = { λ snapshot. IsWellFormed snapshot.version.value };
}

impl Snapshot {
    /// What a version shows, which both share. Takes no memory; `AllocError` comes only where the count of those that share it is
    /// full. Its looks take theirs of the allocator.
    pub fn of(alloc: Global, version: &Arc<Version, Global>) -> Result<Snapshot, AllocError>
        requires { IsWellFormed version.now.value }
        ensures { IfOk result (λ snapshot. snapshot ≡ version.now.value) }
    {
        let version = Arc::try_clone(version)?;
        Ok(Snapshot { alloc, version })
    }

    /// What a version shows, from which the store may then go on: both share its parts. It takes memory for a list of as many parts as
    /// there are tables.
    pub fn taken(alloc: Global, version: &Version) -> Result<Snapshot, AllocError>
        requires { IsWellFormed version.now }
        ensures { IfOk result (λ snapshot. snapshot ≡ version.now) }
    {
        let version = version.copy(alloc)?;
        let version = Arc::new(alloc, version)?;
        Ok(Snapshot { alloc, version })
    }

    /// Lends the version, whose views and whose subjects' shelves are kept. Takes no memory.
    fn version(&self) -> &Version
        ensures same { result.now ≡ self.now }
        ensures well_formed { IsWellFormed self.now }
    {
        &self.version
    }

    /// Lends the version: its rows, who holds what in them, whose they are, and copies of each data subject's rows. Takes no
    /// memory.
    pub fn shown(&self) -> Shown<'_>
        ensures { result.version.now ≡ self.now }
    {
        Shown {
            version: self.version(),
        }
    }

    /// Lends the schema. Takes no memory.
    pub fn schema(&self) -> &Schema
        ensures { result.now ≡ self.now.schema }
    {
        self.version().schema()
    }

    /// How many rows a view shows. Takes no memory.
    pub fn view_count(&self, view: ViewNo) -> u64
        ensures { result ≡ length (source_rows self.now.schema self.now.rows (View view)) }
    {
        self.version().views().view_count(view)
    }

    /// Lends a run of the rows of a view that begins at a place of the view's order, counted from 0: at
    /// least one where there is one, and none past the end. Called again behind each run, it goes over all rows. Takes no
    /// memory.
    pub fn view_from(&self, view: ViewNo, at: u64) -> ViewRun<'_>
        ensures { IsRunFrom (source_rows self.now.schema self.now.rows (View view)) at (run_rows result) }
    {
        self.version().views().view_from(view, at)
    }

    /// The reply to a bound SELECT or EXPLAIN.
    #[tactic(auto, unfolding(run_model::specs::Run::run_bound))]
    pub fn answer(&self, alloc: Global, bound: &Bound) -> Result<Reply, AllocError>
        requires { IsRead self.now.schema bound.now }
        ensures { IfOk result (λ reply. reply ≡ (run_bound self.now bound.now).reply) }
    {
        match bound {
            Bound::Select(query) => selected(alloc, self.version(), query),
            Bound::Explain => self.version().catalog().explain(alloc),
            _ => unreachable!(),
        }
    }

    /// The reply to a GDPR GET by a row of a table of data subjects: what it reaches, or that there is no such row.
    #[tactic(auto, unfolding(run_model::specs::Run::show_subject))]
    pub fn subject_get(&self, alloc: Global, subject: &Subject) -> Result<Reply, AllocError>
        requires { IsTrue (is_subject self.now.schema subject.now.0.table.0) }
        ensures { IfOk result (λ reply. reply ≡ (if is_there self.now subject.now.0 then Got (get self.now subject.now.0)
            else Refused (NoSubject (table_name self.now.schema subject.now.0.table.0) subject.now.0.key))) }
    {
        access(alloc, self.version(), subject)
    }
}

impl MakeCopy for Snapshot {
    /// The same, which both share. Takes no memory; `AllocError` comes only where the count of those that share it is full.
    fn copy(&self, _alloc: Global) -> Result<Snapshot, AllocError> {
        let version = Arc::try_clone(&self.version)?;
        Ok(Snapshot {
            alloc: self.alloc,
            version,
        })
    }
}

impl Looks for Snapshot {
    ghost db = { λ snapshot. snapshot };

    fn schema(&self) -> &Schema {
        self.version().schema()
    }

    fn creates(&self) -> usize {
        self.version().catalog().creates().len()
    }

    #[tactic(auto, unfolding(run_model::specs::Run::run_bound))]
    fn look(&self, bound: &Bound) -> Result<Reply, AllocError> {
        match bound {
            Bound::Get(subject) => access(self.alloc, self.version(), subject),
            _ => self.answer(self.alloc, bound),
        }
    }
}
