//! A store without a fault, as statements leave it.
ghost use Rattle.state_model.specs.Sound.{IsWellFormed, Sound};
ghost use Rattle.commit_check.specs.Judged.{IsJudged};

use crate::kept::next_of;
use crate::texts::read;
use commit_check::{Judged, judge_flat};
use std::marker::Model;
use std::mem::drop;
use std::process::Abort;
use store_version::{Next, Shown, Version, publish};

/// A store without a fault, which contracts see as its database.
#[derive(Drop)]
pub struct Store {
    version: Version,
}

impl Model for Store {
    ghost use Rattle.own_model.specs.Db.{Db};
    ghost use Rattle.own_model.specs.contracts.bound.BoundCond as cond;
    ghost use Rattle.std.specs.Coded.{codes};

    ghost Value = { Db };

    ghost coded = { Prim.hlevel (codes, cond.the_row.coded) };

    ghost view = { λ store. store.version };

    ghost use Rattle.state_model.specs.Sound.{Sound};

    ghost invariant = { λ store. Sound store.version };
}

/// What is judged of a version that stands.
pub fn judged_now(rt: &(impl Abort + AllocGlobal), version: &Version) -> Judged
    requires { IsWellFormed version.now }
    ensures { IsJudged version.now result }
{
    let shown = Shown { version };
    judge_flat(rt.alloc(), &shown).expect(rt, "memory")
}

/// What is judged of a version that is prepared.
pub fn judged(rt: &(impl Abort + AllocGlobal), next: &Next) -> Judged
    requires { IsWellFormed next.now }
    ensures { IsJudged next.now result }
{
    judged_now(rt, next.version())
}

impl Store {
    /// A store without tables.
    pub fn new(rt: &(impl Abort + AllocGlobal)) -> Store {
        Store {
            version: Version::new(rt.alloc()).expect(rt, "memory"),
        }
    }

    /// Lends the version, which has no fault.
    pub fn version(&self) -> &Version
        ensures { Sound result.now }
    {
        &self.version
    }

    /// Runs a statement that leaves no fault.
    pub fn run(&mut self, rt: &(impl Abort + AllocGlobal), text: &str) {
        let statement = read(rt, text);
        let next = next_of(rt, &self.version, &statement);
        drop(statement);
        match judged(rt, &next) {
            Judged::Weighs(_) => publish(&mut self.version, next),
            Judged::Fault(_) => panic!(rt; "a fault"),
        }
    }
}

/// A store after statements, one a line.
pub fn store_of(rt: &(impl Abort + AllocGlobal), texts: &str) -> Store {
    let mut store = Store::new(rt);
    for text in texts.split('\n') {
        store.run(rt, text);
    }
    store
}
