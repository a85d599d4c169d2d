//! A store as statements leave it.
ghost use Rattle.state_model.specs.Sound.{IsWellFormed};

use crate::writing::{Step, next_of, read};
use std::marker::Model;
use std::mem::drop;
use std::process::Abort;
use store_version::{Version, publish};

/// A store as statements leave it, which contracts see as its database.
#[derive(Drop)]
pub struct Store {
    version: Version,
}

impl Model for Store {
    ghost use Rattle.own_model.specs.Db.{Db};
    ghost use Rattle.own_model.specs.contracts.bound.BoundCond as cond;
    ghost use Rattle.std.specs.Coded.{codes};
    ghost use Rattle.state_model.specs.Sound.{IsWellFormed};

    ghost Value = { Db };

    ghost coded = { Prim.hlevel (codes, cond.the_row.coded) };

    ghost view = { λ store. store.version };

    ghost invariant = { λ store. IsWellFormed store.version };
}

impl Store {
    /// A store without tables.
    pub fn new(rt: &(impl Abort + AllocGlobal)) -> Store {
        Store {
            version: Version::new(rt.alloc()).expect(rt, "memory"),
        }
    }

    /// Lends the version.
    pub fn version(&self) -> &Version
        ensures { IsWellFormed result.now }
    {
        &self.version
    }

    /// Runs a CREATE TABLE or a write, which isn't refused, as a commit of its own.
    pub fn run(&mut self, rt: &(impl Abort + AllocGlobal), text: &str) -> Step {
        let statement = read(rt, text);
        let (next, step) = next_of(rt, &self.version, &statement);
        drop(statement);
        publish(&mut self.version, next);
        step
    }
}

/// A store after statements, one a line.
pub fn store_of(rt: &(impl Abort + AllocGlobal), texts: &str) -> Store {
    let mut store = Store::new(rt);
    for text in texts.split('\n') {
        drop(store.run(rt, text));
    }
    store
}
