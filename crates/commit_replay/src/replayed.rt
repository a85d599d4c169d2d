ghost use Rattle.std.specs.Prelude.{◌≡◌, IfOk, OnErr};
ghost use Rattle.own_model.specs.Db.{empty};
ghost use Rattle.state_model.specs.Sound.{Sound};
ghost use Rattle.state_model.specs.Weight.{weight};
ghost use Rattle.disk_model.specs.Bounds.{IsBounded, IsBoundedImage};
ghost use Rattle.commit_replay.specs.Begins.{Begins};
ghost use Rattle.commit_replay.specs.Followed.{IsFollowed};

use crate::going::{go_on_by_create, go_on_by_forget};
use crate::image::with_image;
use crate::puts::follow_changes;
use disk_model::{Commit, Image};
use std::alloc::{AllocError, Global};
use std::marker::Model;
use store_version::Version;

/// The state of a store on its way through the commits of a journal, and what it weighs. Contracts see the database,
/// which is sound.
#[derive(Drop)]
pub struct Replayed {
    pub(crate) version: Version,
    pub(crate) weighs: u64,
}

impl Model for Replayed {
    ghost use Rattle.std.specs.Prelude.{◌≡◌};
    ghost use Rattle.own_model.specs.Db.{Db};
    ghost use Rattle.own_model.specs.contracts.bound.BoundCond as cond;
    ghost use Rattle.std.specs.Coded.{codes};
    ghost use Rattle.state_model.specs.Sound.{Sound};
    ghost use Rattle.state_model.specs.Weight.{weight};

    ghost Value = { Db };

    ghost coded = { Prim.hlevel (codes, cond.the_row.coded) };

    ghost view = { λ replayed. replayed.version };

    ghost invariant = { λ replayed. Sound replayed.version × (weight replayed.version ≡ replayed.weighs) };
}

impl Replayed {
    /// No table, and no commit yet.
    pub fn new(alloc: Global) -> Result<Replayed, AllocError>
        ensures { IfOk result (λ replayed. replayed ≡ empty) }
    {
        let version = Version::new(alloc)?;
        Ok(Replayed { version, weighs: 0 })
    }

    /// The state of an image, or None where the image is of no database. Each row is gone through once.
    pub fn of_image(alloc: Global, image: &Image) -> Result<Option<Replayed>, AllocError>
        requires { IsBoundedImage image.now }
        ensures { Begins image.now result }
    {
        with_image(alloc, image)
    }

    /// Lends the version, which is sound. Takes no memory.
    pub fn version(&self) -> &Version
        ensures same { result.now ≡ self.now }
        ensures sound { Sound result.now }
    {
        &self.version
    }

    /// The version, and what it weighs. Takes no memory.
    pub fn into_parts(self) -> (Version, u64)
        ensures version { result.0 ≡ self }
        ensures sound { Sound result.0 }
        ensures weighs { weight self ≡ result.1 }
    {
        let Replayed { version, weighs } = self;
        (version, weighs)
    }

    /// Goes on by a commit, where it is lawful here; else answers false, and the state stays. So it does after
    /// `AllocError`. Of a commit of rows, those that it changes, who holds their values or refers to them, and the rows
    /// whose subjects it moves are looked at, and no others.
    pub fn follow(&mut self, alloc: Global, commit: &Commit) -> Result<bool, AllocError>
        requires bounded { IsBounded commit.now }
        ensures followed { IfOk result (IsFollowed self.old commit.now self.new) }
        ensures unchanged { OnErr result (self.new ≡ self.old) }
    {
        match commit {
            Commit::CreateTable(text) => {
                go_on_by_create(alloc, &mut self.version, &mut self.weighs, false, text)
            }
            Commit::CreateView(text) => {
                go_on_by_create(alloc, &mut self.version, &mut self.weighs, true, text)
            }
            Commit::Changes(puts) => {
                follow_changes(alloc, &mut self.version, &mut self.weighs, puts.items())
            }
            Commit::Forget(name) => {
                go_on_by_forget(alloc, &mut self.version, &mut self.weighs, name)
            }
        }
    }
}
