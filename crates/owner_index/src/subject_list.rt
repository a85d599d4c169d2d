ghost use Rattle.std.specs.Prelude.{◌≡◌, ◌<◌, ◌++◌, ◌∷◌, [], length, IfOk};
ghost use Rattle.owner_index.specs.SubjectPlaces.{subjects_in};

use own_base::{List, MakeCopy, Subject};
use std::alloc::{AllocError, Global};
use std::marker::Model;
use std::sync::Arc;

/// Where some subjects lie: one in the place itself, which most rows need no more than. Of more, copies share what there is, and
/// two lie in one piece with the count of the copies.
#[derive(Drop)]
pub(crate) enum SubjectPlaces {
    Nowhere,
    One([Subject; 1]),
    Two(Arc<[Subject; 2], Global>),
    Shared(Arc<List<Subject>, Global>),
}

/// Some subjects, in order, which contracts see as the list of them.
#[derive(Drop)]
pub(crate) struct SubjectList {
    places: SubjectPlaces,
}

impl Model for SubjectList {
    ghost use Rattle.std.specs.Prelude.{List as Seq};
    ghost use Rattle.own_base.specs.declared.row_name.Subject.{Subject as Seen};
    ghost use Rattle.owner_index.specs.SubjectPlaces.{subjects_in};

    ghost Value = { Seq Seen };

    ghost view = { λ list. subjects_in list.places };
}

/// Takes the last of some subjects.
fn take_last(subjects: &mut Vec<Subject>) -> Subject
    requires { 0 < length subjects.old.items }
    ensures { subjects.old.items ≡ subjects.new.items ++ result ∷ [] }
{
    match subjects.pop() {
        Some(last) => last,
        None => unreachable!(),
    }
}

/// One subject.
fn one_place(subjects: Vec<Subject>) -> SubjectPlaces
    requires { length subjects.items ≡ 1 }
    ensures { subjects_in result ≡ subjects.items }
{
    let mut left = subjects;
    SubjectPlaces::One([take_last(&mut left)])
}

/// Two in one piece of memory.
fn two_places(alloc: Global, subjects: Vec<Subject>) -> Result<SubjectPlaces, AllocError>
    requires { length subjects.items ≡ 2 }
    ensures { IfOk result (λ places. subjects_in places ≡ subjects.items) }
{
    let mut left = subjects;
    let second = take_last(&mut left);
    let first = take_last(&mut left);
    Ok(SubjectPlaces::Two(Arc::new(alloc, [first, second])?))
}

impl SubjectList {
    /// The subjects of a list, in its order. For one or none it takes no memory.
    pub(crate) fn from_list(
        alloc: Global,
        subjects: List<Subject>,
    ) -> Result<SubjectList, AllocError>
        ensures { IfOk result (λ list. list ≡ subjects) }
    {
        let subjects = subjects.into_vec();
        let places = match subjects.len() {
            0 => SubjectPlaces::Nowhere,
            1 => one_place(subjects),
            2 => two_places(alloc, subjects)?,
            _ => SubjectPlaces::Shared(Arc::new(alloc, List::from_vec(subjects))?),
        };
        Ok(SubjectList { places })
    }

    /// Lends them, in order. Takes no memory.
    pub(crate) fn items(&self) -> &[Subject]
        ensures { result.now ≡ self.now }
    {
        match &self.places {
            SubjectPlaces::Nowhere => &[],
            SubjectPlaces::One(one) => one.as_slice(),
            SubjectPlaces::Two(both) => both.as_slice(),
            SubjectPlaces::Shared(subjects) => subjects.items(),
        }
    }
}

impl MakeCopy for SubjectList {
    /// Takes no memory; `AllocError` comes only where the count of those that share a text or the subjects is full.
    fn copy(&self, alloc: Global) -> Result<SubjectList, AllocError> {
        let places = match &self.places {
            SubjectPlaces::Nowhere => SubjectPlaces::Nowhere,
            SubjectPlaces::One([one]) => SubjectPlaces::One([one.copy(alloc)?]),
            SubjectPlaces::Two(both) => SubjectPlaces::Two(Arc::try_clone(both)?),
            SubjectPlaces::Shared(subjects) => SubjectPlaces::Shared(Arc::try_clone(subjects)?),
        };
        Ok(SubjectList { places })
    }
}
