ghost use Rattle.std.specs.Prelude.{◌≡◌};
ghost use Rattle.owner_sets.specs.SubjectOrder.{subject_cmp};
ghost use Rattle.subject_model.specs.NameOrder.{name_cmp};

use crate::of_row::OfRow;
use own_base::{Key, RowName, Subject};
use page_tree::{BoundOf, KeyOf};
use std::cmp::Ordering;
use table_part::hint_of_key;

/// How one name stands to another: by table, then by key. Takes no memory.
pub(crate) fn compare_names(one: &RowName, other: &RowName) -> Ordering
    ensures { result ≡ name_cmp one.now other.now }
{
    match one.table.0.cmp(&other.table.0) {
        Ordering::Equal => one.key.compare(&other.key),
        unequal => unequal,
    }
}

/// How one subject stands to another. Takes no memory.
pub(crate) fn compare_subjects(one: &Subject, other: &Subject) -> Ordering
    ensures { result ≡ subject_cmp one.now other.now }
{
    compare_names(&one.0, &other.0)
}

/// The numbers of subjects beside which a row's name has room in a hint: those below this one, from 0 on.
const FEW: i64 = 1 << 24;

/// The bits of a hint that are a row's name, where it has room, and those of these that are its key.
const ROW_BITS: u32 = 34;

const ROW_KEY_BITS: u32 = 30;

/// The bits of a hint that are a subject's key and what is beside it. Above them stand two by which such keys are told apart
/// as they rise, negative numbers, few, others and texts, and four of the subject's table.
const KEY_BITS: u32 = 58;

/// The greatest number that so many bits hold.
const GREATEST: i64 = (1 << KEY_BITS) - 1;

/// The hint of a row's name: its table, then its key, a number as far as there is room, and of a text what it begins with.
fn hint_of_row(name: &RowName) -> u64 {
    let table = u64::from(name.table.0.min(15)) << ROW_KEY_BITS;
    let key = match &name.key {
        Key::Int(number) => (*number)
            .max(0)
            .min((1 << ROW_KEY_BITS) - 1)
            .cast_unsigned(),
        Key::Text(_) => hint_of_key(&name.key) >> (64 - ROW_KEY_BITS),
    };
    table | key
}

/// The hint of a subject's key, and of a row's name where there is room.
fn hint_in_table(key: &Key, name: &RowName) -> u64 {
    match key {
        Key::Int(number) if *number < 0 => {
            (*number)
                .max(-GREATEST)
                .wrapping_add(GREATEST)
                .cast_unsigned()
        }
        Key::Int(number) if *number < FEW => {
            let own = (*number).cast_unsigned() << ROW_BITS;
            (1 << KEY_BITS) | own | hint_of_row(name)
        }
        Key::Int(number) => (2 << KEY_BITS) | (*number).min(GREATEST).cast_unsigned(),
        Key::Text(_) => (3 << KEY_BITS) | (hint_of_key(key) >> (64 - KEY_BITS)),
    }
}

/// The hint of a place: the subject's table, its key, and the row's name where there is room.
fn hint_of_place(subject: &Subject, name: &RowName) -> u64 {
    let table = u64::from(subject.0.table.0.min(15)) << (KEY_BITS + 2);
    table | hint_in_table(&subject.0.key, name)
}

/// What is filed is found by its subject, then by its row's name.
#[derive(Clone, Copy, Debug)]
pub(crate) struct ByPlace;

impl<T: OfRow> KeyOf<(Subject, T)> for ByPlace {
    type Key = (Subject, RowName);

    ghost use Rattle.micro_db.specs.FiledOrder.{place_cmp, place_total};

    ghost key_of = { λ _ filed. (filed.0, T.name_of filed.1) };

    ghost key_cmp = { place_cmp };

    fn compare(self, filed: &(Subject, T), place: &(Subject, RowName)) -> Ordering {
        match compare_subjects(&filed.0, &place.0) {
            Ordering::Equal => compare_names(filed.1.row_name(), &place.1),
            apart => apart,
        }
    }

    fn item_hint(self, filed: &(Subject, T)) -> u64 {
        hint_of_place(&filed.0, filed.1.row_name())
    }

    fn key_hint(self, place: &(Subject, RowName)) -> u64 {
        hint_of_place(&place.0, &place.1)
    }

    ghost total = { place_total };
}

/// What is filed under lower subjects stands below this bound.
#[derive(Debug, Drop)]
pub(crate) struct Before<'a> {
    pub(crate) subject: &'a Subject,
}

impl<'a, T: OfRow> BoundOf<(Subject, T), ByPlace> for Before<'a> {
    ghost use Rattle.micro_db.specs.FiledOrder.{before_filed};
    ghost use Rattle.ordered_pairs.specs.LeftBound.{is_before};

    ghost below = { λ bound _ filed. is_before subject_cmp bound.subject.now filed };

    fn is_above(&self, _by: ByPlace, filed: &(Subject, T)) -> bool {
        compare_subjects(&filed.0, self.subject).is_lt()
    }

    ghost monotone = { λ bound _. before_filed T.name_of bound.subject.now };
}

/// What is filed under lower subjects and under the subject itself stands below this bound.
#[derive(Debug, Drop)]
pub(crate) struct Upto<'a> {
    pub(crate) subject: &'a Subject,
}

impl<'a, T: OfRow> BoundOf<(Subject, T), ByPlace> for Upto<'a> {
    ghost use Rattle.micro_db.specs.FiledOrder.{upto_filed};
    ghost use Rattle.ordered_pairs.specs.LeftBound.{is_upto};

    ghost below = { λ bound _ filed. is_upto subject_cmp bound.subject.now filed };

    fn is_above(&self, _by: ByPlace, filed: &(Subject, T)) -> bool {
        !compare_subjects(&filed.0, self.subject).is_gt()
    }

    ghost monotone = { λ bound _. upto_filed T.name_of bound.subject.now };
}
