ghost use Rattle.std.specs.Prelude.{◌≡◌};
ghost use Rattle.std.specs.List.Sorted.{IsStrictlySortedBy};
ghost use Rattle.owner_index.specs.HeldMoves.{is_among};
ghost use Rattle.owner_sets.specs.SubjectOrder.{subject_cmp};
ghost use Rattle.schema_model.specs.OwnerSchema.{IsOwnerSchema};
ghost use Rattle.subject_model.specs.Owners.{owns, reaches};
ghost use Rattle.micro_db.specs.LeadsOn.{leads_on};

use link_model::Linked;
use own_base::{RowName, Subject};
use row_reading::{is_name, is_subject};

/// Whether a subject is one of these, which rise. It takes as many looks as their number has bits, and no memory.
fn is_among(subject: &Subject, subjects: &[Subject]) -> bool
    ensures { IsStrictlySortedBy subject_cmp subjects.now → result ≡ is_among subject.now subjects.now }
{
    subjects.binary_search(subject).is_ok()
}

/// Whether a subject owns a row. Takes no memory.
pub(crate) fn owns<N: Linked>(after: &N, subject: &Subject, name: &RowName) -> bool
    requires { IsOwnerSchema (N.db after.now).schema }
    ensures { result ≡ owns (N.db after.now) subject.now.0 name.now }
{
    is_among(subject, after.owners(name))
}

/// Whether it reaches the row. Takes no memory.
pub(crate) fn reaches<N: Linked>(after: &N, subject: &Subject, name: &RowName) -> bool
    requires { IsOwnerSchema (N.db after.now).schema }
    ensures { result ≡ reaches (N.db after.now) subject.now.0 name.now }
{
    is_among(subject, after.reach(name))
}

/// Whether a path that enters a row leads on to a subject. Takes no memory.
pub(crate) fn leads_on<N: Linked>(after: &N, subject: &Subject, upper: &RowName) -> bool
    requires { IsOwnerSchema (N.db after.now).schema }
    ensures { result ≡ leads_on (N.db after.now) subject.now.0 upper.now }
{
    if is_subject(after.schema(), upper.table.0 as usize) {
        is_name(upper, &subject.0)
    } else {
        reaches(after, subject, upper)
    }
}
