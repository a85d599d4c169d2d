ghost use Rattle.std.specs.Prelude.{◌≡◌};
ghost use Rattle.query_model.specs.ConditionFaults.{unlike};
ghost use Rattle.query_model.specs.Scope.{column_meant, no_column};
ghost use Rattle.bind_scope.specs.After.{after};

use crate::fault::Fault;
use crate::kinds::are_compared;
use crate::least::Least;
use crate::meant::Meant;
use crate::scope::Scope;
use own_model::{ColRef, Kind};

/// The column that a reference means. Where it means none, that is noted.
pub fn bind_column<'a>(scope: &Scope<'a>, reference: &'a ColRef, least: &mut Least<'a>) -> Meant<'a>
    ensures meant { result ≡ column_meant scope.now reference.now }
    ensures noted { least.new ≡ after least.old (no_column scope.now reference.now) }
{
    let meant = scope.find(reference);
    if meant.is_none() {
        least.note(Fault::NoColumn(&reference.column));
    }
    meant
}

/// Notes where a number and a text are compared, by the left column.
pub fn note_unlike<'a>(
    left: &'a ColRef,
    kind: Option<Kind>,
    other: Option<Kind>,
    least: &mut Least<'a>,
)
    ensures { least.new ≡ after least.old (unlike left.now kind other) }
{
    if let (Some(kind), Some(other)) = (kind, other)
        && !are_compared(kind, other)
    {
        least.note(Fault::WrongKind(&left.column));
    }
}
