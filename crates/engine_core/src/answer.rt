ghost use Rattle.std.specs.Prelude.{◌≡◌, ◌≢◌, [], None, IfOk};
ghost use Rattle.own_model.specs.declared.refusal.Refusal.TheVariants.{Memory};
ghost use Rattle.own_model.specs.declared.reply.Reply.TheVariants.{Refused};

use crate::prepared::Prepared;
use own_base::{List, RowName};
use own_model::{Refusal, Reply};
use std::alloc::{AllocError, Global};
use std::mem::drop;

/// What a statement outside a transaction is answered; the state that it leaves, where that is another; and the rows that it
/// erased, on which no transaction may stand any more.
#[derive(Drop)]
pub(crate) struct Answer {
    pub(crate) reply: Reply,
    pub(crate) next: Option<Prepared>,
    pub(crate) erased: List<RowName>,
}

impl Answer {
    /// A reply that leaves the state.
    pub(crate) fn told(alloc: Global, reply: Reply) -> Answer
        ensures reply { result.reply ≡ reply }
        ensures stays { result.next ≡ None }
        ensures nothing { result.erased ≡ [] }
    {
        Answer {
            reply,
            next: None,
            erased: List::new(alloc),
        }
    }

    /// A refusal, unless it is for want of memory.
    pub(crate) fn refused(alloc: Global, why: Refusal) -> Result<Answer, AllocError>
        ensures { IfOk result (λ answer. (answer.reply ≡ Refused why) × (answer.next ≡ None) × (answer.erased ≡ []) × (why ≢ Memory)) }
    {
        match why {
            Refusal::Memory => Err(AllocError),
            why => Ok(Answer::told(alloc, Reply::Refused(why))),
        }
    }

    /// The same, which erased these rows.
    pub(crate) fn erasing(self, erased: List<RowName>) -> Answer
        ensures reply { result.reply ≡ self.reply }
        ensures next { result.next ≡ self.next }
        ensures erased { result.erased ≡ erased }
    {
        let Answer {
            reply,
            next,
            erased: none,
        } = self;
        drop(none);
        Answer {
            reply,
            next,
            erased,
        }
    }
}
