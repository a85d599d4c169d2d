//! What a worker learns of the schema by its looks, over which it binds statements before their turn.

ghost use Rattle.std.specs.Prelude.{◌≡◌, Some, IfSome};
ghost use Rattle.grammar_model.specs.Readable.{IsReadable};
ghost use Rattle.session_run.specs.Learning.{IsBoundOver, IsWithin, Learns, LearnsBy};

use own_base::MakeCopy;
use own_model::{Request, Schema, Statement};
use plan_bind::bind;
use serve_model::{Ahead, Looks, Step};
use std::alloc::Global;
use std::mem::{drop, replace};

/// The schema that a look showed, and how many creates gave it.
#[derive(Drop)]
pub(crate) struct Learnt {
    pub(crate) schema: Schema,
    pub(crate) creates: usize,
}

/// Whether a statement reads alone, so that it may be a look.
fn reads_alone(statement: &Statement) -> bool {
    matches!(
        statement,
        Statement::Select(_) | Statement::GdprGet { .. } | Statement::Explain
    )
}

/// What a request's statement is bound to over what was learnt, where it reads alone. It is bound in its turn where nothing was
/// learnt yet, where binding refuses it, and where memory for that is refused.
pub(crate) fn bound_ahead(
    alloc: Global,
    learnt: &Option<Learnt>,
    request: &Request,
) -> Option<Ahead>
    requires within { IfSome learnt.now IsWithin }
    requires readable { IsReadable request.now }
    ensures { IfSome result (λ ahead. (known : _) × (learnt.now ≡ Some known) × IsBoundOver known request.now ahead) }
{
    let Some(known) = learnt else {
        return None;
    };
    let Request::Run(statement) = request else {
        return None;
    };
    if !reads_alone(statement.get()) {
        return None;
    }
    match bind(alloc, &known.schema, statement.get()) {
        Ok(bound) => Some(Ahead {
            creates: known.creates,
            bound,
        }),
        Err(_) => None,
    }
}

/// Learns the schema that a look shows, unless one of as many creates is known. Where memory for it is refused nothing is learnt.
fn learn<L: Looks>(alloc: Global, learnt: &mut Option<Learnt>, shown: &L)
    ensures { Learns (L.db shown.now) learnt.old learnt.new }
{
    let creates = shown.creates();
    if let Some(known) = learnt {
        if known.creates == creates {
            return;
        }
    }
    if let Ok(schema) = shown.schema().copy(alloc) {
        let learns = Some(Learnt { schema, creates });
        drop(replace(learnt, learns));
    }
}

/// Learns of what a call came to, where that is a look.
pub(crate) fn learn_by<L: Looks>(alloc: Global, learnt: &mut Option<Learnt>, step: &Step<L>)
    ensures { LearnsBy L.db step.now learnt.old learnt.new }
{
    if let Step::Look(_, shown, _) = step {
        learn(alloc, learnt, shown);
    }
}
