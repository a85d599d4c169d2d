ghost use Rattle.std.specs.Prelude.{◌≡◌, IfOk, IsTrue};
ghost use Rattle.query_model.specs.Query.{query_rows, reply_of};
ghost use Rattle.readable_model.specs.Sources.{IsThere};
ghost use Rattle.run_model.specs.Run.{show_subject};
ghost use Rattle.schema_model.specs.Tables.{is_subject};
ghost use Rattle.state_model.specs.Sound.{IsWellFormed};

use own_base::Subject;
use own_model::{BoundSelect, Reply, Source1, StoreView};
use query_eval::select_linked;
use shelf_access::{collect, sights_of};
use std::alloc::{AllocError, Global};
use store_version::{Shown, Version};
use subject_access::no_subject;
use view_select::view_reply;

/// The reply to a bound SELECT: from a view by the rows that are kept for it, and else from the rows of tables, of which few are
/// looked up by their keys and by who holds what.
pub(crate) fn selected(
    alloc: Global,
    version: &Version,
    query: &BoundSelect,
) -> Result<Reply, AllocError>
    requires well_formed { IsWellFormed version.now }
    requires there { IsThere version.now.schema query.now }
    ensures { IfOk result (λ reply. reply ≡ reply_of (query_rows version.now.schema version.now.rows query.now)) }
{
    let shown = Shown { version };
    match &query.source {
        Source1::View(number) => view_reply(alloc, &shown, version.views(), *number, query),
        _ => select_linked(alloc, &shown, query),
    }
}

/// The reply to a bound GDPR GET: from the subject's shelf, and the rows that it sees beside that.
#[tactic(auto, unfolding(run_model::specs::Run::show_subject))]
pub(crate) fn access(
    alloc: Global,
    version: &Version,
    subject: &Subject,
) -> Result<Reply, AllocError>
    requires well_formed { IsWellFormed version.now }
    requires subject { IsTrue (is_subject version.now.schema subject.now.0.table.0) }
    ensures { IfOk result (λ reply. reply ≡ (show_subject version.now subject.now.0).reply) }
{
    let shown = Shown { version };
    if shown.row(&subject.0).is_none() {
        let why = no_subject(alloc, version.schema(), subject)?;
        return Ok(Reply::Refused(why));
    }
    let seen = sights_of(alloc, &shown, subject)?;
    collect(alloc, version.schema(), &shown, seen.items(), subject)
}
