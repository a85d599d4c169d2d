ghost use Rattle.std.specs.Prelude.{◌≡◌};
ghost use Rattle.state_model.specs.Sound.{Sound};
ghost use Rattle.state_model.specs.Weight.{weight};
ghost use Rattle.disk_model.specs.Bounds.{IsCountable};
ghost use Rattle.commit_replay.specs.Creates.{IsRead, commit_of};
ghost use Rattle.commit_replay.specs.Leads.{Leads};

use crate::create_text::read_create;
use crate::followed::Followed;
use crate::table::follow_table;
use crate::view::follow_view;
use own_base::Text;
use own_model::Statement;
use std::alloc::{AllocError, Global};
use std::mem::drop;
use store_version::Version;

/// What a CREATE leads to, of which this is the statement and the text.
fn follow_statement(
    alloc: Global,
    version: &Version,
    weighs: u64,
    view: bool,
    statement: &Statement,
    text: &Text,
) -> Result<Option<Followed>, AllocError>
    requires sound { Sound version.now }
    requires weighs { weight version.now ≡ weighs }
    requires read { IsRead (record { view = view; text = text.now }) statement.now }
    ensures { Leads version.now (commit_of view text.now) result }
{
    match statement {
        Statement::CreateTable(create) => follow_table(alloc, version, weighs, create, text),
        Statement::CreateView(create) => follow_view(alloc, version, weighs, create.get(), text),
        _ => unreachable!(),
    }
}

/// What a CREATE, of a view or of a table, leads to whose canonical text this is.
pub(crate) fn follow_create(
    alloc: Global,
    version: &Version,
    weighs: u64,
    view: bool,
    text: &Text,
) -> Result<Option<Followed>, AllocError>
    requires sound { Sound version.now }
    requires weighs { weight version.now ≡ weighs }
    requires few { IsCountable text.now }
    ensures { Leads version.now (commit_of view text.now) result }
{
    match read_create(alloc, view, text)? {
        Some(statement) => {
            let followed = follow_statement(alloc, version, weighs, view, &statement, text);
            drop(statement);
            followed
        }
        None => Ok(None),
    }
}
