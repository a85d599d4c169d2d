ghost use Rattle.std.specs.Prelude.{◌≡◌, ℕ, [], true, IfOk};
ghost use Rattle.own_model.specs.declared.limit.TheConstants.{STATEMENT_BYTES};
ghost use Rattle.own_model.specs.declared.request.Request.TheVariants.{Run};
ghost use Rattle.own_model.specs.declared.statement.Statement.TheVariants as statement_of;
ghost use Rattle.grammar_model.specs.Readable.{IsWritten};
ghost use Rattle.state_model.specs.Created.{OfTable, OfView, text_of};
ghost use Rattle.state_model.specs.Sound.{Sound};
ghost use Rattle.state_model.specs.Weight.{weight};
ghost use Rattle.run_model.specs.Run as run;
ghost use Rattle.history_model.specs.Reply.{create_reply};
ghost use Rattle.disk_model.specs.declared.commit.Commit.TheVariants as commit_of;
ghost use Rattle.crash_model.specs.Room.{Appended, written_by};
ghost use Rattle.engine_core.specs.Answered.{Tells};
ghost use Rattle.engine_core.specs.Asked.{IsCreate};

use crate::answer::Answer;
use crate::commit::recorded;
use crate::prepared::NextState;
use commit_check::{Judged, judge_view};
use commit_record::record_of_create;
use own_model::{CreateTable, CreateView, Reply, Statement};
use plan_bind::bind_view;
use sql_print::laws::canonical_text_reads_back;
use sql_print::print_statement;
use std::alloc::{AllocError, Global};
use std::mem::drop;
use store_version::{Shown, Version, prepare_table, prepare_view};

/// CREATE TABLE, which the statement is. The new table has no rows, so no row is looked at and the weight stays.
fn create_table(
    alloc: Global,
    version: &Version,
    weighs: u64,
    create: &CreateTable,
    statement: &Statement,
) -> Result<Answer, AllocError>
    requires sound { Sound version.now }
    requires weighs { weight version.now ≡ weighs }
    requires of { statement.now ≡ statement_of.CreateTable create.now }
    requires written { IsWritten STATEMENT_BYTES statement.now }
    ensures tells { IfOk result (Tells version.now true (Appended (commit_of.CreateTable (text_of (OfTable create.now)).text)) (λ verdict. create_reply verdict (run.create_table version.now create.now)) (run.create_table version.now create.now).db) }
    ensures nothing { IfOk result (λ answer. answer.erased ≡ []) }
{
    let shown = Shown { version };
    match version.catalog().admit(alloc, &shown, create) {
        Ok(admitted) => match print_statement(alloc, statement) {
            Ok(text) => {
                canonical_text_reads_back();
                let framed = record_of_create(alloc, false, &text);
                let next = prepare_table(alloc, version, admitted, text)?;
                recorded(alloc, NextState::Beside(next), weighs, framed, Reply::Done)
            }
            Err(refused) => {
                drop(admitted);
                Err(refused)
            }
        },
        Err(fault) => Answer::refused(alloc, fault.into_refusal()),
    }
}

/// CREATE VIEW, which the statement is. It is judged by what the view adds to the weight.
fn create_view(
    alloc: Global,
    version: &Version,
    weighs: u64,
    create: &CreateView,
    statement: &Statement,
) -> Result<Answer, AllocError>
    requires sound { Sound version.now }
    requires weighs { weight version.now ≡ weighs }
    requires of { statement.now ≡ statement_of.CreateView create.now }
    requires written { IsWritten STATEMENT_BYTES statement.now }
    ensures tells { IfOk result (Tells version.now true (Appended (commit_of.CreateView (text_of (OfView create.now)).text)) (λ verdict. create_reply verdict (run.add_view version.now create.now)) (run.add_view version.now create.now).db) }
    ensures nothing { IfOk result (λ answer. answer.erased ≡ []) }
{
    let shown = Shown { version };
    match bind_view(alloc, version.catalog().schema(), create) {
        Ok(definition) => match print_statement(alloc, statement) {
            Ok(text) => match judge_view(&shown, weighs, &definition) {
                Judged::Weighs(sum) => {
                    canonical_text_reads_back();
                    let framed = record_of_create(alloc, true, &text);
                    let next = prepare_view(alloc, version, definition, text)?;
                    recorded(alloc, NextState::Beside(next), sum, framed, Reply::Done)
                }
                Judged::Fault(why) => {
                    drop(text);
                    drop(definition);
                    Ok(Answer::told(alloc, Reply::Refused(why)))
                }
            },
            Err(refused) => {
                drop(definition);
                Err(refused)
            }
        },
        Err(why) => Answer::refused(alloc, why),
    }
}

/// A CREATE, of a table or of a view.
#[tactic(auto, unfolding(run_model::specs::Run::run))]
pub(crate) fn create(
    alloc: Global,
    version: &Version,
    weighs: u64,
    statement: &Statement,
) -> Result<Answer, AllocError>
    requires sound { Sound version.now }
    requires weighs { weight version.now ≡ weighs }
    requires create { IsCreate statement.now }
    requires written { IsWritten STATEMENT_BYTES statement.now }
    ensures tells { IfOk result (λ answer. (number : ℕ) → Tells version.now true (written_by version.now (Run statement.now) (run.run version.now statement.now).db number) (λ verdict. create_reply verdict (run.run version.now statement.now)) (run.run version.now statement.now).db answer) }
    ensures nothing { IfOk result (λ answer. answer.erased ≡ []) }
{
    match statement {
        Statement::CreateTable(create) => create_table(alloc, version, weighs, create, statement),
        Statement::CreateView(create) => create_view(
            alloc,
            version,
            weighs,
            create.get(),
            statement,
        ),
        _ => unreachable!(),
    }
}
