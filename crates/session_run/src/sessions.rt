ghost use Rattle.std.specs.Prelude.{◌≡◌, ◌≤◌, List, [], false, true, map, vec_capacity, vec_len, IfOk};
ghost use Rattle.std.specs.List.{AllByRecursion};
ghost use mathlib.Core.List.{IsPrefix};
ghost use Rattle.own_model.specs.declared.limit.TheConstants.{SESSIONS};
ghost use Rattle.commit_turn.specs.Passes.{IsFresh, IsPassOf, is_lead, seen, view_of};
ghost use Rattle.session_run.specs.Jobs.{AreJoined, HasPlaces, HasRoom, IsSentFrom, lead_sent, number_of, replies_of};
ghost use Rattle.session_run.specs.Sessions.{StandOnce};

use crate::replies::{SessionReplies, Told};
use commit_turn::{Pass, Turn};
use own_base::List;
use own_model::SessionCalls;
use std::alloc::{AllocError, Global};
use turn_model::Keeps;

/// The calls of a session, and the room for what will be told of them.
#[derive(Drop)]
pub(crate) struct Plan {
    pub(crate) calls: SessionCalls,
    pub(crate) tolds: Vec<Told>,
}

/// A session's calls, with the pass of the worker that makes them.
#[derive(Drop)]
pub(crate) struct Job {
    pub(crate) plan: Plan,
    pub(crate) pass: Pass,
}

/// Takes the room for what will be told of the calls of each session.
pub(crate) fn plan_sessions(
    alloc: Global,
    sessions: List<SessionCalls>,
) -> Result<Vec<Plan>, AllocError>
    ensures plans { IfOk result (λ plans. map (λ plan. plan.calls) plans.items ≡ sessions) }
    ensures room { IfOk result (λ plans. AllByRecursion HasRoom plans.items) }
{
    let sessions = sessions.into_vec();
    let mut plans = Vec::with_capacity(alloc, sessions.len())?;
    for calls in sessions {
        let tolds = Vec::with_capacity(alloc, calls.calls.items().len())?;
        plans.push_reserved(Plan { calls, tolds });
    }
    Ok(plans)
}

/// Splits a pass off the lead for each session. The room for the jobs is there.
pub(crate) fn send_out<T: Keeps>(
    turn: &Turn<T>,
    lead: &mut Pass,
    plans: Vec<Plan>,
    jobs: Vec<Job>,
) -> Vec<Job>
    requires lead { IsPassOf turn.now lead.old × (is_lead lead.old ≡ true) }
    requires numbers { AllByRecursion (λ plan. number_of plan ≤ SESSIONS) plans.items }
    requires fresh { AllByRecursion (λ plan. IsFresh lead.old (number_of plan)) plans.items }
    requires once { StandOnce (map number_of plans.items) }
    requires none { jobs.items ≡ [] }
    requires room { vec_len plans ≤ vec_capacity jobs }
    ensures lead { IsPassOf turn.now lead.new × (view_of lead.new ≡ lead_sent (map number_of plans.items) (view_of lead.old)) }
    ensures plans { map (λ job. job.plan) result.items ≡ plans.items }
    ensures passes { AllByRecursion (IsSentFrom turn.now (view_of lead.old)) result.items }
    ensures places { HasPlaces (view_of lead.old) (map number_of plans.items) }
{
    let mut jobs = jobs;
    for plan in plans {
        let pass = turn.split(lead, plan.calls.session);
        jobs.push_reserved(Job { plan, pass });
    }
    jobs
}

/// Joins the passes of the jobs to the lead, and gives what was told. The room for that is there.
pub(crate) fn join_all<T: Keeps>(
    turn: &Turn<T>,
    lead: &mut Pass,
    jobs: Vec<Job>,
    replies: Vec<SessionReplies>,
) -> Vec<SessionReplies>
    requires lead { IsPassOf turn.now lead.old × (is_lead lead.old ≡ true) }
    requires passes { AllByRecursion (λ job. IsPassOf turn.now job.pass × ((view_of job.pass).session ≡ number_of job.plan)) jobs.items }
    requires once { StandOnce (map (λ job. number_of job.plan) jobs.items) }
    requires places { HasPlaces (view_of lead.old) (map (λ job. number_of job.plan) jobs.items) }
    requires none { replies.items ≡ [] }
    requires room { vec_len jobs ≤ vec_capacity replies }
    ensures lead { IsPassOf turn.now lead.new }
    ensures joined { AreJoined lead.old lead.new jobs.items }
    ensures replies { result.items ≡ map replies_of jobs.items }
{
    let mut replies = replies;
    for job in jobs {
        let Job { plan, pass } = job;
        turn.join(lead, pass);
        let Plan { calls, tolds } = plan;
        replies.push_reserved(SessionReplies {
            session: calls.session,
            replies: List::from_vec(tolds),
        });
    }
    replies
}
