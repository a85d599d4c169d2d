ghost use Rattle.std.specs.Prelude.{◌+◌, ◌<◌, ◌≤◌, ◌^◌, ℕ, List, IfNone, IfOk, IfSome, MatchOption, length};
ghost use Rattle.own_model.specs.Db.{Db};
ghost use Rattle.disk_model.specs.declared.commit.Commit.{Commit};
ghost use Rattle.disk_model.specs.JudgedRecords.{IsBroken, IsLawful, IsRecord};
ghost use Rattle.crash_recover.specs.Fault.{Finds};
ghost use Rattle.crash_recover.specs.Records.{AreWhole, IsBrokenBehind, IsNext};

use crate::fault::AreaFault;
use crate::judged::LaidCommit;
use crate::parts::{number_of_four, split_in_front};
use commit_replay::Replayed;
use disk_model::Commit;
use own_base::List as Items;
use own_model::PAYLOAD_BYTES;
use rec_codec::decode;
use std::alloc::{AllocError, Global};

/// The payload of the record behind a gate, and the bytes from the next gate on. Takes no memory.
fn record_of(bytes: &[u8]) -> Option<(&[u8], &[u8])>
    ensures some { IfSome result (λ parts. IsRecord parts.0.now bytes.now parts.1.now) }
    ensures none { IfNone result ((payload rest : List ℕ) → IsRecord payload bytes.now rest → ⊥) }
{
    let (count, behind) = number_of_four(bytes)?;
    if count < 1 || count > PAYLOAD_BYTES {
        return None;
    }
    split_in_front(behind, count)
}

/// Goes on by the commit of a payload, or gives None where it has no lawful one.
fn follow_payload(
    alloc: Global,
    payload: &[u8],
    state: &mut Replayed,
) -> Result<Option<Commit>, AllocError>
    ensures { IfOk result (λ found. MatchOption found
        ((commit : Commit) (after : Db) → IsLawful state.old payload.now commit after → ⊥)
        (λ commit. IsLawful state.old payload.now commit state.new)) }
{
    let Some(commit) = decode(alloc, payload)? else {
        return Ok(None);
    };
    if state.follow(alloc, &commit)? {
        Ok(Some(commit))
    } else {
        Ok(None)
    }
}

/// Goes on by the record behind an open gate at this offset. Gives its commit, and the bytes from the next gate on.
fn next_commit<'a>(
    alloc: Global,
    gate: u64,
    bytes: &'a [u8],
    state: &mut Replayed,
) -> Result<(LaidCommit, &'a [u8]), AreaFault>
    requires { gate + 1 + length bytes.now < 2 ^ 64 }
    ensures { Finds (λ next. IsNext state.old gate bytes.now next.0 next.1.now state.new) (IsBroken state.old gate bytes.now) result }
{
    let Some((payload, behind)) = record_of(bytes) else {
        return Err(AreaFault::Damaged(gate + 1));
    };
    let offset = gate + 5;
    match follow_payload(alloc, payload, state)? {
        Some(commit) => Ok((LaidCommit { offset, commit }, behind)),
        None => Err(AreaFault::Damaged(offset)),
    }
}

/// Goes on by the records from a gate on that lies at this offset. Gives their commits, and the offset of the closed gate
/// behind them.
pub(crate) fn records_from(
    alloc: Global,
    gate: u64,
    bytes: &[u8],
    state: &mut Replayed,
) -> Result<(Items<LaidCommit>, u64), AreaFault>
    requires gate { 1 ≤ length bytes.now }
    requires room { gate + length bytes.now < 2 ^ 64 }
    ensures { Finds (λ found. AreWhole state.old gate bytes.now found.0 found.1 state.new) (IsBrokenBehind state.old gate bytes.now) result }
{
    let mut commits = Items::new(alloc);
    let mut at = gate;
    let mut rest = bytes;
    while rest[0] == 1 {
        let (laid, behind) = next_commit(alloc, at, &rest[1..], state)?;
        commits.add(laid)?;
        at += (rest.len() - behind.len()) as u64;
        rest = behind;
    }
    Ok((commits, at))
}
