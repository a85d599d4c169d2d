ghost use Rattle.std.specs.Prelude.{◌≡◌, ◌≢◌, ◌∷◌, ◌+◌, [], None, false, length, is_some, true, IfOk, OnErr};
ghost use Rattle.own_model.specs.declared.history.Verdict.TheVariants.{NoRoom, Took};
ghost use Rattle.state_model.specs.Put.{put as put_in};
ghost use Rattle.state_model.specs.Sound.{Sound};
ghost use Rattle.state_model.specs.Weight.{weight};
ghost use Rattle.commit_record.specs.Recorded.{IsRecordOf};
ghost use Rattle.history_model.specs.Reply.{by_verdict};
ghost use Rattle.crash_model.specs.Room.{image_bytes};
ghost use Rattle.check_image.specs.Gated.{IsGatedImage};
ghost use Rattle.engine_core.specs.Answered.{IsImageWith, IsNumbered, IsOfLone, LeadsBy, MayBeLeft, MayBeMade, behind_by, is_anew, is_laid, left, size_of, write_size};
ghost use Rattle.engine_core.specs.HasDoomed.{HasDoomed};
ghost use Rattle.engine_core.specs.Stored.{Carries, IsUp};

use crate::answer::Answer;
use crate::prepared::{NextState, Prepared};
use crate::state::State;
use crate::taking::{lay, take};
use crate::verdict::refused_by;
use outer_world::Disk;
use own_base::{Change, Place};
use own_model::{Reply, Verdict};
use std::alloc::{AllocError, Global};
use std::mem::drop;
use store_disk::StoreDisk;
use store_version::{Next, Version, publish, publish_change};

/// Leaves a next version, where the disk takes the record of its commit. Else the version is as it was.
fn put_beside<D: Disk>(
    version: &mut Version,
    store: &mut StoreDisk<D>,
    next: Next,
    framed: &[u8],
) -> Verdict
    requires recorded { IsRecordOf version.old next framed.now }
    requires store { IsUp D.holds D.leaves D.honest store.old version.old }
    ensures version { result ≡ Took → version.new ≡ next }
    ensures stays { result ≢ Took → version.new ≡ version.old }
    ensures carried { Carries D.holds D.leaves D.moment D.might_have_left D.honest D.faults version.old next true true false (length framed.now) store.old result store.new }
{
    let verdict = take(store, framed);
    match verdict {
        Verdict::Took => publish(version, next),
        Verdict::DiskFault | Verdict::NoRoom => drop(next),
    }
    verdict
}

/// Leaves a next version, where the disk lays it anew by its image. Else the version is as it was.
fn put_anew<D: Disk>(
    version: &mut Version,
    store: &mut StoreDisk<D>,
    next: Next,
    gated: &[u8],
) -> Verdict
    requires sound { Sound next }
    requires gated { IsGatedImage next (store.old.commits + 1) gated.now }
    requires store { IsUp D.holds D.leaves D.honest store.old version.old }
    ensures version { result ≡ Took → version.new ≡ next }
    ensures stays { result ≢ Took → version.new ≡ version.old }
    ensures carried { Carries D.holds D.leaves D.moment D.might_have_left D.honest D.faults version.old next true true true (image_bytes next (store.old.commits + 1)) store.old result store.new }
{
    let verdict = lay(store, gated, true);
    match verdict {
        Verdict::Took => publish(version, next),
        Verdict::DiskFault | Verdict::NoRoom => drop(next),
    }
    verdict
}

/// Makes a change of one row in the version itself, and asks the disk to take its record: all memory is taken before the disk is
/// asked. Where there is no room for the record, or memory is refused, all is as it was.
fn put_in_place<D: Disk>(
    alloc: Global,
    version: &mut Version,
    store: &mut StoreDisk<D>,
    change: &Change,
    framed: &[u8],
) -> Result<Verdict, AllocError>
    requires sound { Sound version.old }
    requires lone { IsOfLone version.old change.now }
    requires recorded { IsRecordOf version.old (put_in version.old (change.now ∷ [])) framed.now }
    requires store { IsUp D.holds D.leaves D.honest store.old version.old }
    ensures version { IfOk result (λ verdict. verdict ≡ Took → version.new ≡ put_in version.old (change.now ∷ [])) }
    ensures stays { IfOk result (λ verdict. verdict ≡ NoRoom → version.new ≡ version.old) }
    ensures carried { IfOk result (λ verdict. Carries D.holds D.leaves D.moment D.might_have_left D.honest D.faults version.old (put_in version.old (change.now ∷ [])) true true false (length framed.now) store.old verdict store.new) }
    ensures version_kept { OnErr result (version.new ≡ version.old) }
    ensures store_kept { OnErr result (store.new ≡ store.old) }
{
    if !store.fits(framed.len() as u64) {
        return Ok(Verdict::NoRoom);
    }
    publish_change(alloc, version, change)?;
    Ok(take(store, framed))
}

/// Leaves a next state, where the disk takes what is written. Where there is no room for that, or memory is refused, all is as it
/// was.
fn put_state<D: Disk>(
    alloc: Global,
    version: &mut Version,
    store: &mut StoreDisk<D>,
    state: NextState,
    bytes: &[u8],
) -> Result<Verdict, AllocError>
    requires sound { Sound version.old }
    requires leads { LeadsBy version.old state bytes.now }
    requires made { MayBeMade version.old state }
    requires numbered { IsImageWith (store.old.commits + 1) state bytes.now }
    requires store { IsUp D.holds D.leaves D.honest store.old version.old }
    ensures version { IfOk result (λ verdict. verdict ≡ Took → version.new ≡ behind_by version.old state) }
    ensures stays { IfOk result (λ verdict. verdict ≡ NoRoom → version.new ≡ version.old) }
    ensures carried { IfOk result (λ verdict. Carries D.holds D.leaves D.moment D.might_have_left D.honest D.faults version.old (behind_by version.old state) true true (is_anew state) (size_of (store.old.commits + 1) state bytes.now) store.old verdict store.new) }
    ensures version_kept { OnErr result (version.new ≡ version.old) }
    ensures store_kept { OnErr result (store.new ≡ store.old) }
{
    match state {
        NextState::Beside(next) => Ok(put_beside(version, store, next, bytes)),
        NextState::InPlace(change) => {
            let verdict = put_in_place(alloc, version, store, &change, bytes);
            drop(change);
            verdict
        }
        NextState::Anew(next) => Ok(put_anew(version, store, next, bytes)),
    }
}

/// Leaves what is prepared, where something is and the disk takes what it writes, with what it weighs. Where there is no room for
/// that, or memory is refused, all is as it was.
fn put<D: Disk>(
    alloc: Global,
    version: &mut Version,
    weighs: &mut u64,
    store: &mut StoreDisk<D>,
    next: Option<Prepared>,
) -> Result<Verdict, AllocError>
    requires sound { Sound version.old }
    requires weighs { weight version.old ≡ weighs.old }
    requires may { MayBeLeft version.old next }
    requires numbered { IsNumbered (store.old.commits + 1) next }
    requires store { IsUp D.holds D.leaves D.honest store.old version.old }
    ensures version { IfOk result (λ verdict. verdict ≡ Took → version.new ≡ left version.old next) }
    ensures weighs { IfOk result (λ verdict. verdict ≡ Took → weight version.new ≡ weighs.new) }
    ensures version_stays { IfOk result (λ verdict. verdict ≡ NoRoom → version.new ≡ version.old) }
    ensures weighs_stays { IfOk result (λ verdict. verdict ≡ NoRoom → weighs.new ≡ weighs.old) }
    ensures asked { IfOk result (λ verdict. verdict ≢ Took → next ≢ None) }
    ensures carried { IfOk result (λ verdict. Carries D.holds D.leaves D.moment D.might_have_left D.honest D.faults version.old (left version.old next) (is_some next) (is_some next) (is_laid next) (write_size (store.old.commits + 1) next) store.old verdict store.new) }
    ensures version_kept { OnErr result (version.new ≡ version.old) }
    ensures weighs_kept { OnErr result (weighs.new ≡ weighs.old) }
    ensures store_kept { OnErr result (store.new ≡ store.old) }
    ensures asked_err { OnErr result (next ≢ None) }
{
    let Some(prepared) = next else {
        return Ok(Verdict::Took);
    };
    let Prepared {
        state,
        weighs: sum,
        bytes,
    } = prepared;
    let verdict = put_state(alloc, version, store, state, bytes.items());
    drop(bytes);
    match verdict {
        Ok(Verdict::Took) => {
            *weighs = sum;
            Ok(Verdict::Took)
        }
        Ok(verdict) => Ok(verdict),
        Err(refused) => Err(refused),
    }
}

/// Leaves what an answer leaves: what is prepared, once the disk has taken what it writes, and no transaction on a row that it
/// erased at a place. Gives what the disk said and the reply. Where it has no room for that, or memory is refused, the
/// state is as it was; where it failed, nothing is said of the version, which no later call asks.
pub(crate) fn install<D: Disk>(
    alloc: Global,
    state: &mut State,
    store: &mut StoreDisk<D>,
    place: Place,
    answer: Answer,
) -> Result<(Verdict, Reply), AllocError>
    requires sound { Sound state.old.version }
    requires weighs { weight state.old.version ≡ state.old.weighs }
    requires may { MayBeLeft state.old.version answer.next }
    requires numbered { IsNumbered (store.old.commits + 1) answer.next }
    requires store { IsUp D.holds D.leaves D.honest store.old state.old.version }
    ensures told { IfOk result (λ told. told.1 ≡ by_verdict told.0 answer.reply) }
    ensures version { IfOk result (λ told. told.0 ≡ Took → state.new.version ≡ left state.old.version answer.next) }
    ensures weighs { IfOk result (λ told. told.0 ≡ Took → weight state.new.version ≡ state.new.weighs) }
    ensures opened { state.new.opened ≡ state.old.opened }
    ensures doomed { IfOk result (λ told. told.0 ≡ Took → HasDoomed answer.erased place state.old.txns state.new.txns) }
    ensures unchanged { IfOk result (λ told. told.0 ≡ NoRoom → state.new ≡ state.old) }
    ensures asked { IfOk result (λ told. told.0 ≢ Took → answer.next ≢ None) }
    ensures carried { IfOk result (λ told. Carries D.holds D.leaves D.moment D.might_have_left D.honest D.faults state.old.version (left state.old.version answer.next) (is_some answer.next) (is_some answer.next) (is_laid answer.next) (write_size (store.old.commits + 1) answer.next) store.old told.0 store.new) }
    ensures state_kept { OnErr result (state.new ≡ state.old) }
    ensures store_kept { OnErr result (store.new ≡ store.old) }
    ensures asked_err { OnErr result (answer.next ≢ None) }
{
    let Answer {
        reply,
        next,
        erased,
    } = answer;
    match put(alloc, &mut state.version, &mut state.weighs, store, next) {
        Ok(Verdict::Took) => {
            state.txns.doom(erased.items(), place);
            drop(erased);
            Ok((Verdict::Took, reply))
        }
        Ok(verdict) => {
            drop(erased);
            Ok((verdict, refused_by(verdict, reply)))
        }
        Err(refused) => {
            drop(erased);
            drop(reply);
            Err(refused)
        }
    }
}
