ghost use Rattle.std.specs.Prelude.{◌≡◌, ◌≢◌, ◌++◌, ℕ, List as Seq, [], MatchOption, OnErr, OnOk, option_map};
ghost use Rattle.own_model.specs.declared.footprint.FootItem.{FootItem as Item};
ghost use Rattle.history_model.specs.History.{lie_on};
ghost use Rattle.row_locks.specs.SessionItems.{items_of, items_by};
ghost use Rattle.row_locks.specs.RepresentsItems.{AreHeld, RepresentsItems, holder_among, holding_among, holding_of_other, told};

use crate::held_item::HeldItem;
use crate::session_locks::SessionLocks;
use crate::sessions::{grant, release};
use own_base::{RowName, SessionNo};
use own_model::{Footprint, SESSIONS};
use std::alloc::{AllocError, Global};
use std::marker::Model;

/// What the sessions hold, which contracts see as the list of each session's items, by its number, as they are kept: of each
/// row, and of each whole table, one item at most.
#[derive(Drop)]
pub struct LockTable {
    sessions: Vec<SessionLocks>,
}

impl Model for LockTable {
    ghost use Rattle.std.specs.Prelude.{List};
    ghost use Rattle.own_model.specs.declared.footprint.FootItem.{FootItem as Seen};
    ghost use Rattle.row_locks.specs.SessionItems.{all_items};

    ghost Value = { List (List Seen) };

    ghost view = { λ table. all_items table.sessions.items };
}

impl LockTable {
    /// Nobody holds anything. Takes no memory until something is granted.
    pub fn new(alloc: Global) -> LockTable
        ensures { result ≡ [] }
    {
        LockTable {
            sessions: Vec::new(alloc),
        }
    }

    /// What a session holds, where it has held something. Takes no memory.
    fn locks(&self, session: SessionNo) -> Option<&SessionLocks>
        ensures { MatchOption result (items_by self.now session.0 ≡ []) (λ locks. items_of locks.now ≡ items_by self.now session.0) }
    {
        self.sessions.get(session.0 as usize)
    }

    /// Whether a session stands in the way, and the first item in whose way it stands. Takes no memory.
    fn holding<'f>(&self, session: SessionNo, footprint: &'f Footprint) -> Option<HeldItem<'f>>
        ensures { option_map told result ≡ holding_among (items_by self.now) footprint.now session.0 }
    {
        match self.locks(session) {
            None => None,
            Some(locks) => match locks.first_overlap(footprint.items()) {
                None => None,
                Some(item) => Some(HeldItem { session, item }),
            },
        }
    }

    /// The same of another session; its own items never stand in a session's way. Takes no memory.
    fn holding_of_other<'f>(
        &self,
        session: SessionNo,
        other: SessionNo,
        footprint: &'f Footprint,
    ) -> Option<HeldItem<'f>>
        ensures { option_map told result ≡ holding_of_other (items_by self.now) session.0 footprint.now other.0 }
    {
        if other == session {
            None
        } else {
            self.holding(other, footprint)
        }
    }

    /// The lowest other session that holds an item which overlaps one of the footprint, with the first such item of the
    /// footprint; none where there is none. Its time hangs on the footprint and on the sessions, and hardly on how much is
    /// held. Takes no memory.
    pub fn first_holder<'f>(
        &self,
        session: SessionNo,
        footprint: &'f Footprint,
    ) -> Option<HeldItem<'f>>
        ensures { (held : ℕ → Seq Item) → AreHeld self.now held → option_map told result ≡ holder_among held session.0 footprint.now }
    {
        for number in 1..SESSIONS + 1 {
            let found = self.holding_of_other(session, SessionNo(number), footprint);
            if found.is_some() {
                return found;
            }
        }
        None
    }

    /// Lets a session hold the items of a footprint besides: all of them, or none where memory is refused. Whether another
    /// session stands in the way isn't looked at.
    pub fn grant(
        &mut self,
        alloc: Global,
        session: SessionNo,
        footprint: Footprint,
    ) -> Result<(), AllocError>
        ensures held { OnOk result ((items : Seq Item) → RepresentsItems (items_by self.old session.0) items → RepresentsItems (items_by self.new session.0) (items ++ footprint)) }
        ensures others { (other : ℕ) → other ≢ session.0 → items_by self.new other ≡ items_by self.old other }
        ensures unchanged { OnErr result ((number : ℕ) → items_by self.new number ≡ items_by self.old number) }
    {
        grant(alloc, &mut self.sessions, session, footprint.items())
    }

    /// Lets a session hold nothing. Takes no memory.
    pub fn release(&mut self, session: SessionNo)
        ensures nothing { items_by self.new session.0 ≡ [] }
        ensures others { (other : ℕ) → other ≢ session.0 → items_by self.new other ≡ items_by self.old other }
    {
        release(&mut self.sessions, session);
    }

    /// Whether one of the names lies on an item that a session holds. Takes no memory.
    pub fn overlaps(&self, session: SessionNo, names: &[RowName]) -> bool
        ensures { (items : Seq Item) → RepresentsItems (items_by self.now session.0) items → result ≡ lie_on names.now items }
    {
        match self.locks(session) {
            None => false,
            Some(locks) => locks.hold_some(names),
        }
    }
}
