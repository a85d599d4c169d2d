ghost use Rattle.std.specs.Prelude.{◌≡◌, ◌≢◌, ◌≤◌, ◌||◌, ℕ, [], length, OnErr, OnOk};
ghost use Rattle.std.specs.List.{list_any};
ghost use Rattle.own_model.specs.declared.footprint.FootItem.{FootItem as Item};
ghost use Rattle.run_model.specs.Agree.{overlaps};
ghost use Rattle.row_locks.specs.SessionItems.{all_items, items_by};

use crate::session_locks::SessionLocks;
use own_base::SessionNo;
use own_model::FootItem;
use std::alloc::{AllocError, Global};

/// Makes room for so many sessions.
fn grow(alloc: Global, sessions: &mut Vec<SessionLocks>, count: usize) -> Result<(), AllocError>
    ensures enough { OnOk result (count ≤ length sessions.new.items) }
    ensures same { (number : ℕ) → items_by (all_items sessions.new.items) number ≡ items_by (all_items sessions.old.items) number }
{
    while sessions.len() < count {
        sessions.push(SessionLocks::new(alloc))?;
    }
    Ok(())
}

/// Lets a session hold some items besides: all of them, or none where memory is refused.
pub(crate) fn grant(
    alloc: Global,
    sessions: &mut Vec<SessionLocks>,
    session: SessionNo,
    items: &[FootItem],
) -> Result<(), AllocError>
    ensures more { OnOk result ((asked : Item) → list_any (overlaps asked) (items_by (all_items sessions.new.items) session.0)
        ≡ (list_any (overlaps asked) (items_by (all_items sessions.old.items) session.0) || list_any (overlaps asked) items.now)) }
    ensures others { (other : ℕ) → other ≢ session.0 → items_by (all_items sessions.new.items) other ≡ items_by (all_items sessions.old.items) other }
    ensures unchanged { OnErr result ((number : ℕ) → items_by (all_items sessions.new.items) number ≡ items_by (all_items sessions.old.items) number) }
{
    let number = session.0 as usize;
    grow(alloc, sessions, number + 1)?;
    sessions[number].grant(alloc, items)
}

/// Lets a session hold nothing. Takes no memory.
pub(crate) fn release(sessions: &mut Vec<SessionLocks>, session: SessionNo)
    ensures nothing { items_by (all_items sessions.new.items) session.0 ≡ [] }
    ensures others { (other : ℕ) → other ≢ session.0 → items_by (all_items sessions.new.items) other ≡ items_by (all_items sessions.old.items) other }
{
    let number = session.0 as usize;
    if number < sessions.len() {
        sessions[number].clear();
    }
}
