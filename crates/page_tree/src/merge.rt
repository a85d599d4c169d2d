ghost use Rattle.std.specs.Prelude.{◌≡◌, ◌≤◌, ◌+◌, ◌++◌, IfOk, OnOk, drop, length};
ghost use Rattle.std.specs.Option.{option_copied, option_to_list};
ghost use Rattle.page_model.specs.Changed.{above_key, below_key, with_change, with_changes, AreKeyed};
ghost use Rattle.page_model.specs.Place.{IsPlaceOf};
ghost use Rattle.page_model.specs.Rising.{IsRising};

use crate::hints::{first_hints, hints_behind};
use crate::key::{ChangeOf, KeyOf};
use crate::page::Page;
use crate::search::place_of;
use own_base::MakeCopy;
use std::alloc::{AllocError, Global};

/// Puts copies of items last, in their order, and the hints that stand beside them.
fn push_copies<T: MakeCopy + Drop>(
    alloc: Global,
    items: &[T],
    hints: &[u64],
    made: &mut Page<T>,
) -> Result<(), AllocError>
    ensures { OnOk result (made.new.items.items ≡ made.old.items.items ++ items.now) }
{
    for item in items {
        made.items.push(item.copy(alloc)?)?;
    }
    made.hints.extend_from_slice(hints)
}

/// Puts a copy of an item last, where there is one, and its hint.
fn push_copy<T: MakeCopy + Drop, By: KeyOf<T>>(
    alloc: Global,
    by: By,
    item: Option<&T>,
    made: &mut Page<T>,
) -> Result<(), AllocError>
    ensures { OnOk result (made.new.items.items ≡ made.old.items.items ++ option_to_list (option_copied item.entry)) }
{
    if let Some(item) = item {
        made.items.push(item.copy(alloc)?)?;
        made.hints.push(by.item_hint(item))?;
    }
    Ok(())
}

/// Where the items above a key begin: at the key's place, or behind the item there. Takes no memory.
pub(crate) fn above_from<T, By: KeyOf<T>>(by: By, items: &[T], key: &By::Key, place: usize) -> usize
    requires rising { IsRising (By.key_of by) By.key_cmp items.now }
    requires place { IsPlaceOf (By.key_of by) By.key_cmp key.now items.now place }
    ensures within { result ≤ length items.now }
    ensures behind { place ≤ result }
    ensures near { result ≤ place + 1 }
    ensures above { above_key (By.key_of by) By.key_cmp key.now items.now ≡ drop result items.now }
{
    if place == items.len() {
        return place;
    }
    if by.compare(&items[place], key).is_eq() {
        place + 1
    } else {
        place
    }
}

/// Puts copies of the items below a change's key last, and of the item that it puts, with their hints. Answers the items
/// above the key.
fn merge_change<'a, T: MakeCopy + Drop, By: KeyOf<T>, C: ChangeOf<T, By::Key>>(
    alloc: Global,
    by: By,
    items: &'a [T],
    hints: &[u64],
    change: &C,
    made: &mut Page<T>,
) -> Result<&'a [T], AllocError>
    requires { IsRising (By.key_of by) By.key_cmp items.now }
    ensures added { OnOk result (made.new.items.items ≡ made.old.items.items ++ (below_key (By.key_of by) By.key_cmp (C.changed change.now) items.now ++ option_to_list (C.put change.now))) }
    ensures left { IfOk result (λ left. left.now ≡ above_key (By.key_of by) By.key_cmp (C.changed change.now) items.now) }
{
    // Without hints, all items up to the place are looked at. They are copied next, and a copy counts up and waits for
    // its item, while a search lets the processor fetch many.
    let place = place_of(by, items, &[], change.key());
    push_copies(alloc, &items[..place], first_hints(hints, place), made)?;
    push_copy(alloc, by, change.item(), made)?;
    Ok(&items[above_from(by, items, change.key(), place)..])
}

/// The items after one change. A hint is made for what it puts; those of the others are taken over.
pub(crate) fn merged_one<T: MakeCopy + Drop, By: KeyOf<T>, C: ChangeOf<T, By::Key>>(
    alloc: Global,
    by: By,
    items: &[T],
    hints: &[u64],
    change: &C,
) -> Result<Page<T>, AllocError>
    requires { IsRising (By.key_of by) By.key_cmp items.now }
    ensures { IfOk result (λ made. made.items.items ≡ with_change (By.key_of by) By.key_cmp (C.changed change.now) (C.put change.now) items.now) }
{
    let mut made = Page::with_room(alloc, items.len().saturating_add(1))?;
    let left = merge_change(alloc, by, items, hints, change, &mut made)?;
    let beside = hints_behind(hints, items.len().saturating_sub(left.len()));
    push_copies(alloc, left, beside, &mut made)?;
    Ok(made)
}

/// The items after changes. Hints are made for those that are put; those of the others are taken over.
pub(crate) fn merged<T: MakeCopy + Drop, By: KeyOf<T>, C: ChangeOf<T, By::Key>>(
    alloc: Global,
    by: By,
    items: &[T],
    hints: &[u64],
    changes: &[C],
) -> Result<Page<T>, AllocError>
    requires rising { IsRising (By.key_of by) By.key_cmp items.now }
    requires changes { IsRising C.changed By.key_cmp changes.now }
    requires keyed { AreKeyed (By.key_of by) C.changed C.put changes.now }
    ensures { IfOk result (λ made. made.items.items ≡ with_changes (By.key_of by) By.key_cmp C.changed C.put changes.now items.now) }
{
    let mut made = Page::with_room(alloc, items.len().saturating_add(changes.len()))?;
    let mut left = items;
    for change in changes {
        let beside = hints_behind(hints, items.len().saturating_sub(left.len()));
        left = merge_change(alloc, by, left, beside, change, &mut made)?;
    }
    let beside = hints_behind(hints, items.len().saturating_sub(left.len()));
    push_copies(alloc, left, beside, &mut made)?;
    Ok(made)
}
