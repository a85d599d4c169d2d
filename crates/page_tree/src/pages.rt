ghost use Rattle.std.specs.Prelude.{◌≡◌, [], ◌∷◌, IfOk, IfSome, MatchBool, OnErr, OnOk, filter, length, slice_get};
ghost use Rattle.std.specs.Option.{option_copied};
ghost use Rattle.page_model.specs.Bound.{Divides};
ghost use Rattle.page_model.specs.Changed.{with_change, with_changes, AreKeyed};
ghost use Rattle.page_model.specs.ChangedPages.{AddsChanged};
ghost use Rattle.page_model.specs.Found.{found};
ghost use Rattle.page_model.specs.Kept.{KeepsPages};
ghost use Rattle.page_model.specs.Page.{ArePages, IsPage};
ghost use Rattle.page_model.specs.Paged.{items};
ghost use Rattle.page_model.specs.Rising.{IsRising};
ghost use Rattle.page_model.specs.Run.{IsRunFrom};
ghost use Rattle.page_tree.specs.Body.{pages_of, root_pages};
ghost use Rattle.page_tree.specs.InPlace.{InPlace};

use crate::bound::place_in;
use crate::build::push_above;
use crate::change::{change_node, fill};
use crate::copied::copied_in;
use crate::in_place::change_in;
use crate::items::Items;
use crate::key::{BoundOf, ChangeOf, KeyOf};
use crate::lent::Lent;
use crate::node::Node;
use crate::search::get_in;
use own_base::MakeCopy;
use std::alloc::{AllocError, Global};
use std::marker::Model;
use std::slice;
use std::sync::Arc;

/// A sequence of items in the order of their keys, which contracts see as the way to find an item's key and the list of
/// its pages. What changes make of it is a sequence of its own, which shares each page that stays.
#[derive(Drop)]
pub struct Pages<T, By: KeyOf<T>> {
    by: By,
    root: Option<Arc<Node<T>, Global>>,
}

impl<T, By: KeyOf<T>> Model for Pages<T, By> {
    ghost use Rattle.page_model.specs.Paged.{Paged};

    ghost Value = { Paged By T };

    ghost use Rattle.page_model.specs.Page.{ArePages, joined};
    ghost use Rattle.page_model.specs.Rising.{IsRising};
    ghost use Rattle.page_tree.specs.Body.{root_pages};

    ghost view = { λ it. record { by = it.by; pages = root_pages it.root } };

    ghost invariant = { λ it. ArePages (root_pages it.root) × IsRising (By.key_of it.by) By.key_cmp (joined (root_pages it.root)) };
}

impl<T, By: KeyOf<T>> Pages<T, By> {
    /// No item. Takes no memory.
    pub fn new(by: By) -> Pages<T, By>
        ensures by { result.by ≡ by }
        ensures pages { result.pages ≡ [] }
    {
        Pages { by, root: None }
    }

    /// How many items there are. Takes no memory.
    pub fn len(&self) -> usize
        ensures count { result ≡ length (items self.now) }
        ensures pages { ArePages self.now.pages }
        ensures rising { IsRising (By.key_of self.now.by) By.key_cmp (items self.now) }
    {
        match &self.root {
            None => 0,
            Some(root) => root.items(),
        }
    }

    /// How many pages there are. Takes no memory.
    pub fn page_count(&self) -> usize
        ensures { result ≡ length self.now.pages }
    {
        match &self.root {
            None => 0,
            Some(root) => root.pages(),
        }
    }

    /// The item of a key. Takes no memory.
    pub fn get(&self, key: &By::Key) -> Option<&T>
        ensures { option_copied result ≡ found (By.key_of self.now.by) By.key_cmp key.now (items self.now) }
    {
        match &self.root {
            None => None,
            Some(root) => get_in(self.by, root, key),
        }
    }

    /// The item at a place, counted from 0. Takes no memory.
    pub fn at(&self, place: usize) -> Option<&T>
        ensures { option_copied result ≡ slice_get (items self.now) place }
    {
        match &self.root {
            None => None,
            Some(root) => root.at(place),
        }
    }

    /// How many items stand below a bound: the place from which on they don't. It is found on one path from the top.
    /// Takes no memory.
    pub fn place_of<B: BoundOf<T, By>>(&self, bound: &B) -> usize
        ensures count { result ≡ length (filter (B.below bound.now self.now.by) (items self.now)) }
        ensures divides { Divides (B.below bound.now self.now.by) (items self.now) result }
    {
        match &self.root {
            None => 0,
            Some(root) => place_in(self.by, root, bound),
        }
    }

    /// The page of a number, counted from 0. Takes no memory.
    pub fn page(&self, number: usize) -> Option<&[T]>
        ensures page { IfSome result (λ page. IsPage page.now) }
        ensures lookup { option_copied result ≡ slice_get self.now.pages number }
    {
        match &self.root {
            None => None,
            Some(root) => root.page(number),
        }
    }

    /// Lends a run of items that begins at a place, counted from 0: the rest of the page that has the item there. It is
    /// empty past the end. Called again behind each run, it goes over all items. Takes no memory.
    pub fn run_from(&self, place: usize) -> &[T]
        ensures { IsRunFrom (items self.now) place result.now }
    {
        match &self.root {
            None => &[],
            Some(root) => root.run_from(place),
        }
    }

    /// The items, in their order, one by one. Takes no memory.
    pub fn iter(&self) -> Items<'_, T, By>
        ensures { result ≡ items self.now }
    {
        Items::new(self)
    }
}

impl<T: MakeCopy + Drop, By: KeyOf<T>> Pages<T, By> {
    /// The nodes that changes make of those at the top.
    fn changed<C: ChangeOf<T, By::Key>>(
        &self,
        alloc: Global,
        changes: &[C],
    ) -> Result<Vec<Arc<Node<T>, Global>>, AllocError>
        requires changes { IsRising C.changed By.key_cmp changes.now }
        requires keyed { AreKeyed (By.key_of self.now.by) C.changed C.put changes.now }
        ensures { IfOk result (λ made. AddsChanged (By.key_of self.now.by) By.key_cmp C.changed C.put self.now.pages changes.now [] (pages_of made.items)) }
    {
        let mut made = Vec::new(alloc);
        let Some(root) = &self.root else {
            fill(alloc, self.by, &[], &[], changes, &mut made)?;
            return Ok(made);
        };
        if changes.is_empty() {
            made.push(Arc::try_clone(root)?)?;
            return Ok(made);
        }
        if let Some(node) = copied_in(alloc, self.by, root, changes)? {
            made.push(node)?;
            return Ok(made);
        }
        change_node(alloc, self.by, root, changes, &mut made)?;
        Ok(made)
    }

    /// The items with changes, whose keys rise strictly. This sequence stays as it is. `AllocError` comes where memory is
    /// refused, or there are more items than can be counted.
    pub fn with_changes<C: ChangeOf<T, By::Key>>(
        &self,
        alloc: Global,
        changes: &[C],
    ) -> Result<Pages<T, By>, AllocError>
        requires changes { IsRising C.changed By.key_cmp changes.now }
        requires keyed { AreKeyed (By.key_of self.now.by) C.changed C.put changes.now }
        ensures by { IfOk result (λ after. after.by ≡ self.now.by) }
        ensures items { IfOk result (λ after. items after ≡ with_changes (By.key_of self.now.by) By.key_cmp C.changed C.put changes.now (items self.now)) }
        ensures kept { IfOk result (λ after. KeepsPages (By.key_of self.now.by) By.key_cmp C.changed self.now.pages changes.now after.pages) }
    {
        let made = self.changed(alloc, changes)?;
        let root = rooted(alloc, made)?;
        Ok(Pages { by: self.by, root })
    }

    /// Makes one change in this sequence itself. Where no other sequence shares the page into which the key falls, mostly
    /// that page is changed in place; else it is made new with the nodes above it, as `with_changes` does. After
    /// `AllocError`, which comes where it does there, the sequence is as it was.
    pub fn change<C: ChangeOf<T, By::Key>>(
        &mut self,
        alloc: Global,
        change: &C,
    ) -> Result<(), AllocError>
        requires { IfSome (C.put change.now) (λ item. By.key_of self.old.by item ≡ C.changed change.now) }
        ensures by { OnOk result (self.new.by ≡ self.old.by) }
        ensures items { OnOk result (items self.new ≡ with_change (By.key_of self.old.by) By.key_cmp (C.changed change.now) (C.put change.now) (items self.old)) }
        ensures kept { OnOk result (KeepsPages (By.key_of self.old.by) By.key_cmp C.changed self.old.pages (change.now ∷ []) self.new.pages) }
        ensures unchanged { OnErr result (self.new ≡ self.old) }
    {
        if self.change_in_place(alloc, change) {
            return Ok(());
        }
        *self = self.with_changes(alloc, slice::from_ref(&Lent { change }))?;
        Ok(())
    }

    /// Makes one change in place, where nobody shares what it falls into, and it fits there. Answers whether it did.
    fn change_in_place<C: ChangeOf<T, By::Key>>(&mut self, alloc: Global, change: &C) -> bool
        requires { AreKeyed (By.key_of self.old.by) C.changed C.put (change.now ∷ []) }
        ensures by { self.new.by ≡ self.old.by }
        ensures pages { MatchBool result (InPlace (By.key_of self.old.by) By.key_cmp C.changed C.put self.old.pages change.now self.new.pages) (self.new.pages ≡ self.old.pages) }
    {
        let by = self.by;
        let Some(root) = &mut self.root else {
            return false;
        };
        change_in(alloc, by, root, change)
    }
}

impl<T, By: KeyOf<T>> MakeCopy for Pages<T, By> {
    /// The same sequence, which shares all pages. Takes no memory; `AllocError` comes only where the count of those that
    /// share is full.
    fn copy(&self, _alloc: Global) -> Result<Pages<T, By>, AllocError> {
        let root = match &self.root {
            None => None,
            Some(root) => Some(Arc::try_clone(root)?),
        };
        Ok(Pages { by: self.by, root })
    }
}

/// One node above these, where there is one. Fewer nodes stand at the top after each step.
fn rooted<T: MakeCopy + Drop>(
    alloc: Global,
    nodes: Vec<Arc<Node<T>, Global>>,
) -> Result<Option<Arc<Node<T>, Global>>, AllocError>
    ensures { IfOk result (λ root. root_pages root ≡ pages_of nodes.items) }
{
    let mut top = nodes;
    'above: while top.len() > 1 {
        let mut above = Vec::new(alloc);
        push_above(alloc, top, &mut above)?;
        top = above;
    }
    Ok(top.pop())
}
