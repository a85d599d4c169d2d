ghost use Rattle.std.specs.Prelude.{◌≡◌, ◌<◌, [], ◌++◌, ◌+◌, drop, length};
ghost use Rattle.page_model.specs.Page.{joined};
ghost use Rattle.page_model.specs.Paged.{items};
ghost use Rattle.page_tree.specs.ItemsLeft.{items_left};

use crate::key::KeyOf;
use crate::pages::Pages;
use std::marker::Model;

/// Where a walk over pages stands.
#[derive(Drop)]
struct Walk<'a, T, By: KeyOf<T>> {
    all: &'a Pages<T, By>,
    count: usize,
    /// The number of the page behind `page`.
    next: usize,
    /// What is left of a page.
    page: &'a [T],
    ghost counted: { count ≡ length all.now.pages },
}

impl<'a, T, By: KeyOf<T>> Walk<'a, T, By> {
    /// Takes the next page where this one has come to its end. Takes no memory.
    fn refill(&mut self)
        ensures all { self.new.all.now ≡ self.old.all.now }
        ensures same { items_left self.new.page.now self.new.next self.old.all.now.pages ≡ items_left self.old.page.now self.old.next self.old.all.now.pages }
        ensures none { self.new.page.now ≡ [] → items_left self.old.page.now self.old.next self.old.all.now.pages ≡ [] }
    {
        if self.page.is_empty() && self.next < self.count {
            self.page = page_at(self.all, self.next);
            self.next += 1;
        }
    }
}

/// The page of a number that there is. Takes no memory.
fn page_at<T, By: KeyOf<T>>(all: &Pages<T, By>, number: usize) -> &[T]
    requires { number < length all.now.pages }
    ensures some { 0 < length result.now }
    ensures first { joined (drop number all.now.pages) ≡ result.now ++ joined (drop (number + 1) all.now.pages) }
{
    match all.page(number) {
        Some(page) => page,
        None => unreachable!(),
    }
}

/// The items of a sequence in their order, lent one by one. Contracts see it as the list of those that are left.
#[derive(Drop)]
pub struct Items<'a, T, By: KeyOf<T>> {
    walk: Walk<'a, T, By>,
}

impl<'a, T, By: KeyOf<T>> Model for Items<'a, T, By> {
    ghost use Rattle.std.specs.Prelude.{List};
    ghost use Rattle.page_tree.specs.ItemsLeft.{items_left};

    ghost Value = { List T };

    ghost view = { λ it. items_left it.walk.page.now it.walk.next it.walk.all.now.pages };
}

impl<'a, T, By: KeyOf<T>> Items<'a, T, By> {
    /// All items. Takes no memory.
    pub(crate) fn new(all: &'a Pages<T, By>) -> Items<'a, T, By>
        ensures { result ≡ items all.now }
    {
        Items {
            walk: Walk {
                all,
                count: all.page_count(),
                next: 0,
                page: &[],
            },
        }
    }
}

impl<'a, T, By: KeyOf<T>> Iterator for Items<'a, T, By> {
    type Item = &'a T;

    ghost use Rattle.std.specs.Iterator.{YieldsFirstRef, item_count};

    ghost next_gives = { YieldsFirstRef (λ left. left) };

    ghost remaining = { item_count (λ left. left) };

    fn next(&mut self) -> Option<&'a T> {
        self.walk.refill();
        let (first, others) = self.walk.page.split_first()?;
        self.walk.page = others;
        Some(first)
    }
}
