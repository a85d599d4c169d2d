ghost use Rattle.std.specs.Prelude.{◌≡◌};
ghost use Rattle.page_model.specs.Paged.{items};

use crate::key_column::KeyColumn;
use own_base::Row;
use page_tree::{Items, Pages};
use std::marker::Model;

/// The rows of a part by rising key, lent one by one. Contracts see the list of those that are left.
#[derive(Drop)]
pub struct Rows<'a> {
    left: Items<'a, Row, KeyColumn>,
}

impl<'a> Model for Rows<'a> {
    ghost use Rattle.std.specs.Prelude.{List};
    ghost use Rattle.own_base.specs.declared.value.Value.{Value as Seen};

    ghost Value = { List (List Seen) };

    ghost view = { λ rows. rows.left };
}

impl<'a> Rows<'a> {
    /// All rows. Takes no memory.
    pub(crate) fn new(pages: &'a Pages<Row, KeyColumn>) -> Rows<'a>
        ensures { result ≡ items pages.now }
    {
        Rows { left: pages.iter() }
    }
}

impl<'a> Iterator for Rows<'a> {
    type Item = &'a Row;

    ghost use Rattle.std.specs.Iterator.{YieldsFirstRef, item_count};

    ghost next_gives = { YieldsFirstRef (λ left. left) };

    ghost remaining = { item_count (λ left. left) };

    fn next(&mut self) -> Option<&'a Row> {
        self.left.next()
    }
}
