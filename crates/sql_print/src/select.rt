ghost use Rattle.std.specs.Prelude.{◌≡◌, ◌++◌, ◌∷◌, [], codes, OnOk};
ghost use Rattle.text_model.specs.Canonical.{item_words, items_words, join_words, order_words, select_words, what_words, where_words};
ghost use Rattle.text_model.specs.Words.{column_words, spaced, words_of};
ghost use Rattle.sql_print.specs.Parts.{source_words};
ghost use Rattle.sql_print.specs.Spaces.{after_spaces};

use crate::condition::push_condition;
use crate::text_buffer::TextBuffer;
use crate::word::{Worded, push_listed};
use own_base::{Boxed, Name};
use own_model::{ColRef, Cond, Item, Items, Join, Order, Select, What};
use std::alloc::AllocError;

impl Worded for What {
    ghost words = { what_words };

    #[tactic(auto, unfolding(text_model::specs::Canonical::what_words))]
    fn push_words(&self, buffer: &mut TextBuffer) -> Result<(), AllocError> {
        match self {
            What::Column(column) => column.push_words(buffer),
            What::Count => buffer.push(" COUNT ( * )"),
            What::SumOf(column) => {
                buffer.push(" SUM (")?;
                column.push_words(buffer)?;
                buffer.push(" )")?;
                Ok(())
            }
        }
    }
}

/// Writes the name of an item, if it has one.
fn push_alias(buffer: &mut TextBuffer, alias: &Option<Name>) -> Result<(), AllocError>
    ensures { OnOk result (buffer.new ≡ buffer.old ++ after_spaces (words_of (λ alias. codes "AS" ∷ alias ∷ []) alias.now)) }
{
    match alias {
        Some(alias) => {
            buffer.push(" AS")?;
            alias.push_words(buffer)?;
            Ok(())
        }
        None => Ok(()),
    }
}

impl Worded for Item {
    ghost words = { item_words };

    #[tactic(auto, unfolding(text_model::specs::Canonical::item_words))]
    fn push_words(&self, buffer: &mut TextBuffer) -> Result<(), AllocError> {
        self.what.push_words(buffer)?;
        push_alias(buffer, &self.alias)?;
        Ok(())
    }
}

/// Writes what a select shows.
#[tactic(auto, unfolding(text_model::specs::Canonical::items_words))]
fn push_items(buffer: &mut TextBuffer, items: &Items) -> Result<(), AllocError>
    ensures { OnOk result (buffer.new ≡ buffer.old ++ after_spaces (items_words items.now)) }
{
    match items {
        Items::Star => buffer.push(" *"),
        Items::Listed(found) => push_listed(buffer, found.items()),
    }
}

impl Worded for Join {
    ghost words = { join_words };

    #[tactic(auto, unfolding(text_model::specs::Canonical::join_words))]
    fn push_words(&self, buffer: &mut TextBuffer) -> Result<(), AllocError> {
        buffer.push(" JOIN")?;
        self.table.push_words(buffer)?;
        buffer.push(" ON")?;
        self.left.push_words(buffer)?;
        buffer.push(" =")?;
        self.right.push_words(buffer)?;
        Ok(())
    }
}

impl Worded for Order {
    ghost words = { order_words };

    #[tactic(auto, unfolding(text_model::specs::Canonical::order_words))]
    fn push_words(&self, buffer: &mut TextBuffer) -> Result<(), AllocError> {
        buffer.push(" ORDER BY")?;
        self.column.push_words(buffer)?;
        if self.down {
            buffer.push(" DESC")?;
        }
        Ok(())
    }
}

/// Writes the WHERE of a statement, if it has one.
pub fn push_where(buffer: &mut TextBuffer, cond: &Option<Boxed<Cond>>) -> Result<(), AllocError>
    ensures { OnOk result (buffer.new ≡ buffer.old ++ after_spaces (where_words cond.now)) }
{
    match cond {
        Some(cond) => {
            buffer.push(" WHERE")?;
            push_condition(buffer, cond.get())?;
            Ok(())
        }
        None => Ok(()),
    }
}

fn push_join(buffer: &mut TextBuffer, join: &Option<Join>) -> Result<(), AllocError>
    ensures { OnOk result (buffer.new ≡ buffer.old ++ after_spaces (words_of join_words join.now)) }
{
    match join {
        Some(join) => join.push_words(buffer),
        None => Ok(()),
    }
}

fn push_group(buffer: &mut TextBuffer, group: &Option<ColRef>) -> Result<(), AllocError>
    ensures { OnOk result (buffer.new ≡ buffer.old ++ after_spaces (words_of (λ column. codes "GROUP" ∷ codes "BY" ∷ column_words column) group.now)) }
{
    match group {
        Some(column) => {
            buffer.push(" GROUP BY")?;
            column.push_words(buffer)?;
            Ok(())
        }
        None => Ok(()),
    }
}

fn push_order(buffer: &mut TextBuffer, order: &Option<Order>) -> Result<(), AllocError>
    ensures { OnOk result (buffer.new ≡ buffer.old ++ after_spaces (words_of order_words order.now)) }
{
    match order {
        Some(order) => order.push_words(buffer),
        None => Ok(()),
    }
}

/// Writes a select from its FROM on.
fn push_source(buffer: &mut TextBuffer, select: &Select) -> Result<(), AllocError>
    ensures { OnOk result (buffer.new ≡ buffer.old ++ after_spaces (source_words select.now)) }
{
    buffer.push(" FROM")?;
    select.from.push_words(buffer)?;
    push_join(buffer, &select.join)?;
    push_where(buffer, &select.cond)?;
    push_group(buffer, &select.group)?;
    push_order(buffer, &select.order)?;
    Ok(())
}

/// Writes a select, with no space before it.
#[tactic(auto, unfolding(text_model::specs::Canonical::select_words))]
pub fn push_select(buffer: &mut TextBuffer, select: &Select) -> Result<(), AllocError>
    ensures { OnOk result (buffer.new ≡ buffer.old ++ spaced (select_words select.now)) }
{
    buffer.push("SELECT")?;
    push_items(buffer, &select.items)?;
    push_source(buffer, select)?;
    Ok(())
}
