ghost use Rattle.std.specs.Prelude.{◌≡◌};
ghost use Rattle.std.specs.List.{list_all};
ghost use Rattle.own_model.specs.declared.limit.TheConstants.{NESTING_LEVELS};
ghost use Rattle.grammar_model.specs.Limits.{store_limits};
ghost use Rattle.sql_reader.specs.reading.Reader.{Does};
ghost use Rattle.sql_reader.specs.reading.Select as rules;

use crate::condition::condition;
use crate::cursor::Cursor;
use crate::fault::RuleFault;
use crate::list::list_of_one;
use crate::rule::{col, col_after};
use own_base::{List, Name};
use own_model::{ColRef, Item, Items, Join, Order, SELECT_ITEMS, Select, What};
use std::alloc::Global;

/// What stands after COUNT, where a bracket comes.
#[tactic(auto, unfolding(crate::specs::reading::Select::count_after))]
fn count_after(cursor: &mut Cursor) -> Result<What, RuleFault>
    ensures { Does rules.count_after cursor.old result cursor.new }
{
    cursor.mark(b"(")?;
    cursor.mark(b"*")?;
    cursor.mark(b")")?;
    Ok(What::Count)
}

/// What stands after SUM, where a bracket comes.
#[tactic(auto, unfolding(crate::specs::reading::Select::sum_of_after))]
fn sum_of_after(cursor: &mut Cursor, alloc: Global) -> Result<What, RuleFault>
    ensures { Does (rules.sum_of_after store_limits) cursor.old result cursor.new }
{
    cursor.mark(b"(")?;
    let column = col(cursor, alloc)?;
    cursor.mark(b")")?;
    Ok(What::SumOf(column))
}

/// What the item that begins with this name shows: COUNT and SUM are functions before a bracket.
#[tactic(auto, unfolding(crate::specs::reading::Select::what_after))]
fn what_after(cursor: &mut Cursor, alloc: Global, first: Name) -> Result<What, RuleFault>
    ensures { Does (rules.what_after store_limits first) cursor.old result cursor.new }
{
    let is_count = first.bytes() == b"count".as_slice();
    let is_sum = first.bytes() == b"sum".as_slice();
    if is_count && cursor.next_is_mark(b"(") {
        return count_after(cursor);
    }
    if !is_count && is_sum && cursor.next_is_mark(b"(") {
        return sum_of_after(cursor, alloc);
    }
    let column = col_after(cursor, alloc, first)?;
    Ok(What::Column(column))
}

/// The AS name of an item, if one stands there.
#[tactic(auto, unfolding(crate::specs::reading::Select::alias))]
fn alias(cursor: &mut Cursor, alloc: Global) -> Result<Option<Name>, RuleFault>
    ensures { Does (rules.alias store_limits) cursor.old result cursor.new }
{
    if cursor.next_is_word(b"AS") {
        cursor.word(b"AS")?;
        let called = cursor.name(alloc)?;
        return Ok(Some(called));
    }
    Ok(None)
}

/// An item.
#[tactic(auto, unfolding(crate::specs::reading::Select::item))]
fn item(cursor: &mut Cursor, alloc: Global) -> Result<Item, RuleFault>
    ensures { Does (rules.item store_limits) cursor.old result cursor.new }
{
    let first = cursor.name(alloc)?;
    let what = what_after(cursor, alloc, first)?;
    let alias = alias(cursor, alloc)?;
    Ok(Item { what, alias })
}

/// An item after that many others.
#[tactic(auto, unfolding(crate::specs::reading::Select::item_after))]
fn item_after(cursor: &mut Cursor, alloc: Global, count: usize) -> Result<Item, RuleFault>
    ensures { Does (rules.item_after store_limits count) cursor.old result cursor.new }
{
    if count < SELECT_ITEMS {
        return item(cursor, alloc);
    }
    Err(cursor.no_item())
}

/// The items of a select.
#[tactic(auto, unfolding(crate::specs::reading::Select::listed))]
fn listed(cursor: &mut Cursor, alloc: Global) -> Result<List<Item>, RuleFault>
    ensures { Does (rules.listed store_limits) cursor.old result cursor.new }
{
    let first = item_after(cursor, alloc, 0)?;
    let mut items = list_of_one(alloc, first)?;
    while cursor.next_is_mark(b",") {
        cursor.mark(b",")?;
        let count = items.items().len();
        let next = match item_after(cursor, alloc, count) {
            Ok(next) => next,
            Err(fault) => return Err(fault),
        };
        items.add(next)?;
    }
    Ok(items)
}

/// What a select shows.
#[tactic(auto, unfolding(crate::specs::reading::Select::items_rule))]
fn items(cursor: &mut Cursor, alloc: Global) -> Result<Items, RuleFault>
    ensures { Does (rules.items_rule store_limits) cursor.old result cursor.new }
{
    if cursor.next_is_mark(b"*") {
        cursor.mark(b"*")?;
        return Ok(Items::Star);
    }
    let found = listed(cursor, alloc)?;
    Ok(Items::Listed(found))
}

/// Whether an item is a column.
fn is_column(item: &Item) -> bool
    ensures { result ≡ rules.is_column item.now }
{
    match item.what {
        What::Column(_) => true,
        What::Count | What::SumOf(_) => false,
    }
}

/// Whether each item is a column.
fn all_columns(items: &[Item]) -> bool
    ensures { result ≡ list_all rules.is_column items.now }
{
    items.iter().all(|item| is_column(item))
}

/// Whether COUNT and SUM are among none of the items.
fn is_plain(items: &Items) -> bool
    ensures { result ≡ rules.is_plain items.now }
{
    match items {
        Items::Star => true,
        Items::Listed(listed) => all_columns(listed.items()),
    }
}

/// Whether items are listed.
fn is_listed(items: &Items) -> bool
    ensures { result ≡ rules.is_listed items.now }
{
    match items {
        Items::Star => false,
        Items::Listed(_) => true,
    }
}

/// A join.
#[tactic(auto, unfolding(crate::specs::reading::Select::join_rule))]
fn join(cursor: &mut Cursor, alloc: Global) -> Result<Join, RuleFault>
    ensures { Does (rules.join_rule store_limits) cursor.old result cursor.new }
{
    if cursor.next_is_word(b"INNER") {
        cursor.word(b"INNER")?;
    }
    cursor.word(b"JOIN")?;
    let table = cursor.name(alloc)?;
    cursor.word(b"ON")?;
    let left = col(cursor, alloc)?;
    cursor.mark(b"=")?;
    let right = col(cursor, alloc)?;
    Ok(Join { table, left, right })
}

/// The join of a select, if one stands there: where COUNT or SUM does, none can.
#[tactic(auto, unfolding(crate::specs::reading::Select::joined))]
fn joined(cursor: &mut Cursor, alloc: Global, items: &Items) -> Result<Option<Join>, RuleFault>
    ensures { Does (rules.joined store_limits items.now) cursor.old result cursor.new }
{
    if is_plain(items) && (cursor.next_is_word(b"INNER") || cursor.next_is_word(b"JOIN")) {
        let found = join(cursor, alloc)?;
        return Ok(Some(found));
    }
    Ok(None)
}

/// The GROUP BY of a select, if one stands there: after `*` and a join none can.
#[tactic(auto, unfolding(crate::specs::reading::Select::grouped_by))]
fn grouped_by(
    cursor: &mut Cursor,
    alloc: Global,
    items: &Items,
    join: &Option<Join>,
) -> Result<Option<ColRef>, RuleFault>
    ensures { Does (rules.grouped_by store_limits items.now join.now) cursor.old result cursor.new }
{
    if is_listed(items) && join.is_none() && cursor.next_is_word(b"GROUP") {
        cursor.word(b"GROUP")?;
        cursor.word(b"BY")?;
        let column = col(cursor, alloc)?;
        return Ok(Some(column));
    }
    Ok(None)
}

/// Whether an order goes down.
#[tactic(auto, unfolding(crate::specs::reading::Select::direction))]
fn direction(cursor: &mut Cursor) -> Result<bool, RuleFault>
    ensures { Does rules.direction cursor.old result cursor.new }
{
    if cursor.next_is_word(b"ASC") {
        cursor.word(b"ASC")?;
        return Ok(false);
    }
    if cursor.next_is_word(b"DESC") {
        cursor.word(b"DESC")?;
        return Ok(true);
    }
    Ok(false)
}

/// An order.
#[tactic(auto, unfolding(crate::specs::reading::Select::order_rule))]
fn order(cursor: &mut Cursor, alloc: Global) -> Result<Order, RuleFault>
    ensures { Does (rules.order_rule store_limits) cursor.old result cursor.new }
{
    cursor.word(b"ORDER")?;
    cursor.word(b"BY")?;
    let column = col(cursor, alloc)?;
    let down = direction(cursor)?;
    Ok(Order { column, down })
}

/// A select without its order.
#[tactic(auto, unfolding(crate::specs::reading::Select::query))]
pub fn query(cursor: &mut Cursor, alloc: Global) -> Result<Select, RuleFault>
    ensures { Does (rules.query store_limits NESTING_LEVELS) cursor.old result cursor.new }
{
    cursor.word(b"SELECT")?;
    let items = items(cursor, alloc)?;
    cursor.word(b"FROM")?;
    let from = cursor.name(alloc)?;
    let join = joined(cursor, alloc, &items)?;
    let cond = condition(cursor, alloc)?;
    let group = grouped_by(cursor, alloc, &items, &join)?;
    Ok(Select {
        items,
        from,
        join,
        cond,
        group,
        order: None,
    })
}

/// The order of a select, if one stands there.
#[tactic(auto, unfolding(crate::specs::reading::Select::ordered))]
fn ordered(cursor: &mut Cursor, alloc: Global) -> Result<Option<Order>, RuleFault>
    ensures { Does (rules.ordered store_limits) cursor.old result cursor.new }
{
    if cursor.next_is_word(b"ORDER") {
        let found = order(cursor, alloc)?;
        return Ok(Some(found));
    }
    Ok(None)
}

/// A select.
#[tactic(auto, unfolding(crate::specs::reading::Select::select))]
pub fn select(cursor: &mut Cursor, alloc: Global) -> Result<Select, RuleFault>
    ensures { Does (rules.select store_limits NESTING_LEVELS) cursor.old result cursor.new }
{
    let Select {
        items,
        from,
        join,
        cond,
        group,
        order: _,
    } = query(cursor, alloc)?;
    let order = ordered(cursor, alloc)?;
    Ok(Select {
        items,
        from,
        join,
        cond,
        group,
        order,
    })
}
