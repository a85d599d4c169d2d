ghost use Rattle.std.specs.Prelude.{◌≡◌, false, IfOk};
ghost use Rattle.std.specs.declared.option.Option.TheVariants.{None};
ghost use Rattle.query_model.specs.Footprints.{base_items, both, item, select_items};

use crate::row_or_table::row_or_table;
use own_base::{List, TableNo};
use own_model::{BoundSelect, FootItem, Footprint, Schema, Source1};
use std::alloc::{AllocError, Global};

/// The whole of a table, read.
fn whole(table: TableNo) -> FootItem
    ensures { result ≡ item table None false }
{
    FootItem {
        table,
        key: None,
        write: false,
    }
}

/// The whole of two tables, read: that of the lower number first.
fn both(alloc: Global, left: TableNo, right: TableNo) -> Result<Footprint, AllocError>
    ensures { IfOk result (λ items. items ≡ both left right) }
{
    let (first, second) = if right.0 < left.0 {
        (right, left)
    } else {
        (left, right)
    };
    let mut items = List::new(alloc);
    items.add(whole(first))?;
    items.add(whole(second))?;
    Ok(items)
}

/// The whole of the tables of a view, read, by the source of its query, which is no view.
fn base_items(alloc: Global, source: &Source1) -> Result<Footprint, AllocError>
    ensures { IfOk result (λ items. items ≡ base_items source.now) }
{
    match source {
        Source1::Table(table) => {
            let mut items = List::new(alloc);
            items.add(whole(*table))?;
            Ok(items)
        }
        Source1::Pair { left, right, .. } => both(alloc, *left, *right),
        Source1::View(_) => Ok(List::new(alloc)),
    }
}

/// What a select reads: one row or a table, both tables of a join, or the tables of a view. In a join and in a view no
/// row is pinned, whatever the condition.
pub(crate) fn read_items(
    alloc: Global,
    schema: &Schema,
    query: &BoundSelect,
) -> Result<Footprint, AllocError>
    ensures { IfOk result (λ items. items ≡ select_items schema.now query.now) }
{
    match &query.source {
        Source1::Table(table) => row_or_table(alloc, schema, *table, query.cond.as_ref(), false),
        Source1::Pair { left, right, .. } => both(alloc, *left, *right),
        Source1::View(view) => match schema.views.items().get(view.0 as usize) {
            Some(definition) => base_items(alloc, &definition.query.source),
            None => Ok(List::new(alloc)),
        },
    }
}
