//! Which selects are grouped.
ghost use Rattle.std.specs.Prelude.{◌≡◌};
ghost use Rattle.std.specs.List.{list_any};
ghost use Rattle.query_model.specs.SelectFaults as spec;

use own_model::{Item, Items, Select, What};

/// The items that are listed; a star lists none.
pub fn listed_items(items: &Items) -> &[Item]
    ensures { result.now ≡ spec.listed_items items.now }
{
    match items {
        Items::Star => &[],
        Items::Listed(items) => items.items(),
    }
}

/// Whether an item is COUNT or SUM.
fn counts_or_sums(item: &Item) -> bool
    ensures { result ≡ spec.counts_or_sums item.now }
{
    match &item.what {
        What::Column(_) => false,
        What::Count | What::SumOf(_) => true,
    }
}

/// Whether one of these items is.
fn any_counts_or_sums(items: &[Item]) -> bool
    ensures { result ≡ list_any spec.counts_or_sums items.now }
{
    items.iter().any(counts_or_sums)
}

/// Whether a select is grouped: it has COUNT, SUM or GROUP BY.
pub fn is_grouped(select: &Select) -> bool
    ensures { result ≡ spec.is_grouped select.now }
{
    select.group.is_some() || any_counts_or_sums(listed_items(&select.items))
}
