ghost use Rattle.std.specs.Prelude.{◌≡◌, ◌<◌, ◌++◌, IfOk, OnOk, length};
ghost use Rattle.std.specs.Option.{option_to_list};
ghost use Rattle.own_model.specs.Db.{IsOrdered};
ghost use Rattle.owner_sets.specs.Links.{link, link_at, links};
ghost use Rattle.schema_model.specs.OwnerSchema.{named_table};

use crate::link::Link;
use crate::places::place_named;
use own_base::TableNo;
use own_model::{Edge, StoreView};
use std::alloc::{AllocError, Global};

/// The table that an edge's column names.
fn named_table(edge: &Edge) -> TableNo
    ensures { result ≡ named_table edge.now }
{
    if edge.holder == edge.lower {
        edge.upper
    } else {
        edge.lower
    }
}

/// The row that holds an edge's column and the one that it names, as a lower row and an upper one.
fn link(edge: &Edge, holder: u64, named: u64) -> Link
    ensures { result ≡ link edge.now holder named }
{
    if edge.holder == edge.lower {
        Link {
            lower: holder,
            upper: named,
        }
    } else {
        Link {
            lower: named,
            upper: holder,
        }
    }
}

/// What an edge joins to the row at a place of the table that holds its column.
#[tactic(auto, unfolding(crate::specs::Links::link_at))]
fn link_at<V: StoreView>(view: &V, edge: &Edge, at: u64) -> Option<Link>
    requires holder { edge.now.holder.0 < length (V.db view.now).schema.tables }
    requires named { (named_table edge.now).0 < length (V.db view.now).schema.tables }
    ensures { result ≡ link_at (V.db view.now).schema (V.db view.now).rows edge.now at }
{
    let value = match view.row_at(edge.holder, at) {
        Some(row) => row.get(edge.column),
        None => None,
    };
    match place_named(view, named_table(edge), value) {
        Some(named) => Some(link(edge, at, named)),
        None => None,
    }
}

/// Adds a link, where there is one.
fn add_link(found: &mut Vec<Link>, link: Option<Link>) -> Result<(), AllocError>
    ensures { OnOk result (found.new.items ≡ found.old.items ++ option_to_list link) }
{
    match link {
        Some(link) => {
            found.push(link)?;
            Ok(())
        }
        None => Ok(()),
    }
}

/// All that an edge joins. Each row that holds its column is looked at once, and the row that it names is looked up.
pub fn links<V: StoreView>(alloc: Global, view: &V, edge: &Edge) -> Result<Vec<Link>, AllocError>
    requires holder { edge.now.holder.0 < length (V.db view.now).schema.tables }
    requires named { (named_table edge.now).0 < length (V.db view.now).schema.tables }
    ensures { IfOk result (λ found. found.items ≡ links (V.db view.now).schema (V.db view.now).rows edge.now) }
{
    let mut found = Vec::new(alloc);
    for at in 0..view.count(edge.holder) {
        let link = link_at(view, edge, at);
        add_link(&mut found, link)?;
    }
    Ok(found)
}
