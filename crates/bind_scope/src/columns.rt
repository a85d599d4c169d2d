ghost use Rattle.std.specs.Prelude.{◌≡◌, length, map, option_map, slice_get};
ghost use Rattle.std.specs.List.{zip};
ghost use Rattle.bind_scope.specs.Lent.{columns_of, heading_of, title_of};

use crate::item::item_at;
use own_base::Name;
use own_model::{Column, Kind};

/// The name and the kind of a column.
#[derive(Clone, Copy, Debug)]
pub struct Heading<'a> {
    pub name: &'a Name,
    pub kind: Kind,
}

/// The columns of a table or of a view, lent. A name that is neither has none.
#[derive(Clone, Copy, Debug)]
pub enum Columns<'a> {
    Nowhere,
    OfTable(&'a [Column]),
    OfView(&'a [Name], &'a [Kind]),
}

/// The column of a number, of a table.
#[tactic(auto, using(crate::proofs::Numbered::columns))]
fn of_table(columns: &[Column], number: usize) -> Option<Heading<'_>>
    ensures { option_map heading_of result ≡ slice_get (map title_of columns.now) number }
{
    match item_at(columns, number) {
        None => None,
        Some(column) => Some(Heading {
            name: &column.name,
            kind: column.kind,
        }),
    }
}

/// The column of a number, of a view.
#[tactic(auto, using(crate::proofs::Numbered::columns))]
fn of_view<'a>(names: &'a [Name], kinds: &[Kind], number: usize) -> Option<Heading<'a>>
    ensures { option_map heading_of result ≡ slice_get (zip names.now kinds.now) number }
{
    match item_at(names, number) {
        None => None,
        Some(name) => match item_at(kinds, number) {
            None => None,
            Some(kind) => Some(Heading { name, kind: *kind }),
        },
    }
}

impl<'a> Columns<'a> {
    /// How many there are.
    #[tactic(auto, using(crate::proofs::Numbered::columns))]
    pub fn len(&self) -> usize
        ensures { result ≡ length (columns_of self.now) }
    {
        match self {
            Columns::Nowhere => 0,
            Columns::OfTable(columns) => columns.len(),
            Columns::OfView(names, kinds) => names.len().min(kinds.len()),
        }
    }

    /// The column of a number.
    pub fn at(&self, number: usize) -> Option<Heading<'a>>
        ensures { option_map heading_of result ≡ slice_get (columns_of self.now) number }
    {
        match self {
            Columns::Nowhere => None,
            Columns::OfTable(columns) => of_table(columns, number),
            Columns::OfView(names, kinds) => of_view(names, kinds, number),
        }
    }
}
