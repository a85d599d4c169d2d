ghost use Rattle.std.specs.Prelude.{◌≡◌, ◌<◌, ◌+◌, ◌^◌, ◌++◌, length, option_map, slice_get};
ghost use Rattle.query_model.specs.Scope.{scope_from};
ghost use Rattle.bind_scope.specs.Lent.{columns_of, named_of, source_scope};

use crate::columns::Columns;
use own_base::{ColNo, Name};
use own_model::Kind;
use std::marker::Model;

/// A column that can be named: the table or view that it is of, its own name, its number in the source's row, its kind.
#[derive(Clone, Copy, Debug)]
pub struct Named<'a> {
    pub table: &'a Name,
    pub column: &'a Name,
    pub number: ColNo,
    pub kind: Kind,
}

/// A table or a view of FROM.
#[derive(Clone, Copy, Debug)]
pub struct Source<'a> {
    pub name: &'a Name,
    pub columns: Columns<'a>,
}

impl<'a> Source<'a> {
    /// The column of a number, where the source's columns stand in the row from `first` on.
    #[tactic(auto, using(crate::proofs::Numbered::scopes))]
    fn at(&self, first: usize, number: usize) -> Option<Named<'a>>
        requires { first + length (columns_of self.now.columns) < 2 ^ 32 }
        ensures { option_map named_of result ≡ slice_get (source_scope first self.now) number }
    {
        match self.columns.at(number) {
            None => None,
            Some(heading) => Some(Named {
                table: self.name,
                column: heading.name,
                number: ColNo((first + number) as u32),
                kind: heading.kind,
            }),
        }
    }
}

/// The columns that a statement can name, in the order of the source's row. Contracts see them as a list.
#[derive(Debug, Drop)]
pub struct Scope<'a> {
    left: Source<'a>,
    right: Source<'a>,
}

impl<'a> Model for Scope<'a> {
    ghost use Rattle.std.specs.Prelude.{◌+◌, ◌++◌, ◌<◌, ◌^◌, List, length};
    ghost use Rattle.query_model.specs.Scope.{Named as Seen};
    ghost use Rattle.bind_scope.specs.Lent.{columns_of, source_scope};

    ghost Value = { List Seen };

    ghost view = { λ scope. source_scope 0 scope.left ++ source_scope (length (columns_of scope.left.columns)) scope.right };

    ghost invariant = { λ scope. length (columns_of scope.left.columns) + length (columns_of scope.right.columns) < 2 ^ 32 };
}

impl<'a> Scope<'a> {
    /// The columns of one table or view.
    pub fn of_one(source: Source<'a>) -> Scope<'a>
        requires { length (columns_of source.columns) < 2 ^ 32 }
        ensures { result ≡ source_scope 0 source.entry }
    {
        let right = Source {
            name: source.name,
            columns: Columns::Nowhere,
        };
        Scope {
            left: source,
            right,
        }
    }

    /// The columns of two tables.
    pub fn of_two(left: Source<'a>, right: Source<'a>) -> Scope<'a>
        requires { length (columns_of left.columns) + length (columns_of right.columns) < 2 ^ 32 }
        ensures { result ≡ source_scope 0 left.entry ++ source_scope (length (columns_of left.entry.columns)) right.entry }
    {
        Scope { left, right }
    }

    /// How many there are.
    #[tactic(auto, using(crate::proofs::Numbered::scopes))]
    pub fn len(&self) -> usize
        ensures { result ≡ length self.now }
    {
        self.left.columns.len() + self.right.columns.len()
    }

    /// The column of a number.
    #[tactic(auto, using(crate::proofs::Numbered::scopes))]
    pub fn at(&self, number: usize) -> Option<Named<'a>>
        ensures { option_map named_of result ≡ slice_get self.now number }
    {
        let before = self.left.columns.len();
        if number < before {
            self.left.at(0, number)
        } else {
            self.right.at(before, number - before)
        }
    }
}
