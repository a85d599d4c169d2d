ghost use Rattle.std.specs.Prelude.{◌≡◌, None, Some, is_none, option_map, slice_get};
ghost use Rattle.std.specs.Option.{option_map_or, option_to_list};
ghost use Rattle.query_model.specs.Scope as spec;
ghost use Rattle.query_model.specs.SelectFaults.{is_of_one_table, is_one_column};
ghost use Rattle.bind_scope.specs.Lent.{named_of};

use crate::scope::{Named, Scope};
use own_base::ColNo;
use own_model::{ColRef, Kind};
use row_reading::is_same_name;
use std::marker::Model;

/// The column that a reference means, where it means one. Contracts see it as a column of the scope.
#[derive(Debug, Drop)]
pub struct Meant<'a> {
    named: Option<Named<'a>>,
}

impl<'a> Model for Meant<'a> {
    ghost use Rattle.std.specs.Prelude.{Option, option_map};
    ghost use Rattle.query_model.specs.Scope.{Named as Seen};
    ghost use Rattle.bind_scope.specs.Lent.{named_of};

    ghost Value = { Option Seen };

    ghost view = { λ meant. option_map named_of meant.named };
}

impl<'a> Meant<'a> {
    /// Whether the reference means no column.
    pub fn is_none(&self) -> bool
        ensures { result ≡ is_none self.now }
    {
        self.named.is_none()
    }

    /// Whether both are one column.
    pub fn is_one_column(&self, other: &Meant<'_>) -> bool
        ensures { result ≡ is_one_column self.now other.now }
    {
        match (&self.named, &other.named) {
            (Some(left), Some(right)) => left.number == right.number,
            _ => false,
        }
    }

    /// Whether both are columns of one table.
    pub fn is_of_one_table(&self, other: &Meant<'_>) -> bool
        ensures { result ≡ is_of_one_table self.now other.now }
    {
        match (&self.named, &other.named) {
            (Some(left), Some(right)) => is_same_name(left.table, right.table),
            _ => false,
        }
    }

    /// Its number; that of the first where there is no column.
    pub fn number(&self) -> ColNo
        ensures { result.0 ≡ option_map_or (λ named. named.number) self.now 0 }
    {
        match &self.named {
            None => ColNo(0),
            Some(named) => named.number,
        }
    }

    /// Its kind.
    pub fn kind(&self) -> Option<Kind>
        ensures { result ≡ option_map_or (λ named. Some named.kind) self.now None }
    {
        match &self.named {
            None => None,
            Some(named) => Some(named.kind),
        }
    }
}

/// Whether a reference names a column.
fn is_meant(reference: &ColRef, named: &Named<'_>) -> bool
    ensures { result ≡ spec.is_meant reference.now (named_of named.now) }
{
    is_same_name(named.column, &reference.column)
        && match &reference.table {
            None => true,
            Some(table) => is_same_name(named.table, table),
        }
}

impl<'a> Scope<'a> {
    /// The column of a number, where the reference names it.
    fn meant_at(&self, reference: &ColRef, number: usize) -> Option<Named<'a>>
        ensures { option_to_list (option_map named_of result) ≡ spec.meant (option_to_list (slice_get self.now number)) reference.now }
    {
        match self.at(number) {
            Some(named) if is_meant(reference, &named) => Some(named),
            _ => None,
        }
    }

    /// The column that a reference means: the one that it names. A bare name of two tables means none.
    #[tactic(auto, using(crate::proofs::Only::steps), unfolding(query_model::specs::Scope::column_meant))]
    pub fn find(&self, reference: &ColRef) -> Meant<'a>
        ensures { result ≡ spec.column_meant self.now reference.now }
    {
        let mut found = None;
        for number in 0..self.len() {
            if let Some(named) = self.meant_at(reference, number) {
                if found.is_some() {
                    return Meant { named: None };
                }
                found = Some(named);
            }
        }
        Meant { named: found }
    }
}
