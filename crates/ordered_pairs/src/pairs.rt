ghost use Rattle.std.specs.Prelude.{◌≡◌, [], true, false, IfOk, OnErr, OnOk, length, map};
ghost use Rattle.std.specs.List.{AllByRecursion};
ghost use Rattle.page_model.specs.Rising.{IsRising};
ghost use Rattle.page_model.specs.Run.{IsRunFrom};
ghost use Rattle.ordered_pairs.specs.Has.{has, Sets};
ghost use Rattle.ordered_pairs.specs.PairOrder.{pair_cmp};
ghost use Rattle.ordered_pairs.specs.RangeOf.{IsRangeOf};
ghost use Rattle.ordered_pairs.specs.RightsOf.{rights_of};

use crate::by_pair::ByPair;
use crate::left_bound::{Before, Upto};
use crate::ordered::Ordered;
use crate::pair_change::PairChange;
use own_base::MakeCopy;
use page_tree::Pages;
use std::alloc::{AllocError, Global};
use std::marker::Model;

/// Pairs in the order of their left sides, then of their right ones, none twice. They represent a relation: which values on
/// the right belong to one on the left. Contracts see the list of the pairs.
#[derive(Drop)]
pub struct Pairs<A: Ordered, B: Ordered> {
    pages: Pages<(A, B), ByPair>,
}

impl<A: Ordered, B: Ordered> Model for Pairs<A, B> {
    ghost use Rattle.std.specs.Prelude.{List};
    ghost use Rattle.page_model.specs.Paged.{items};

    ghost Value = { List (A × B) };

    ghost view = { λ pairs. items pairs.pages };
}

impl<A: Ordered, B: Ordered> Pairs<A, B> {
    /// No pair. Takes no memory.
    pub fn new() -> Pairs<A, B>
        ensures { result ≡ [] }
    {
        Pairs {
            pages: Pages::new(ByPair),
        }
    }

    /// How many pairs there are. Takes no memory.
    pub fn len(&self) -> usize
        ensures count { result ≡ length self.now }
        ensures rising { IsRising (λ pair. pair) (pair_cmp A.order B.order) self.now }
    {
        self.pages.len()
    }

    /// Whether a pair is among these. Takes no memory.
    pub fn has(&self, pair: &(A, B)) -> bool
        ensures { result ≡ has A.order B.order self.now pair.now.0 pair.now.1 }
    {
        self.pages.get(pair).is_some()
    }

    /// Where the pairs that have a value on the left begin, and where those behind them. Takes no memory.
    fn range(&self, left: &A) -> (usize, usize)
        ensures range { IsRangeOf A.order self.now left.now result.0 result.1 }
        ensures rising { IsRising (λ pair. pair) (pair_cmp A.order B.order) self.now }
    {
        // By the clauses of `len` they rise.
        let _pairs = self.len();
        let from = self.pages.place_of(&Before { left });
        let upto = self.pages.place_of(&Upto { left });
        (from, upto)
    }

    /// How many values belong to one. Takes no memory.
    pub fn count(&self, left: &A) -> usize
        ensures count { result ≡ length (rights_of A.order self.now left.now) }
        ensures rising { IsRising (λ pair. pair) (pair_cmp A.order B.order) self.now }
    {
        let (from, upto) = self.range(left);
        upto - from
    }

    /// Lends a run of the pairs that have a value on the left, from a place of the rising list of what belongs to it on,
    /// counted from 0: at least one where there is one, and none past the end. Called again behind each run, it goes over all
    /// of them. Takes no memory.
    pub fn run_from(&self, left: &A, place: usize) -> &[(A, B)]
        ensures left { AllByRecursion (λ pair. pair.0 ≡ left.now) result.now }
        ensures run { IsRunFrom (rights_of A.order self.now left.now) place (map (λ pair. pair.1) result.now) }
        ensures rising { IsRising (λ pair. pair) (pair_cmp A.order B.order) self.now }
    {
        let (from, upto) = self.range(left);
        if upto - from <= place {
            return &[];
        }
        let run = self.pages.run_from(from + place);
        &run[..run.len().min(upto - from - place)]
    }
}

impl<A: Ordered + MakeCopy + Drop, B: Ordered + MakeCopy + Drop> Pairs<A, B> {
    /// Puts a pair among these, where it isn't, in place as far as nobody shares what it falls into. After `AllocError` they
    /// are as they were.
    pub fn set(&mut self, alloc: Global, pair: &(A, B)) -> Result<(), AllocError>
        ensures set { OnOk result (Sets A.order B.order pair.now true self.old self.new) }
        ensures unchanged { OnErr result (self.new ≡ self.old) }
    {
        self.pages.change(alloc, &PairChange { pair, put: true })
    }

    /// Takes a pair away, where it is there, in place as far as nobody shares what it falls into. After `AllocError` they are
    /// as they were.
    pub fn take_away(&mut self, alloc: Global, pair: &(A, B)) -> Result<(), AllocError>
        ensures set { OnOk result (Sets A.order B.order pair.now false self.old self.new) }
        ensures unchanged { OnErr result (self.new ≡ self.old) }
    {
        self.pages.change(alloc, &PairChange { pair, put: false })
    }

    /// These with a pair more. They stay as they are.
    pub fn with(&self, alloc: Global, pair: &(A, B)) -> Result<Pairs<A, B>, AllocError>
        ensures { IfOk result (λ after. Sets A.order B.order pair.now true self.now after) }
    {
        let mut after = self.copy(alloc)?;
        after.set(alloc, pair)?;
        Ok(after)
    }

    /// These without a pair. They stay as they are.
    pub fn without(&self, alloc: Global, pair: &(A, B)) -> Result<Pairs<A, B>, AllocError>
        ensures { IfOk result (λ after. Sets A.order B.order pair.now false self.now after) }
    {
        let mut after = self.copy(alloc)?;
        after.take_away(alloc, pair)?;
        Ok(after)
    }
}

impl<A: Ordered, B: Ordered> MakeCopy for Pairs<A, B> {
    /// The same pairs, in pages that both share. Takes no memory; `AllocError` comes only where the count of those that share
    /// is full.
    fn copy(&self, alloc: Global) -> Result<Pairs<A, B>, AllocError> {
        let pages = self.pages.copy(alloc)?;
        Ok(Pairs { pages })
    }
}
