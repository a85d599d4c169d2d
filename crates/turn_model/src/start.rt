use std::marker::Model;

/// A start as data that threads agree on. Nobody makes one.
pub struct Started {
    none: (),
}

impl Model for Started {
    ghost use Rattle.own_model.specs.contracts.condition.Cond as cond;
    ghost use Rattle.own_model.specs.contracts.bound.BoundCond as bound;
    ghost use Rattle.std.specs.Coded.{codes};
    ghost use Rattle.turn_model.specs.Start.{Start, nothing};

    ghost Value = { Start };

    ghost coded = { Prim.hlevel (codes, cond.the_row.coded, bound.the_row.coded) };

    ghost view = { λ started. nothing };
}
