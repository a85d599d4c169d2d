ghost use Rattle.std.specs.Prelude.{◌≡◌, IfOk, filter_map};
ghost use Rattle.std.specs.Option.{option_copied};
ghost use Rattle.query_model.specs.Footprints.{compared_key, first_key, pinned_by, pinned_key};
ghost use Rattle.pred_eval.specs.Pinned.{pinned_alone};

use own_base::{ColNo, Key};
use own_model::{BoundCond, BoundOperand, Cmp};
use row_reading::literal_key;
use std::alloc::{AllocError, Global};

/// The key that a comparison pins where it is `primary key = literal`.
fn compared_key(
    alloc: Global,
    key_column: ColNo,
    column: ColNo,
    sign: Cmp,
    right: &BoundOperand,
) -> Result<Option<Key>, AllocError>
    ensures { IfOk result (λ key. key ≡ compared_key key_column.0 column.0 sign right.now) }
{
    match (sign, right) {
        (Cmp::Eq, BoundOperand::Literal(value)) if column == key_column => {
            literal_key(alloc, Some(value))
        }
        _ => Ok(None),
    }
}

/// The key of a part that is `primary key = literal`.
#[tactic(auto, using(crate::proofs::PinnedParts::pinned_parts))]
fn pinned_alone(
    alloc: Global,
    part: &BoundCond,
    key_column: ColNo,
) -> Result<Option<Key>, AllocError>
    ensures { IfOk result (λ key. key ≡ pinned_alone key_column.0 part.now) }
{
    match part {
        BoundCond::Compare(column, sign, right) => {
            compared_key(alloc, key_column, *column, *sign, right)
        }
        BoundCond::Every(_) | BoundCond::Some1(_) | BoundCond::Not(_) | BoundCond::IsNull(_, _) =>
            Ok(None),
    }
}

/// The key of the first of some parts that is `primary key = literal`.
#[tactic(auto, using(crate::proofs::FirstKey::no_key_more, crate::proofs::FirstKey::first_key_here))]
fn first_pinned(
    alloc: Global,
    parts: &[BoundCond],
    key_column: ColNo,
) -> Result<Option<Key>, AllocError>
    ensures { IfOk result (λ key. key ≡ first_key (filter_map (pinned_alone key_column.0) parts.now)) }
{
    for part in parts {
        if let Some(key) = pinned_alone(alloc, part, key_column)? {
            return Ok(Some(key));
        }
    }
    Ok(None)
}

/// The primary key of the one row that a condition can keep, by its form: where it is `primary key = literal`, or has
/// it as a direct part of its AND.
#[tactic(auto, using(crate::proofs::PinnedParts::pinned_parts))]
fn pinned_by(alloc: Global, cond: &BoundCond, key_column: ColNo) -> Result<Option<Key>, AllocError>
    ensures { IfOk result (λ key. key ≡ pinned_by key_column.0 cond.now) }
{
    match cond {
        BoundCond::Every(parts) => first_pinned(alloc, parts.items(), key_column),
        BoundCond::Compare(column, sign, right) => {
            compared_key(alloc, key_column, *column, *sign, right)
        }
        BoundCond::Some1(_) | BoundCond::Not(_) | BoundCond::IsNull(_, _) => Ok(None),
    }
}

/// The primary key that the condition of a statement pins, so that it is about that row at most.
pub fn pinned_key(
    alloc: Global,
    cond: Option<&BoundCond>,
    key_column: ColNo,
) -> Result<Option<Key>, AllocError>
    ensures { IfOk result (λ key. key ≡ pinned_key key_column.0 (option_copied cond.entry)) }
{
    match cond {
        Some(cond) => pinned_by(alloc, cond, key_column),
        None => Ok(None),
    }
}
