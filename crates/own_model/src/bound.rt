ghost use Rattle.std.specs.Prelude.{◌≡◌, IfOk};

use crate::condition::Cmp;
use own_base::{Boxed, ColNo, List, MakeCopy, Row, Subject, TableNo, Value, ViewNo};
use std::alloc::{AllocError, Global};

/// A statement whose names are numbers of a schema.
#[derive(Debug, Drop)]
pub enum Bound {
    Select(BoundSelect),
    Insert {
        table: TableNo,
        rows: List<Row>,
    },
    Update {
        table: TableNo,
        sets: List<(ColNo, BoundExpr)>,
        cond: Option<BoundCond>,
    },
    Delete {
        table: TableNo,
        cond: Option<BoundCond>,
    },
    Get(Subject),
    Forget(Subject),
    Explain,
}

/// A select whose columns count over its source's row; the order of a grouped select counts over its items.
#[derive(Debug, Drop)]
pub struct BoundSelect {
    pub source: Source1,
    pub items: List<BoundItem>,
    pub cond: Option<BoundCond>,
    pub grouped: bool,
    pub group: Option<ColNo>,
    /// The column, and whether the order is DESC.
    pub order: Option<(ColNo, bool)>,
}

/// Where a select's rows come from. In a pair's row the left table's columns come first.
#[derive(Debug, Drop)]
pub enum Source1 {
    Table(TableNo),
    View(ViewNo),
    Pair {
        left: TableNo,
        right: TableNo,
        left_column: ColNo,
        right_column: ColNo,
    },
}

/// What a select shows.
#[derive(Debug, Drop)]
pub enum BoundItem {
    Column(ColNo),
    Count,
    SumOf(ColNo),
}

/// A condition over columns by number. The two lists have at least two members.
#[derive(Debug, Drop)]
pub enum BoundCond {
    /// AND of its members.
    Every(List<BoundCond>),
    /// OR of its members.
    Some1(List<BoundCond>),
    Not(Boxed<BoundCond>),
    Compare(ColNo, Cmp, BoundOperand),
    /// IS NULL, or with true IS NOT NULL.
    IsNull(ColNo, bool),
}

/// The right side of a comparison.
#[derive(Debug, Drop)]
pub enum BoundOperand {
    Column(ColNo),
    Literal(Value),
}

/// What an UPDATE sets a column to.
#[derive(Debug, Drop)]
pub enum BoundExpr {
    Literal(Value),
    Column(ColNo),
    Plus(ColNo, i64),
    Minus(ColNo, i64),
}

impl MakeCopy for Source1 {
    fn copy(&self, _alloc: Global) -> Result<Source1, AllocError> {
        match self {
            Source1::Table(table) => Ok(Source1::Table(*table)),
            Source1::View(view) => Ok(Source1::View(*view)),
            Source1::Pair {
                left,
                right,
                left_column,
                right_column,
            } => Ok(Source1::Pair {
                left: *left,
                right: *right,
                left_column: *left_column,
                right_column: *right_column,
            }),
        }
    }
}

impl MakeCopy for BoundItem {
    fn copy(&self, _alloc: Global) -> Result<BoundItem, AllocError> {
        match self {
            BoundItem::Column(column) => Ok(BoundItem::Column(*column)),
            BoundItem::Count => Ok(BoundItem::Count),
            BoundItem::SumOf(column) => Ok(BoundItem::SumOf(*column)),
        }
    }
}

impl MakeCopy for BoundOperand {
    fn copy(&self, alloc: Global) -> Result<BoundOperand, AllocError> {
        match self {
            BoundOperand::Column(column) => Ok(BoundOperand::Column(*column)),
            BoundOperand::Literal(value) => Ok(BoundOperand::Literal(value.copy(alloc)?)),
        }
    }
}

/// A copy of the parts of a condition, in order.
#[cycle(condition)]
fn copied_parts(alloc: Global, parts: &[BoundCond]) -> Result<List<BoundCond>, AllocError>
    ensures { IfOk result (λ copy. copy ≡ parts.now) }
{
    let mut copied = List::new(alloc);
    for part in parts {
        copied.add(copied_condition(alloc, part)?)?;
    }
    Ok(copied)
}

/// A copy of a condition.
#[cycle(condition)]
fn copied_condition(alloc: Global, cond: &BoundCond) -> Result<BoundCond, AllocError>
    ensures { IfOk result (λ copy. copy ≡ cond.now) }
{
    match cond {
        BoundCond::Every(parts) => Ok(BoundCond::Every(copied_parts(alloc, parts.items())?)),
        BoundCond::Some1(parts) => Ok(BoundCond::Some1(copied_parts(alloc, parts.items())?)),
        BoundCond::Not(part) => {
            let inner = copied_condition(alloc, part.get())?;
            Ok(BoundCond::Not(Boxed::new(alloc, inner)?))
        }
        BoundCond::Compare(column, comparison, right) => Ok(BoundCond::Compare(
            *column,
            *comparison,
            right.copy(alloc)?,
        )),
        BoundCond::IsNull(column, negated) => Ok(BoundCond::IsNull(*column, *negated)),
    }
}

impl MakeCopy for BoundCond {
    fn copy(&self, alloc: Global) -> Result<BoundCond, AllocError> {
        copied_condition(alloc, self)
    }
}

impl MakeCopy for BoundSelect {
    fn copy(&self, alloc: Global) -> Result<BoundSelect, AllocError> {
        let source = self.source.copy(alloc)?;
        let items = self.items.copy(alloc)?;
        let cond = self.cond.copy(alloc)?;
        Ok(BoundSelect {
            source,
            items,
            cond,
            grouped: self.grouped,
            group: self.group,
            order: self.order,
        })
    }
}
