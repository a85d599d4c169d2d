ghost use Rattle.std.specs.Prelude.{◌≡◌, ◌<◌, ◌∷◌, [], ◌++◌, List as Seq, length, unwrap_or, IfOk, OnOk};
ghost use Rattle.std.specs.Option.{option_copied};
ghost use Rattle.own_model.specs.Db.{Row as Values};
ghost use Rattle.own_model.specs.Stored.{rows_at};
ghost use Rattle.query_eval.specs.ByValue.{by_value};
ghost use Rattle.query_eval.specs.Meetings.{meeting};

use crate::group_value::GroupValue;
use crate::row_list::RowList;
use crate::table_rows::TableRows;
use own_base::{ColNo, Row, TableNo, Value};
use own_model::StoreView;
use row_reading::cell;
use std::alloc::{AllocError, Global};
use std::collections::BTreeMap;

/// Rows by what stands in a column.
#[derive(Drop)]
pub(crate) struct ValueIndex<'a> {
    column: ColNo,
    rows: BTreeMap<GroupValue<'a>, RowList<'a>>,
}

impl<'a> ValueIndex<'a> {
    /// No rows yet. It takes no memory.
    pub(crate) fn new(alloc: Global, column: ColNo) -> ValueIndex<'a>
        ensures column { result.column ≡ column }
        ensures rows { result.rows.entries ≡ by_value (λ rows. rows) column.0 [] }
    {
        ValueIndex {
            column,
            rows: BTreeMap::new(alloc),
        }
    }

    /// The rows of a table by what stands in a column.
    pub(crate) fn of_table<V: StoreView>(
        alloc: Global,
        view: &'a V,
        table: TableNo,
        column: ColNo,
    ) -> Result<ValueIndex<'a>, AllocError>
        requires { table.0 < length (V.db view.now).schema.tables }
        ensures column { IfOk result (λ index. index.column ≡ column) }
        ensures rows { IfOk result (λ index. index.rows.entries ≡ by_value (λ rows. rows) column.0 (rows_at (V.db view.now).rows table.0)) }
    {
        let mut index = ValueIndex::new(alloc, column);
        for row in TableRows::new(view, table) {
            index.add(alloc, row)?;
        }
        Ok(index)
    }

    /// One row more than some.
    pub(crate) fn add(&mut self, alloc: Global, row: &'a Row) -> Result<(), AllocError>
        ensures column { OnOk result (self.new.column ≡ self.old.column) }
        ensures rows { OnOk result ((rows : Seq Values) → self.old.rows.entries ≡ by_value (λ rows. rows) self.old.column.0 rows
            → self.new.rows.entries ≡ by_value (λ rows. rows) self.old.column.0 (rows ++ row.now ∷ [])) }
    {
        let value = GroupValue::new(cell(row, self.column));
        if let Some(rows) = self.rows.get_mut(&value) {
            rows.push(row)?;
            return Ok(());
        }
        let mut rows = RowList::new(alloc);
        rows.push(row)?;
        self.rows.insert(value, rows)?;
        Ok(())
    }

    /// The rows that meet a value in a join, where there are some; none is NULL. Takes no memory.
    pub(crate) fn meeting(&self, value: Option<&'a Value>) -> Option<&RowList<'a>>
        ensures { (rows : Seq Values) → self.now.rows.entries ≡ by_value (λ rows. rows) self.now.column.0 rows
            → unwrap_or (option_copied result) [] ≡ meeting (unwrap_or (option_copied value.entry) Value.Null) self.now.column.0 rows }
    {
        let value = GroupValue::new(value);
        if value.is_null() {
            return None;
        }
        self.rows.get(&value)
    }
}
