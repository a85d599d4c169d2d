ghost use Rattle.std.specs.Prelude.{◌≡◌, ◌<◌, ◌≤◌, ◌^◌, slice_get, IfOk};
ghost use Rattle.std.specs.Option.{option_copied};
ghost use Rattle.own_base.specs.Row.{row_size};

use crate::list::List;
use crate::make_copy::MakeCopy;
use crate::number::ColNo;
use crate::row_values::RowValues;
use crate::value::Value;
use std::alloc::{AllocError, Global};
use std::marker::Model;

/// A row, which contracts see as the list of its values, by column number. Whether it holds them alone or shares them
/// with its copies, no contract sees.
#[derive(Debug, Drop)]
pub struct Row {
    values: RowValues,
}

impl Model for Row {
    ghost use Rattle.std.specs.Prelude.{List};
    ghost use Rattle.own_base.specs.declared.value.Value.{Value as Seen};
    ghost use Rattle.own_base.specs.RowValues.{values_of};

    ghost Value = { List Seen };

    ghost view = { λ row. values_of row.values };
}

/// The size of a row without columns, in the unit of the weight limit.
pub const ROW_SIZE: u64 = 64;

impl Row {
    /// The row of these values, which it holds alone. Takes no memory.
    pub fn from_values(values: List<Value>) -> Row
        ensures { result ≡ values }
    {
        Row {
            values: RowValues::Alone(values),
        }
    }

    /// The same row, whose copies share its values from now on: a copy then takes no memory. Where memory is refused,
    /// the row is given up.
    pub fn into_shared(self, alloc: Global) -> Result<Row, AllocError>
        ensures { IfOk result (λ row. row ≡ self) }
    {
        let Row { values } = self;
        let values = values.into_shared(alloc)?;
        Ok(Row { values })
    }

    /// Lends the values, by column number. Takes no memory.
    pub fn values(&self) -> &[Value]
        ensures { result.now ≡ self.now }
    {
        self.values.values()
    }

    /// The value in a column. Takes no memory.
    pub fn get(&self, column: ColNo) -> Option<&Value>
        ensures { option_copied result ≡ slice_get self.now column.0 }
    {
        self.values().get(column.0 as usize)
    }

    /// The size, in the unit of the weight limit: `ROW_SIZE`, and that of each value. Takes no memory.
    pub fn size(&self) -> u64
        requires { row_size self.now < 2 ^ 64 }
        ensures { result ≡ row_size self.now }
    {
        let mut size = ROW_SIZE;
        for value in self.values() {
            size += value.size();
        }
        size
    }
}

impl MakeCopy for Row {
    /// A row that equals this one. A copy of a shared row is a count more on what it shares; `AllocError` comes there
    /// only where that count is full.
    fn copy(&self, alloc: Global) -> Result<Row, AllocError> {
        let values = self.values.copy(alloc)?;
        Ok(Row { values })
    }
}
