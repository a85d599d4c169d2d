use crate::field::{Field, byte_count_of, write_items};
use crate::number::{read_u32, write_u32};
use crate::unread::Unread;
use own_base::{List, Row, Value};
use own_model::TABLE_COLUMNS;
use std::alloc::{AllocError, Global};

impl Field for Row {
    ghost use Rattle.disk_model.specs.Bounds.{IsTypedRow, IsShortRow};
    ghost use Rattle.disk_model.specs.Spelling.{row_spelling};
    ghost use Rattle.disk_fields.specs.Reading.{row_at};

    ghost reading = { row_at };

    ghost spelling = { row_spelling };

    ghost is_bounded = { IsShortRow };

    ghost is_typed = { IsTypedRow };

    #[tactic(auto, unfolding(crate::specs::Reading::row_at))]
    fn read(alloc: Global, bytes: &[u8]) -> Result<(Row, &[u8]), Unread> {
        let (count, _) = read_u32(bytes)?;
        if count < 1 || count > TABLE_COLUMNS as u32 {
            return Err(Unread::Malformed);
        }
        let (values, rest) = List::<Value>::read(alloc, bytes)?;
        Ok((Row::from_values(values), rest))
    }

    fn byte_count(&self) -> u64 {
        4 + byte_count_of(self.values())
    }

    fn write(&self, out: &mut Vec<u8>) -> Result<(), AllocError> {
        write_u32(self.values().len() as u32, out)?;
        write_items(self.values(), out)
    }
}

/// A byte 1 and the row, or a byte 0 where there is none.
impl Field for Option<Row> {
    ghost use Rattle.disk_model.specs.Bounds.{IsTypedState, IsShortState};
    ghost use Rattle.disk_model.specs.Spelling.{state_spelling};
    ghost use Rattle.disk_fields.specs.Reading.{state_at};

    ghost reading = { state_at };

    ghost spelling = { state_spelling };

    ghost is_bounded = { IsShortState };

    ghost is_typed = { IsTypedState };

    #[tactic(auto, unfolding(crate::specs::Reading::state_at))]
    fn read(alloc: Global, bytes: &[u8]) -> Result<(Option<Row>, &[u8]), Unread> {
        match bytes {
            [] => Err(Unread::Malformed),
            [0, rest @ ..] => Ok((None, rest)),
            [1, rest @ ..] => {
                let (row, rest) = Row::read(alloc, rest)?;
                Ok((Some(row), rest))
            }
            [_, ..] => Err(Unread::Malformed),
        }
    }

    fn byte_count(&self) -> u64 {
        match self {
            None => 1,
            Some(row) => 1 + row.byte_count(),
        }
    }

    fn write(&self, out: &mut Vec<u8>) -> Result<(), AllocError> {
        match self {
            None => {
                out.push(0)?;
                Ok(())
            }
            Some(row) => {
                out.push(1)?;
                row.write(out)
            }
        }
    }
}
