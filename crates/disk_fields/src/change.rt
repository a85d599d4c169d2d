use crate::field::Field;
use crate::number::{read_u32, write_u32};
use crate::unread::Unread;
use disk_model::Put;
use own_base::{Key, Row, RowName, TableNo};
use std::alloc::{AllocError, Global};

impl Field for RowName {
    ghost use Rattle.disk_model.specs.Bounds.{IsTypedName, IsShortName};
    ghost use Rattle.disk_model.specs.Spelling.{name_spelling};
    ghost use Rattle.disk_fields.specs.Reading.{name_at};

    ghost reading = { name_at };

    ghost spelling = { name_spelling };

    ghost is_bounded = { IsShortName };

    ghost is_typed = { IsTypedName };

    #[tactic(auto, unfolding(crate::specs::Reading::name_at))]
    fn read(alloc: Global, bytes: &[u8]) -> Result<(RowName, &[u8]), Unread> {
        let (table, rest) = read_u32(bytes)?;
        let (key, rest) = Key::read(alloc, rest)?;
        let name = RowName {
            table: TableNo(table),
            key,
        };
        Ok((name, rest))
    }

    fn byte_count(&self) -> u64 {
        4 + self.key.byte_count()
    }

    fn write(&self, out: &mut Vec<u8>) -> Result<(), AllocError> {
        write_u32(self.table.0, out)?;
        self.key.write(out)
    }
}

impl Field for Put {
    ghost use Rattle.disk_model.specs.Bounds.{IsTypedPut, IsShortPut};
    ghost use Rattle.disk_model.specs.Spelling.{put_spelling};
    ghost use Rattle.disk_fields.specs.Reading.{put_at};

    ghost reading = { put_at };

    ghost spelling = { put_spelling };

    ghost is_bounded = { IsShortPut };

    ghost is_typed = { IsTypedPut };

    #[tactic(auto, unfolding(crate::specs::Reading::put_at))]
    fn read(alloc: Global, bytes: &[u8]) -> Result<(Put, &[u8]), Unread> {
        let (name, rest) = RowName::read(alloc, bytes)?;
        let (after, rest) = <Option<Row>>::read(alloc, rest)?;
        Ok((Put { name, after }, rest))
    }

    fn byte_count(&self) -> u64 {
        self.name.byte_count() + self.after.byte_count()
    }

    fn write(&self, out: &mut Vec<u8>) -> Result<(), AllocError> {
        self.name.write(out)?;
        self.after.write(out)
    }
}
