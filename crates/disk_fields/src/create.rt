use crate::field::Field;
use crate::text::{read_text, write_text};
use crate::unread::Unread;
use own_model::CreateText;
use std::alloc::{AllocError, Global};

/// A byte 1 for a table or 2 for a view, and the text.
impl Field for CreateText {
    ghost use Rattle.std.specs.Prelude.{IsUtf8};
    ghost use Rattle.disk_model.specs.Bounds.{IsCountable};
    ghost use Rattle.disk_model.specs.Spelling.{create_spelling};
    ghost use Rattle.disk_fields.specs.Reading.{create_at};

    ghost reading = { create_at };

    ghost spelling = { create_spelling };

    ghost is_bounded = { λ create. IsCountable create.text };

    ghost is_typed = { λ create. IsUtf8 create.text };

    #[tactic(auto, unfolding(crate::specs::Reading::create_at))]
    fn read(alloc: Global, bytes: &[u8]) -> Result<(CreateText, &[u8]), Unread> {
        match bytes {
            [1, rest @ ..] => {
                let (text, rest) = read_text(alloc, u32::MAX, rest)?;
                Ok((CreateText { view: false, text }, rest))
            }
            [2, rest @ ..] => {
                let (text, rest) = read_text(alloc, u32::MAX, rest)?;
                Ok((CreateText { view: true, text }, rest))
            }
            _ => Err(Unread::Malformed),
        }
    }

    fn byte_count(&self) -> u64 {
        5 + self.text.bytes().len() as u64
    }

    fn write(&self, out: &mut Vec<u8>) -> Result<(), AllocError> {
        out.push(if self.view { 2 } else { 1 })?;
        write_text(&self.text, out)
    }
}
