ghost use Rattle.std.specs.Prelude.{◌≡◌, ◌++◌, OnOk};
ghost use Rattle.disk_model.specs.Bounds.{IsBounded, IsTyped};
ghost use Rattle.disk_model.specs.Spelling.{payload_spelling};
ghost use Rattle.rec_codec.specs.Encodable.{IsEncodable};
ghost use Rattle.rec_codec.specs.Framed.{Encodes, payload_length};

use crate::fault::EncodeFault;
use disk_fields::{Field, write_text, write_u32};
use disk_model::Commit;
use own_base::List;
use own_model::PAYLOAD_BYTES;
use std::alloc::{AllocError, Global};

/// How many bytes the payload has. Takes no memory.
fn payload_length(commit: &Commit) -> u64
    requires { IsEncodable commit.now }
    ensures { result ≡ payload_length commit.now }
{
    match commit {
        Commit::CreateTable(text) | Commit::CreateView(text) => 5 + text.bytes().len() as u64,
        Commit::Changes(puts) => 1 + puts.byte_count(),
        Commit::Forget(name) => 1 + name.byte_count(),
    }
}

/// Writes the payload at the end.
fn write_payload(commit: &Commit, out: &mut Vec<u8>) -> Result<(), AllocError>
    requires { IsBounded commit.now }
    ensures written { OnOk result (out.new.items ≡ out.old.items ++ payload_spelling commit.now) }
    ensures typed { OnOk result (IsTyped commit.now) }
{
    match commit {
        Commit::CreateTable(text) => {
            out.push(1)?;
            write_text(text, out)
        }
        Commit::CreateView(text) => {
            out.push(2)?;
            write_text(text, out)
        }
        Commit::Changes(puts) => {
            out.push(3)?;
            puts.write(out)
        }
        Commit::Forget(name) => {
            out.push(4)?;
            name.write(out)
        }
    }
}

/// The commit as the journal appends it: the length of its payload, the payload, and a closed gate. `TooBig` with the
/// payload's length comes exactly where that is more than `PAYLOAD_BYTES`. Memory is asked for once, for all bytes.
pub fn encode(alloc: Global, commit: &Commit) -> Result<List<u8>, EncodeFault>
    requires { IsEncodable commit.now }
    ensures { Encodes commit.now result }
{
    let length = payload_length(commit);
    if length > PAYLOAD_BYTES {
        return Err(EncodeFault::TooBig(length));
    }
    let mut out = Vec::with_capacity(alloc, length as usize + 5)?;
    write_u32(length as u32, &mut out)?;
    write_payload(commit, &mut out)?;
    out.push(0)?;
    Ok(List::from_vec(out))
}
