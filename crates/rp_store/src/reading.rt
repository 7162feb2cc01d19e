//! The records that bytes begin with.

ghost use Rattle.std.specs.Prelude.{◌≡◌, List, ℕ, length, IfOk};
ghost use Rattle.rp_store.specs.Records.{AreRecordsOf};

use rp_base::Rec;
use rp_codec::decode_front;
use std::alloc::{AllocError, Global};

/// The records of the bytes, and how many bytes are torn after them. It goes over the bytes once.
pub(crate) fn whole_records(alloc: Global, bytes: &[u8]) -> Result<(Vec<Rec>, usize), AllocError>
    ensures records { IfOk result (λ found. (torn : List ℕ)
        × AreRecordsOf bytes.now found.0.items torn × (length torn ≡ found.1)) }
{
    let mut records = Vec::new(alloc);
    let mut rest = bytes;
    while let Some((rec, used)) = decode_front(rest) {
        records.push(rec)?;
        let (_, after) = rest.split_at(used);
        rest = after;
    }
    Ok((records, rest.len()))
}
