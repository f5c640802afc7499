// Ported from base.rs of raptorq 2.0.1 (Apache-2.0) and changed.
// The payload id: the block's number in one byte, the encoding symbol id in three (RFC 6330, 3.2).
ghost use Rattle.std.specs.Prelude.{◌≡◌};
ghost use Rattle.field.specs.Answer.{outcome};
ghost use Rattle.headers.specs.Headers.{IdStored, read_id};

use crate::beneath::front;
use field::refusal::Refusal;

#[derive(Clone, Copy, Debug, PartialEq, Eq)]
pub struct PayloadId {
    pub source_block_number: u8,
    pub encoding_symbol_id: u32,
}

pub fn deserialize(bytes: &[u8]) -> Result<PayloadId, Refusal>
    ensures { outcome result ≡ read_id bytes.now }
{
    if bytes.len() != 4 {
        return Err(Refusal::WrongLength);
    }
    Ok(front::get(bytes))
}

pub fn serialize(id: PayloadId, store: &mut [u8]) -> Result<(), Refusal>
    ensures { IdStored id store.old store.new result }
{
    if id.encoding_symbol_id >= 16777216 {
        return Err(Refusal::BadCount);
    }
    if store.len() < 4 {
        return Err(Refusal::WrongLength);
    }
    front::put(store, id);
    Ok(())
}
