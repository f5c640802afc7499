// Ported from base.rs of raptorq 2.0.1 (Apache-2.0) and changed.
// A packet: a payload id, and the bytes of its symbols (RFC 6330, 4.4.2).
ghost use Rattle.std.specs.Prelude.{◌≡◌};
ghost use Rattle.headers.specs.Headers.{PacketStored, head_outcome, headed, packet_outcome, read_packet};

use crate::beneath::{big_endian, front};
use crate::payload_id::PayloadId;
use field::refusal::Refusal;

// Where the reading of a packet goes on.
#[derive(Clone, Copy, Debug, PartialEq, Eq)]
pub struct Cursor {
    pub at: usize,
}

// The symbols' bytes are the `len` from `from` on: all that follow the id.
#[derive(Clone, Copy, Debug, PartialEq, Eq)]
pub struct Packet {
    pub payload_id: PayloadId,
    pub from: usize,
    pub len: usize,
}

pub fn read_head(bytes: &[u8]) -> Result<(PayloadId, Cursor), Refusal>
    ensures { head_outcome result ≡ headed bytes.now }
{
    if bytes.len() < 4 {
        return Err(Refusal::WrongLength);
    }
    Ok((front::get(bytes), Cursor { at: 4 }))
}

pub fn deserialize(bytes: &[u8]) -> Result<Packet, Refusal>
    ensures { packet_outcome result ≡ read_packet bytes.now }
{
    let head = read_head(bytes);
    let Ok((payload_id, cursor)) = head else {
        return Err(head.unwrap_err());
    };
    let from = cursor.at;
    let len = bytes.len() - from;
    Ok(Packet {
        payload_id,
        from,
        len,
    })
}

pub fn serialize(id: PayloadId, bytes: &[u8], store: &mut [u8]) -> Result<(), Refusal>
    ensures { PacketStored id bytes.now store.old store.new result }
{
    if id.encoding_symbol_id >= 16777216 {
        return Err(Refusal::BadCount);
    }
    if store.len() < 4 {
        return Err(Refusal::WrongLength);
    }
    if store.len() - 4 < bytes.len() {
        return Err(Refusal::WrongLength);
    }
    front::put(store, id);
    big_endian::copy(store, 4, bytes);
    Ok(())
}
