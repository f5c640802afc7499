// Ported from base.rs of raptorq 2.0.1 (Apache-2.0) and changed.
// The payload id at the front of four bytes or more: those of an id alone, or of a packet.
ghost use Rattle.std.specs.Prelude.{◌≡◌, ◌≤◌, length};
ghost use Rattle.headers.specs.Bytes.{Laid};
ghost use Rattle.headers.specs.Headers.{id_at, id_bytes};

use crate::beneath::big_endian;
use crate::payload_id::PayloadId;

pub fn get(bytes: &[u8]) -> PayloadId
    requires { 4 ≤ length bytes.now }
    ensures { result ≡ id_at bytes.now }
{
    let source_block_number = bytes[0];
    let encoding_symbol_id = big_endian::get(bytes, 1, 3) as u32;
    PayloadId {
        source_block_number,
        encoding_symbol_id,
    }
}

pub fn put(store: &mut [u8], id: PayloadId)
    requires { 4 ≤ length store.old }
    ensures { Laid (id_bytes id) store.old store.new 0 }
{
    big_endian::put(store, 0, 1, u64::from(id.source_block_number));
    big_endian::put(store, 1, 3, u64::from(id.encoding_symbol_id));
}
