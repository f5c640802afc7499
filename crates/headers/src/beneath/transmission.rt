// Ported from base.rs of raptorq 2.0.1 (Apache-2.0) and changed.
// The transmission information at the front of twelve bytes or more: those of the information alone, or of a delivery.
ghost use Rattle.std.specs.Prelude.{◌≡◌, ◌≤◌, length};
ghost use Rattle.headers.specs.Headers.{info_at};

use crate::beneath::big_endian;
use crate::transmission::ObjectTransmissionInformation;

pub fn get(bytes: &[u8]) -> ObjectTransmissionInformation
    requires { 12 ≤ length bytes.now }
    ensures { result ≡ info_at bytes.now }
{
    let transfer_length = big_endian::get(bytes, 0, 5);
    let symbol_size = big_endian::get(bytes, 6, 2) as u16;
    let num_source_blocks = big_endian::get(bytes, 8, 1) as u8;
    let num_sub_blocks = big_endian::get(bytes, 9, 2) as u16;
    let symbol_alignment = big_endian::get(bytes, 11, 1) as u8;
    ObjectTransmissionInformation {
        transfer_length,
        symbol_size,
        num_source_blocks,
        num_sub_blocks,
        symbol_alignment,
    }
}
