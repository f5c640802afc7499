// Ported from base.rs of raptorq 2.0.1 (Apache-2.0) and changed.
// The object transmission information: twelve bytes, and the rules that it has to keep (RFC 6330, 3.3.2 and 3.3.3).
ghost use Rattle.std.specs.Prelude.{◌≡◌, ◌≤◌, length};
ghost use Rattle.field.specs.Answer.{outcome};
ghost use Rattle.headers.specs.Bytes.{Laid};
ghost use Rattle.headers.specs.Headers.{InfoStored, info_checked, info_bytes, read_info};

use crate::beneath;
use crate::beneath::{big_endian, util};
use field::refusal::Refusal;

#[derive(Clone, Copy, Debug, PartialEq, Eq)]
pub struct ObjectTransmissionInformation {
    pub transfer_length: u64,
    pub symbol_size: u16,
    pub num_source_blocks: u8,
    pub num_sub_blocks: u16,
    pub symbol_alignment: u8,
}

// Applies no rule: the sender's numbers as they are.
pub fn deserialize(bytes: &[u8]) -> Result<ObjectTransmissionInformation, Refusal>
    ensures { outcome result ≡ read_info bytes.now }
{
    if bytes.len() != 12 {
        return Err(Refusal::WrongLength);
    }
    Ok(beneath::transmission::get(bytes))
}

pub fn serialize(info: ObjectTransmissionInformation, store: &mut [u8]) -> Result<(), Refusal>
    ensures { InfoStored info store.old store.new result }
{
    if info.transfer_length >= 1099511627776 {
        return Err(Refusal::OutOfRange);
    }
    if store.len() < 12 {
        return Err(Refusal::WrongLength);
    }
    put(store, info);
    Ok(())
}

fn put(store: &mut [u8], info: ObjectTransmissionInformation)
    requires { 12 ≤ length store.old }
    ensures { Laid (info_bytes info) store.old store.new 0 }
{
    big_endian::put(store, 0, 5, info.transfer_length);
    big_endian::put(store, 5, 1, 0); // reserved
    big_endian::put(store, 6, 2, info.symbol_size as u64);
    big_endian::put(store, 8, 1, info.num_source_blocks as u64);
    big_endian::put(store, 9, 2, info.num_sub_blocks as u64);
    big_endian::put(store, 11, 1, info.symbol_alignment as u64);
}

// The crate's `new` lacks the four rules of document 02, E3: it takes T, Z or N of 0, and N above T/Al (docs/DIFFERENCES.md, D36 to D39).
pub fn check(info: ObjectTransmissionInformation) -> Result<(), Refusal>
    ensures { outcome result ≡ info_checked info }
{
    if info.transfer_length > 942574504275 {
        return Err(Refusal::BadTransmission);
    }
    if info.symbol_alignment == 0 {
        return Err(Refusal::BadTransmission);
    }
    if info.symbol_size % info.symbol_alignment as u16 != 0 {
        return Err(Refusal::BadTransmission);
    }
    if info.symbol_size == 0 {
        return Err(Refusal::BadTransmission);
    }
    if info.num_source_blocks == 0 {
        return Err(Refusal::BadTransmission);
    }
    if info.num_sub_blocks == 0 {
        return Err(Refusal::BadTransmission);
    }
    if info.num_sub_blocks > info.symbol_size / info.symbol_alignment as u16 {
        return Err(Refusal::BadTransmission);
    }
    // No block of more symbols than the largest K' (RFC 6330, 4.4.1.2).
    let symbols = util::int_div_ceil(info.transfer_length, info.symbol_size as u64);
    if util::int_div_ceil(symbols, info.num_source_blocks as u64) > 56403 {
        return Err(Refusal::BadTransmission);
    }
    Ok(())
}
