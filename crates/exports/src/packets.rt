// Payload ids, transmission information, packets and partitions (RFC 6330, sections 3.2, 3.3.2, 3.3.3, 4.4.1.2 and 4.4.2).
ghost use Rattle.std.specs.Prelude.{◌≡◌};
ghost use Rattle.headers.specs.Headers.{IdStored, InfoStored, PacketStored, info_checked, read_id, read_info, read_packet};
ghost use Rattle.headers.specs.Partition.{partitioned};
ghost use Rattle.exports.specs.Call.{Called, Reports, code, listed, then_roomed};
ghost use Rattle.exports.specs.Numbers.{id, id_numbers, info, info_numbers, packet_numbers, parts_numbers};

use crate::values::{Numbers, hand, told};
use headers::packet::Packet;
use headers::partition::Parts;
use headers::payload_id::PayloadId;
use headers::transmission::ObjectTransmissionInformation;
use headers::{packet, partition, payload_id, transmission};

// The block's number, the ESI.
impl Numbers<2> for PayloadId {
    ghost numbers = { id_numbers };

    fn numbers(self) -> [u64; 2] {
        [
            u64::from(self.source_block_number),
            u64::from(self.encoding_symbol_id),
        ]
    }
}

// F, T, Z, N, Al.
impl Numbers<5> for ObjectTransmissionInformation {
    ghost numbers = { info_numbers };

    fn numbers(self) -> [u64; 5] {
        [
            self.transfer_length,
            u64::from(self.symbol_size),
            u64::from(self.num_source_blocks),
            u64::from(self.num_sub_blocks),
            u64::from(self.symbol_alignment),
        ]
    }
}

// The block's number, the ESI, where the symbols' bytes begin in the packet, and how many they are.
impl Numbers<4> for Packet {
    ghost numbers = { λ p. packet_numbers (p.payload_id, p.from, p.len) };

    fn numbers(self) -> [u64; 4] {
        let id = self.payload_id;
        [
            u64::from(id.source_block_number),
            u64::from(id.encoding_symbol_id),
            self.from as u64,
            self.len as u64,
        ]
    }
}

// IL, IS, JL, JS.
impl Numbers<4> for Parts {
    ghost numbers = { parts_numbers };

    fn numbers(self) -> [u64; 4] {
        [self.il, self.is, self.jl, self.js].map(u64::from)
    }
}

#[unsafe(no_mangle)]
pub extern "C" fn spoonripple_payload_id_read(bytes: &[u8], out: &mut [u64]) -> u32
    ensures { Called (then_roomed out.old (listed id_numbers (read_id bytes.now))) out.old out.new result }
{
    told(hand(payload_id::deserialize(bytes), out))
}

#[unsafe(no_mangle)]
pub extern "C" fn spoonripple_payload_id_write(sbn: u8, esi: u32, store: &mut [u8]) -> u32
    ensures { Reports (λ a ys. IdStored (id sbn esi) store.old ys a) result store.new }
{
    let i = PayloadId {
        source_block_number: sbn,
        encoding_symbol_id: esi,
    };
    told(payload_id::serialize(i, store))
}

// No rule is applied.
#[unsafe(no_mangle)]
pub extern "C" fn spoonripple_transmission_read(bytes: &[u8], out: &mut [u64]) -> u32
    ensures { Called (then_roomed out.old (listed info_numbers (read_info bytes.now))) out.old out.new result }
{
    told(hand(transmission::deserialize(bytes), out))
}

#[unsafe(no_mangle)]
pub extern "C" fn spoonripple_transmission_write(
    f: u64,
    t: u16,
    z: u8,
    n: u16,
    al: u8,
    store: &mut [u8],
) -> u32
    ensures { Reports (λ a ys. InfoStored (info f t z n al) store.old ys a) result store.new }
{
    let o = ObjectTransmissionInformation {
        transfer_length: f,
        symbol_size: t,
        num_source_blocks: z,
        num_sub_blocks: n,
        symbol_alignment: al,
    };
    told(transmission::serialize(o, store))
}

#[unsafe(no_mangle)]
pub extern "C" fn spoonripple_transmission_check(f: u64, t: u16, z: u8, n: u16, al: u8) -> u32
    ensures { result ≡ code (info_checked (info f t z n al)) }
{
    let o = ObjectTransmissionInformation {
        transfer_length: f,
        symbol_size: t,
        num_source_blocks: z,
        num_sub_blocks: n,
        symbol_alignment: al,
    };
    told(transmission::check(o))
}

#[unsafe(no_mangle)]
pub extern "C" fn spoonripple_packet_read(bytes: &[u8], out: &mut [u64]) -> u32
    ensures { Called (then_roomed out.old (listed packet_numbers (read_packet bytes.now))) out.old out.new result }
{
    told(hand(packet::deserialize(bytes), out))
}

#[unsafe(no_mangle)]
pub extern "C" fn spoonripple_packet_write(sbn: u8, esi: u32, bytes: &[u8], store: &mut [u8]) -> u32
    ensures { Reports (λ a ys. PacketStored (id sbn esi) bytes.now store.old ys a) result store.new }
{
    let i = PayloadId {
        source_block_number: sbn,
        encoding_symbol_id: esi,
    };
    told(packet::serialize(i, bytes, store))
}

#[unsafe(no_mangle)]
pub extern "C" fn spoonripple_partition(i: u32, j: u32, out: &mut [u64]) -> u32
    ensures { Called (then_roomed out.old (partitioned i j)) out.old out.new result }
{
    told(hand(partition::partition(i, j), out))
}
