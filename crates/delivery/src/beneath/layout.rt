// What stands in front of the packets: transmission information, the parameter row and the random tables, all numbers high byte first.
ghost use Rattle.std.specs.Prelude.{◌≡◌, ◌+◌, ◌≤◌, length};
ghost use Rattle.field.specs.Answer.{outcome};
ghost use Rattle.field.specs.Runs.{Written};
ghost use Rattle.headers.specs.Bytes.{number};
ghost use Rattle.headers.specs.Row.{checked};
ghost use Rattle.delivery.specs.Layout.{entry_at, info_of, row_in};

use field::refusal::Refusal;
use headers::beneath::{big_endian, transmission};
use headers::row;
use headers::row::Row;
use headers::transmission::ObjectTransmissionInformation;

fn word(bytes: &[u8], at: usize) -> u32
    requires { at + 4 ≤ length bytes.now }
    ensures { result ≡ number bytes.now at 4 }
{
    big_endian::get(bytes, at, 4) as u32
}

#[tactic(auto, unfolding(crate::specs::Layout::info_of))]
pub fn info(bytes: &[u8]) -> ObjectTransmissionInformation
    requires { 12 ≤ length bytes.now }
    ensures { result ≡ info_of bytes.now }
{
    transmission::get(bytes)
}

// K', J, S, H and W are read; the check makes the record of them.
#[tactic(auto, unfolding(crate::specs::Layout::row_in))]
pub fn row(bytes: &[u8]) -> Result<Row, Refusal>
    requires { 32 ≤ length bytes.now }
    ensures { outcome result ≡ checked (row_in bytes.now) }
{
    let k = word(bytes, 12);
    let j = word(bytes, 16);
    let s = word(bytes, 20);
    let h = word(bytes, 24);
    let w = word(bytes, 28);
    row::check(k, j, s, h, w)
}

// V0, V1, V2 and V3 in order.
pub fn read_tables(bytes: &[u8], tables: &mut [u32])
    requires { (4128 ≤ length bytes.now) × (1024 ≤ length tables.old) }
    ensures { Written (entry_at bytes.now) tables.old tables.new 0 1024 }
{
    for i in 0..1024 {
        tables[i] = word(bytes, 32 + 4 * i);
    }
}
