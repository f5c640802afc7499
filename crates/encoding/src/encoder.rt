// The symbol of an ESI from the intermediate symbols of its block, written from RFC 6330 section 5.3.5.3 (`enc_into` in the crate's encoder.rs).
ghost use Rattle.std.specs.Prelude.{◌≡◌};
ghost use Rattle.field.specs.Answer.{outcome};
ghost use Rattle.encoding.specs.Encoded.{Encodes, allowed};

use crate::beneath::enc;
use field::refusal::Refusal;
use headers::beneath::{row, tuple};
use headers::ids::{Esi, beneath};
use headers::row::Row;

// The first thing that is wrong with the row, the tables, a number or a length.
fn check(
    r: Row,
    tables: usize,
    k: u32,
    t: u16,
    esi: u32,
    have: usize,
    room: usize,
) -> Result<(), Refusal>
    ensures { outcome result ≡ allowed r tables k t esi have room }
{
    row::verify(r)?;
    if tables != 1024 {
        return Err(Refusal::BadTables);
    }
    if k < 1 || k > r.kp {
        return Err(Refusal::BadCount);
    }
    if esi >= 16777216 {
        return Err(Refusal::BadCount);
    }
    if t == 0 {
        return Err(Refusal::BadSize);
    }
    if have < r.l as usize * t as usize {
        return Err(Refusal::WrongLength);
    }
    if room < t as usize {
        return Err(Refusal::WrongLength);
    }
    Ok(())
}

// The first T octets of out become the symbol, whatever was in them.
pub fn encode(
    r: Row,
    tables: &[u32],
    k: u32,
    t: u16,
    esi: u32,
    intermediates: &[u8],
    out: &mut [u8],
) -> Result<(), Refusal>
    ensures { Encodes tables.now r k t esi intermediates.now out.old out.new result }
{
    check(r, tables.len(), k, t, esi, intermediates.len(), out.len())?;
    let x = beneath::isi_of(r.kp, k, Esi(esi));
    let z = tuple::intermediate_tuple(tables, x, r.w, r.j, r.p1);
    enc::enc(out, t as usize, intermediates, z, r.w, r.p, r.p1);
    Ok(())
}
