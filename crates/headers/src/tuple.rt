// Ported from base.rs of raptorq 2.0.1 (Apache-2.0) and changed.
// Tuple[K', X] of RFC 6330 section 5.3.5.4, of an internal symbol id X of any 32 bits.
ghost use Rattle.std.specs.Prelude.{◌≡◌};
ghost use Rattle.field.specs.Answer.{outcome};
ghost use Rattle.headers.specs.Tuples.{tuple_answer};

use crate::beneath;
use crate::beneath::row;
use crate::ids::Isi;
use crate::row::Row;
use field::refusal::Refusal;

#[derive(Clone, Copy, Debug, PartialEq, Eq)]
pub struct Tuple {
    pub d: u32,
    pub a: u32,
    pub b: u32,
    pub d1: u32,
    pub a1: u32,
    pub b1: u32,
}

pub fn intermediate_tuple(r: Row, tables: &[u32], x: Isi) -> Result<Tuple, Refusal>
    ensures { outcome result ≡ tuple_answer r tables.now x.0 }
{
    row::verify(r)?;
    if tables.len() != 1024 {
        return Err(Refusal::BadTables);
    }
    Ok(beneath::tuple::intermediate_tuple(tables, x, r.w, r.j, r.p1))
}
