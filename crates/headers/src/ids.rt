// An ESI counts what was sent; an ISI counts matrix rows. Only the shift turns the first into the second.
ghost use Rattle.std.specs.Prelude.{◌≡◌};
ghost use Rattle.headers.specs.Shift.{isi_answer, isi_outcome};

use crate::beneath::row;
use crate::row::Row;
use field::refusal::Refusal;

pub mod beneath;

#[derive(Clone, Copy, Debug, PartialEq, Eq)]
pub struct Esi(pub u32);

#[derive(Clone, Copy, Debug, PartialEq, Eq)]
pub struct Isi(u32);

// The ISI of what was sent of a block of k source symbols.
pub fn isi_of(r: Row, k: u32, e: Esi) -> Result<Isi, Refusal>
    ensures { isi_outcome result ≡ isi_answer r k e.0 }
{
    row::verify(r)?;
    if e.0 >= 16777216 {
        return Err(Refusal::BadCount);
    }
    if k < 1 {
        return Err(Refusal::BadCount);
    }
    if k > r.kp {
        return Err(Refusal::BadCount);
    }
    Ok(beneath::isi_of(r.kp, k, e))
}

pub fn number(x: Isi) -> u32
    ensures { result ≡ x.0 }
{
    x.0
}
