// What the check of a parameter row rests on, and the check of a record that a caller hands over.
ghost use Rattle.std.specs.Prelude.{◌≡◌};
ghost use Rattle.field.specs.Answer.{outcome};
ghost use Rattle.headers.specs.Row.{Derives, Ranged, verified};

use crate::beneath::{prime, util};
use crate::row::Row;
use field::refusal::{Part, Refusal};

// L, P, B and P1 of five numbers that keep their rules.
#[derive(Clone, Copy, Debug, PartialEq, Eq)]
pub struct Numbers {
    pub l: u32,
    pub p: u32,
    pub b: u32,
    pub p1: u32,
}

// Each of five numbers in its range, or the first rule that they break: the rules of the first four parts.
fn in_range(kp: u32, j: u32, s: u32, h: u32, w: u32) -> Result<(), Part>
    ensures { Ranged kp j s h w result }
{
    if kp >= 65536 {
        return Err(Part::Wide);
    }
    if j >= 65536 {
        return Err(Part::Wide);
    }
    if s >= 65536 {
        return Err(Part::Wide);
    }
    if h >= 65536 {
        return Err(Part::Wide);
    }
    if w >= 65536 {
        return Err(Part::Wide);
    }
    if kp < 1 {
        return Err(Part::Kp);
    }
    if kp > 56403 {
        return Err(Part::Kp);
    }
    if s % 2 != 1 {
        return Err(Part::S);
    }
    if s < 3 {
        return Err(Part::S);
    }
    if h < 2 {
        return Err(Part::H);
    }
    if h > 255 {
        return Err(Part::H);
    }
    Ok(())
}

// The rules in document 01's order, and what follows. Nothing else works L, P, B or P1 out: whoever needs one reads it from a record. It gives four
// numbers and no record, since `verify` has the other five: nine would make a tuple of the smallest row a twelfth slower.
pub fn derive(kp: u32, j: u32, s: u32, h: u32, w: u32) -> Result<Numbers, Part>
    ensures { Derives kp j s h w result }
{
    in_range(kp, j, s, h, w)?;
    if !prime::is_prime(w) {
        return Err(Part::W);
    }
    if w <= s {
        return Err(Part::B);
    }
    let l = kp + s + h;
    if l < w + 3 {
        return Err(Part::P);
    }
    let b = w - s;
    if util::int_div_ceil(b as u64, s as u64) >= s as u64 {
        return Err(Part::Ldpc);
    }
    if l > 65535 {
        return Err(Part::L);
    }
    let p = l - w;
    let p1 = prime::first_prime(p);
    Ok(Numbers { l, p, b, p1 })
}

// Whether a record is the one that the check makes of its five numbers, or why not. A caller in C can hand over any nine.
pub fn verify(r: Row) -> Result<(), Refusal>
    ensures { outcome result ≡ verified r }
{
    let Numbers { l, p, b, p1 } = derive(r.kp, r.j, r.s, r.h, r.w)?;
    if r.l != l {
        return Err(Refusal::BadRow(Part::Derived));
    }
    if r.p != p {
        return Err(Refusal::BadRow(Part::Derived));
    }
    if r.b != b {
        return Err(Refusal::BadRow(Part::Derived));
    }
    if r.p1 != p1 {
        return Err(Refusal::BadRow(Part::Derived));
    }
    Ok(())
}
