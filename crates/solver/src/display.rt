// Source symbol i of a block: out of the arrivals if it came, else out of the rebuilt store.
ghost use Rattle.std.specs.Prelude.{◌≡◌, ◌≤◌, length};
ghost use Rattle.field.specs.Answer.{outcome};
ghost use Rattle.solver.specs.Display.{answerable, located, shown, shown_at, standing, whereof};

use crate::beneath::esis;
use field::refusal::Refusal;

// Where the bytes of a symbol begin.
#[derive(Clone, Copy, Debug, PartialEq, Eq)]
pub enum Place {
    Arrived(usize),
    Rebuilt(usize),
}

// How many arrivals stand before the first with that id; all of them, if it did not come.
fn first(esis: &[u32], i: u32) -> usize
    ensures { result ≡ standing esis.now i }
{
    esis.iter().position(|&e| e == i).unwrap_or(esis.len())
}

// The refusals, on numbers alone: n arrivals of `came` bytes in all, a store of `built` bytes; `large` if an id is too large.
fn may(
    n: usize,
    large: bool,
    came: usize,
    built: usize,
    k: u32,
    t: u16,
    i: u32,
) -> Result<(), Refusal>
    ensures { outcome result ≡ answerable n large came built k t i }
{
    if k < 1 {
        return Err(Refusal::BadCount);
    }
    if k > 56403 {
        return Err(Refusal::BadCount);
    }
    if n > 65535 {
        return Err(Refusal::BadCount);
    }
    if large {
        return Err(Refusal::BadCount);
    }
    if t == 0 {
        return Err(Refusal::BadSize);
    }
    if came != n * t as usize {
        return Err(Refusal::BadSize);
    }
    if built < k as usize * t as usize {
        return Err(Refusal::WrongLength);
    }
    if i >= k {
        return Err(Refusal::Outside);
    }
    Ok(())
}

// Where it begins, once nothing is refused.
fn whereof(t: u16, esis: &[u32], i: u32) -> Place
    requires { (length esis.now ≤ 65535) × (i ≤ 56403) }
    ensures { result ≡ whereof t esis.now i }
{
    let p = first(esis, i);
    if p < esis.len() {
        return Place::Arrived(p * t as usize);
    }
    Place::Rebuilt(i as usize * t as usize)
}

// Where symbol i begins, among arrivals of `came` bytes and a rebuilt store of `built`. It tells the refusals of `display`.
pub fn locate(
    k: u32,
    t: u16,
    esis: &[u32],
    came: usize,
    built: usize,
    i: u32,
) -> Result<Place, Refusal>
    ensures { outcome result ≡ located k t esis.now came built i }
{
    may(esis.len(), esis::any_large(esis), came, built, k, t, i)?;
    Ok(whereof(t, esis, i))
}

// The T bytes of symbol i; the empty part at the front of the arrivals where `locate` refuses.
pub fn display<'a>(
    k: u32,
    t: u16,
    esis: &[u32],
    arrivals: &'a [u8],
    rebuilt: &'a [u8],
    i: u32,
) -> &'a [u8]
    ensures result_value { result.now ≡ shown t (located k t esis.now (length arrivals.now) (length rebuilt.now) i)
        arrivals.now rebuilt.now }
    ensures ref_ptr_value { result.ref_ptr ≡ shown_at (located k t esis.now (length arrivals.now) (length rebuilt.now) i)
        arrivals.entry.ref_ptr rebuilt.entry.ref_ptr }
{
    let n = t as usize;
    let Ok(found) = locate(k, t, esis, arrivals.len(), rebuilt.len(), i) else {
        return &arrivals[0..0];
    };
    match found {
        Place::Arrived(from) => &arrivals[from..from + n],
        Place::Rebuilt(from) => &rebuilt[from..from + n],
    }
}
