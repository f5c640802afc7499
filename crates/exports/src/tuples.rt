// Rand, degrees, parameter rows, the shift and tuples (RFC 6330, sections 5.3.5, 5.5 and 5.6). A row is its record, K', J, S, H, W, L, P, B, P1, which
// the check makes.
ghost use Rattle.headers.specs.Degree.{deg_answer};
ghost use Rattle.headers.specs.Rand.{rand_answer};
ghost use Rattle.headers.specs.Row.{row_checked};
ghost use Rattle.headers.specs.Shift.{isi_answer};
ghost use Rattle.headers.specs.Tuples.{tuple_answer};
ghost use Rattle.exports.specs.Call.{Called, listed, single, then_roomed};
ghost use Rattle.exports.specs.Numbers.{row, row_numbers, tuple_numbers};

use crate::values::{Numbers, hand, handed_row, told};
use headers::ids::{Esi, Isi};
use headers::row::Row;
use headers::tuple::Tuple;
use headers::{deg, ids, rng, row, tuple};

impl Numbers<1> for u32 {
    ghost numbers = { single };

    fn numbers(self) -> [u64; 1] {
        [u64::from(self)]
    }
}

impl Numbers<1> for Isi {
    ghost numbers = { λ x. single x.0 };

    fn numbers(self) -> [u64; 1] {
        ids::number(self).numbers()
    }
}

// The record that the check makes: K', J, S, H, W, L, P, B, P1.
impl Numbers<9> for Row {
    ghost numbers = { row_numbers };

    fn numbers(self) -> [u64; 9] {
        [
            self.kp, self.j, self.s, self.h, self.w, self.l, self.p, self.b, self.p1,
        ]
        .map(u64::from)
    }
}

// d, a, b, d1, a1, b1.
impl Numbers<6> for Tuple {
    ghost numbers = { tuple_numbers };

    fn numbers(self) -> [u64; 6] {
        [self.d, self.a, self.b, self.d1, self.a1, self.b1].map(u64::from)
    }
}

#[unsafe(no_mangle)]
pub extern "C" fn spoonripple_rand(tables: &[u32], y: u32, i: u8, m: u32, out: &mut [u64]) -> u32
    ensures { Called (then_roomed out.old (listed single (rand_answer tables.now y i m))) out.old out.new result }
{
    told(hand(rng::rand(tables, y, i, m), out))
}

#[unsafe(no_mangle)]
pub extern "C" fn spoonripple_deg(v: u32, w: u32, out: &mut [u64]) -> u32
    ensures { Called (then_roomed out.old (listed single (deg_answer v w))) out.old out.new result }
{
    told(hand(deg::deg(v, w), out))
}

#[unsafe(no_mangle)]
pub extern "C" fn spoonripple_row_check(
    k: u32,
    j: u32,
    s: u32,
    h: u32,
    w: u32,
    out: &mut [u64],
) -> u32
    ensures { Called (then_roomed out.old (listed row_numbers (row_checked k j s h w))) out.old out.new result }
{
    told(hand(row::check(k, j, s, h, w), out))
}

// The ISI of an ESI, in a block of `count` source symbols.
#[unsafe(no_mangle)]
pub extern "C" fn spoonripple_isi(
    k: u32,
    j: u32,
    s: u32,
    h: u32,
    w: u32,
    l: u32,
    p: u32,
    b: u32,
    p1: u32,
    count: u32,
    esi: u32,
    out: &mut [u64],
) -> u32
    ensures { Called (then_roomed out.old (listed single (isi_answer (row k j s h w l p b p1) count esi)))
        out.old out.new result }
{
    let r = handed_row(k, j, s, h, w, l, p, b, p1);
    told(hand(ids::isi_of(r, count, Esi(esi)), out))
}

// The ISI is a row's number of any 32 bits, not what was sent: that goes through spoonripple_isi first.
#[unsafe(no_mangle)]
pub extern "C" fn spoonripple_tuple(
    k: u32,
    j: u32,
    s: u32,
    h: u32,
    w: u32,
    l: u32,
    p: u32,
    b: u32,
    p1: u32,
    tables: &[u32],
    isi: u32,
    out: &mut [u64],
) -> u32
    ensures { Called (then_roomed out.old (listed tuple_numbers (tuple_answer (row k j s h w l p b p1) tables.now isi)))
        out.old out.new result }
{
    let r = handed_row(k, j, s, h, w, l, p, b, p1);
    let x = ids::beneath::row_number(isi);
    told(hand(tuple::intermediate_tuple(r, tables, x), out))
}
