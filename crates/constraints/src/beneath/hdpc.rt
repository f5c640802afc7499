// Ported from constraint_matrix.rs of raptorq 2.0.1 (Apache-2.0) and changed.
// The HDPC rows, row after row in a lent store, filled column by column from the right: each column is alpha times the next,
// with two ones more. A product of MT with GAMMA would take n times as long.
ghost use Rattle.std.specs.Prelude.{◌≡◌, ◌+◌, ◌-◌, ◌*◌, ◌<◌, ◌≤◌, length, get_or};
ghost use Rattle.field.specs.Octet.{plus, doubled, power};
ghost use Rattle.field.specs.Runs.{Written};
ghost use Rattle.field.specs.Sum.{unit};
ghost use Rattle.constraints.specs.Grid.{GridRoom, Column, cells};
ghost use Rattle.constraints.specs.Hdpc.{first, hdpc, mt, second};

use crate::beneath::unit::{one_of, unit};
use field::doubling;
use headers::beneath::rng;

// The rows that have a one in column c of MT, but for the last column: a, and b after it.
#[tactic(auto, unfolding(crate::specs::Hdpc::first))]
fn first_one(tables: &[u32], h: usize, c: usize) -> usize
    requires { (length tables.now ≡ 1024) × (2 ≤ h) × (h ≤ 65535) × (c < 65535) }
    ensures { (result ≡ first tables.now h c) × (result < h) }
{
    rng::rand(tables, (c + 1) as u32, 6, h as u32) as usize
}

#[tactic(auto, unfolding(crate::specs::Hdpc::first, crate::specs::Hdpc::second))]
fn second_one(tables: &[u32], h: usize, c: usize, a: usize) -> usize
    requires { (length tables.now ≡ 1024) × (2 ≤ h) × (h ≤ 65535) × (c < 65535) × (a < h) × (a ≡ first tables.now h c) }
    ensures { result ≡ second tables.now h c }
{
    (a + rng::rand(tables, (c + 1) as u32, 7, (h - 1) as u32) as usize + 1) % h
}

fn unit_column(out: &mut [u8], at: usize, h: usize, l: usize, c: usize, one: usize)
    requires { GridRoom out.old at h l c }
    ensures { Column (λ r. unit r one) out.old out.new at h l c }
{
    for i in 0..h {
        out[at + i * l + c] = unit(i, one);
    }
}

// The powers of alpha.
fn alpha_column(out: &mut [u8], at: usize, h: usize, l: usize, c: usize)
    requires { GridRoom out.old at h l c }
    ensures { Column power out.old out.new at h l c }
{
    let mut x: u8 = 1;
    for i in 0..h {
        out[at + i * l + c] = x;
        x = doubling::double(x);
    }
}

// Alpha times the column to the right, with a one more in rows a and b.
fn next_column(out: &mut [u8], at: usize, h: usize, l: usize, c: usize, a: usize, b: usize)
    requires { GridRoom out.old at h l (c + 1) }
    ensures { Column (λ r. plus (plus (doubled (get_or out.old (at + r * l + c + 1) 0)) (unit r a)) (unit r b)) out.old out.new at h l c }
{
    for i in 0..h {
        let j = at + i * l + c;
        out[j] = doubling::double(out[j + 1]) ^ unit(i, a) ^ unit(i, b);
    }
}

// H rows of l octets from place `at` on; what L has beside H is K' + S.
pub fn generate_hdpc_rows(tables: &[u32], out: &mut [u8], at: usize, l: usize, h: usize)
    requires { (length tables.now ≡ 1024) × (h < l) × (2 ≤ h) × (l ≤ 65535) × (at + h * l ≤ length out.old) }
    ensures { Written (cells l (hdpc tables.now (l - h) h)) out.old out.new at (h * l) }
{
    let n = l - h;
    for c in (n..l).rev() {
        unit_column(out, at, h, l, c, c - n);
    }
    alpha_column(out, at, h, l, n - 1);
    for c in (0..n - 1).rev() {
        let a = first_one(tables, h, c);
        let b = second_one(tables, h, c, a);
        next_column(out, at, h, l, c, a, b);
    }
}

// What MT, of n columns, has in row i and column c.
fn mt(tables: &[u32], n: usize, h: usize, i: usize, c: usize) -> u8
    requires { (length tables.now ≡ 1024) × (2 ≤ h) × (h ≤ 65535) × (n ≤ 65535) × (c < n) }
    ensures { result ≡ mt tables.now n h i c }
{
    if c + 1 == n {
        return doubling::power(i);
    }
    let a = first_one(tables, h, c);
    unit(i, a) ^ unit(i, second_one(tables, h, c, a))
}

// Row i alone, l octets from place `at` on: each octet is alpha times the next, with what column c of MT has, and then the identity.
pub fn row(tables: &[u32], out: &mut [u8], at: usize, l: usize, h: usize, i: usize)
    requires { (length tables.now ≡ 1024) × (h < l) × (2 ≤ h) × (l ≤ 65535) × (i < h) × (at + l ≤ length out.old) }
    ensures { Written (hdpc tables.now (l - h) h i) out.old out.new at l }
{
    let n = l - h;
    let mut x: u8 = 0;
    for c in (0..n).rev() {
        x = doubling::double(x) ^ mt(tables, n, h, i, c);
        out[at + c] = x;
    }
    one_of(out, at + n, h, i);
}
