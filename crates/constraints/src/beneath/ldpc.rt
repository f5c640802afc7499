// The LDPC rows, one octet to a column, each as the RFC's sum. The rules of a row keep its ones apart, so that the crate's `set` agrees.
ghost use Rattle.std.specs.Prelude.{◌≡◌, ◌+◌, ◌-◌, ◌/◌, ◌%◌, ◌<◌, ◌≤◌, length};
ghost use Rattle.field.specs.Runs.{Written};
ghost use Rattle.constraints.specs.Ldpc.{Crosses, crossed, ldpc};

use crate::beneath::unit::{one_of, unit};

// (x + a) mod s, with no division.
fn step(x: usize, a: usize, s: usize) -> usize
    requires { (x < s) × (a ≤ s) × (s ≤ 65535) }
    ensures { result ≡ (x + a) % s }
{
    if x + a < s { x + a } else { x + a - s }
}

// 1 + c / s for the next column, where x is c mod s.
fn next_step(a: usize, x: usize, s: usize) -> usize
    requires { (x < s) × (a ≤ 65535) }
    ensures { result ≡ a + (x + 1) / s }
{
    if x + 1 < s { a } else { a + 1 }
}

// The first b columns of row r.
fn crossings(out: &mut [u8], at: usize, s: usize, w: usize, b: usize, p: usize, r: usize)
    requires { Crosses s w p × (b ≡ w - s) × (at + (w - s) ≤ length out.old) }
    ensures { Written (crossed s r) out.old out.new at (w - s) }
{
    let mut a = 1;
    let mut x = 0;
    for c in 0..b {
        let y = step(x, a, s);
        let z = step(y, a, s);
        out[at + c] = unit(r, x) ^ unit(r, y) ^ unit(r, z);
        a = next_step(a, x, s);
        x = step(x, 1, s);
    }
}

// Row r, from place `at` of a store on. The two ones of its last p columns do not meet, since p is at least 3.
pub fn row(out: &mut [u8], at: usize, s: usize, w: usize, b: usize, p: usize, r: usize)
    requires { Crosses s w p × (b ≡ w - s) × (r < s) × (at + (w + p) ≤ length out.old) }
    ensures { Written (ldpc s w p r) out.old out.new at (w + p) }
{
    crossings(out, at, s, w, b, p, r);
    one_of(out, at + b, s, r);
    one_of(out, at + w, p, r % p);
    out[at + w + (r + 1) % p] = 1;
}
