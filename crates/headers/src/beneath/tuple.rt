// Ported from base.rs of raptorq 2.0.1 (Apache-2.0) and changed.
// The tuple of an ISI, for a row and tables that were checked.
ghost use Rattle.std.specs.Prelude.{◌≡◌, ◌<◌, length};
ghost use Rattle.headers.specs.Tuples.{Ready, factor, pi_degree, seed, tuple_of};

use crate::beneath::{deg, rng};
use crate::ids;
use crate::ids::Isi;
use crate::tuple::Tuple;

// A, made odd
fn factor(j: u32) -> u32
    requires { j < 65536 }
    ensures { result ≡ factor j }
{
    let a = 53591 + 997 * j;
    a + (1 - a % 2)
}

// y
pub fn seed(j: u32, x: u32) -> u32
    requires { j < 65536 }
    ensures { result ≡ seed j x }
{
    let a = factor(j) as u64;
    ((10267 * (j as u64 + 1) + x as u64 * a) % 4294967296) as u32
}

fn pi_degree(tables: &[u32], d: u32, x: u32) -> u32
    requires { length tables.now ≡ 1024 }
    ensures { result ≡ pi_degree tables.now d x }
{
    if d < 4 {
        2 + rng::rand(tables, x, 3, 2)
    } else {
        2
    }
}

pub fn intermediate_tuple(tables: &[u32], isi: Isi, w: u32, j: u32, p1: u32) -> Tuple
    requires { Ready tables.now j w p1 }
    ensures { result ≡ tuple_of tables.now j w p1 isi.0 }
{
    let x = ids::number(isi);
    let y = seed(j, x);
    let d = deg::deg(rng::rand(tables, y, 0, 1048576), w);
    let a = 1 + rng::rand(tables, y, 1, w - 1);
    let b = rng::rand(tables, y, 2, w);
    let d1 = pi_degree(tables, d, x);
    let a1 = 1 + rng::rand(tables, x, 4, p1 - 1);
    let b1 = rng::rand(tables, x, 5, p1);
    Tuple {
        d,
        a,
        b,
        d1,
        a1,
        b1,
    }
}
