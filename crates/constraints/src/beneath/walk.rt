// Ported from constraint_matrix.rs of raptorq 2.0.1 (Apache-2.0) and changed.
// The places that a tuple adds up, in walk order (Enc[] of RFC 6330 section 5.3.5.3), for a checked row and a tuple within its bounds.
ghost use Rattle.std.specs.Prelude.{◌≡◌, ◌+◌, ◌<◌, ◌≤◌, length};
ghost use Rattle.headers.specs.Prime.{Prime};
ghost use Rattle.headers.specs.Bytes.{Laid};
ghost use Rattle.headers.specs.Tuples.{Bounds};
ghost use Rattle.constraints.specs.Walk.{Walks, land, lt_places, pi_places, places};

use headers::tuple::Tuple;

// It ends: p1 is prime, so that steps of a come to every place, and to one below p in less than p1 steps.
fn land(p: u32, p1: u32, a: u32, b: u32) -> u32
    requires { Prime p1 × (0 < p) × (p ≤ p1) × (p1 ≤ 65537) × (0 < a) × (a < p1) × (b < p1) }
    ensures { (result ≡ land p p1 a p1 b) × (result < p) }
{
    let mut x = b;
    while x >= p {
        x = (x + a) % p1;
    }
    x
}

fn lt_places(list: &mut [u32], w: u32, a: u32, d: usize, b: u32)
    requires { (w ≤ 65535) × (a < w) × (b < w) × (d ≤ length list.old) }
    ensures { Laid (lt_places w a d b) list.old list.new 0 }
{
    let mut x = b;
    for i in 0..d {
        list[i] = x;
        x = (x + a) % w;
    }
}

fn pi_places(list: &mut [u32], from: usize, w: u32, p: u32, p1: u32, a: u32, d: usize, b: u32)
    requires { Walks w p p1 × (0 < a) × (a < p1) × (b < p1) × (from + d ≤ length list.old) }
    ensures { Laid (pi_places w p p1 a d b) list.old list.new from }
{
    let mut x = b;
    for i in 0..d {
        let y = land(p, p1, a, x);
        list[from + i] = w + y;
        x = (y + a) % p1;
    }
}

// d + d1 places; the rest of the list stays.
pub fn enc_indices(t: Tuple, w: u32, p: u32, p1: u32, list: &mut [u32])
    requires { Walks w p p1 × Bounds w p1 t × (t.d + t.d1 ≤ length list.old) }
    ensures { Laid (places w p p1 t) list.old list.new 0 }
{
    let d = t.d as usize;
    let d1 = t.d1 as usize;
    lt_places(list, w, t.a, d, t.b);
    pi_places(list, d, w, p, p1, t.a1, d1, t.b1);
}
