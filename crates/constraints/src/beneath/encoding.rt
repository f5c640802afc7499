// The row of a tuple, one octet to a column: ones at the places of its walk. No place stands twice in a walk, so that setting a one is
// adding it.
ghost use Rattle.std.specs.Prelude.{◌≡◌, ◌+◌, ◌≤◌, length, get_or};
ghost use Rattle.field.specs.Runs.{Written};
ghost use Rattle.field.specs.Sum.{sum, unit};
ghost use Rattle.headers.specs.Tuples.{Bounds};
ghost use Rattle.constraints.specs.Encoding.{Markable, visits};
ghost use Rattle.constraints.specs.Walk.{Walks, places};

use crate::beneath::walk;
use field::beneath::runs;
use headers::tuple::Tuple;

// Ones at the first n places of the list, in l octets that were 0.
fn set_ones(out: &mut [u8], at: usize, l: usize, list: &[u32], n: usize)
    requires { Markable list.now out.old at n l }
    ensures { Written (λ c. sum n (λ k. unit c (get_or list.now k 0))) out.old out.new at l }
{
    for &c in &list[..n] {
        out[at + c as usize] = 1;
    }
}

// The row of a tuple, l octets from place `at` of a store on.
pub fn tuple_row(out: &mut [u8], at: usize, l: usize, w: u32, p: u32, p1: u32, t: Tuple)
    requires { Walks w p p1 × Bounds w p1 t × (l ≡ w + p) × (at + l ≤ length out.old) }
    ensures { Written (visits (places w p p1 t)) out.old out.new at l }
{
    let mut list = [0u32; 33];
    walk::enc_indices(t, w, p, p1, &mut list);
    runs::clear(out, at, l);
    let n = (t.d + t.d1) as usize;
    set_ones(out, at, l, &list, n);
}
