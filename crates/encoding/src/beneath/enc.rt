// Enc[] of RFC 6330 section 5.3.5.3: the sum of the intermediate symbols that a tuple's walk meets.
ghost use Rattle.std.specs.Prelude.{◌+◌, ◌*◌, ◌≤◌, length};
ghost use Rattle.field.specs.Runs.{Written};
ghost use Rattle.headers.specs.Tuples.{Bounds};
ghost use Rattle.constraints.specs.Walk.{Walks, places};
ghost use Rattle.encoding.specs.Encoded.{Addable, symbol_added, symbols_added, walked};

use constraints::beneath::walk;
use field::beneath::runs;
use headers::tuple::Tuple;

// out + C[p]
fn add_symbol(out: &mut [u8], t: usize, intermediates: &[u8], p: usize)
    requires { (t ≤ length out.old) × (p * t + t ≤ length intermediates.now) }
    ensures { Written (symbol_added t out.old intermediates.now p) out.old out.new 0 t }
{
    let start = p * t;
    let end = start + t;
    runs::add(out, 0, &intermediates[start..end]);
}

// out + C[p], for the first n places p of the list
fn add_symbols(out: &mut [u8], t: usize, intermediates: &[u8], list: &[u32], n: usize)
    requires { Addable t out.old intermediates.now list.now n }
    ensures { Written (symbols_added t out.old intermediates.now list.now n) out.old out.new 0 t }
{
    for &p in &list[..n] {
        add_symbol(out, t, intermediates, p as usize);
    }
}

// The symbol of a tuple whose walk is no longer than the working list, as that of every tuple of the generator is (`degrees-high`).
pub fn enc(out: &mut [u8], t: usize, intermediates: &[u8], tuple: Tuple, w: u32, p: u32, p1: u32)
    requires { Walks w p p1 × Bounds w p1 tuple × (tuple.d + tuple.d1 ≤ 32) × (t ≤ length out.old) × ((w + p) * t ≤ length intermediates.now) }
    ensures { Written (walked t intermediates.now (w + p) (places w p p1 tuple)) out.old out.new 0 t }
{
    let mut list = [0u32; 32];
    walk::enc_indices(tuple, w, p, p1, &mut list);
    runs::clear(out, 0, t);
    let n = (tuple.d + tuple.d1) as usize;
    add_symbols(out, t, intermediates, &list, n);
}
