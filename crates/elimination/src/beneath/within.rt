// Two symbols of one store. They are worked on place by place, since one slice cannot be lent for reading and for writing; none is copied out.
ghost use Rattle.std.specs.Prelude.{◌+◌, ◌*◌, length, get_or};
ghost use Rattle.field.specs.Octet.{plus, times};
ghost use Rattle.field.specs.Runs.{Apart, Written};
ghost use Rattle.linear.specs.Rows.{RowAdded};

use field::doubling;

fn sum(store: &mut [u8], w: usize, to: usize, from: usize)
    requires { Apart (length store.old) w to from }
    ensures { Written (λ c. plus (get_or store.old (to + c) 0) (get_or store.old (from + c) 0)) store.old store.new to w }
{
    for c in 0..w {
        store[to + c] ^= store[from + c];
    }
}

fn fuse(store: &mut [u8], w: usize, to: usize, from: usize, f: u8)
    requires { Apart (length store.old) w to from }
    ensures { Written (λ c. plus (get_or store.old (to + c) 0) (times f (get_or store.old (from + c) 0))) store.old store.new to w }
{
    for c in 0..w {
        store[to + c] ^= doubling::mul(store[from + c], f);
    }
}

// f times symbol k goes onto symbol i. Most factors are 1, and a sum is some ten times as fast as a sum with products.
pub fn add(store: &mut [u8], w: usize, i: usize, k: usize, f: u8)
    requires { Apart (length store.old) w (i * w) (k * w) }
    ensures { RowAdded w i k f store.old store.new }
{
    let to = i * w;
    let from = k * w;
    if f == 1 {
        sum(store, w, to, from);
        return;
    }
    fuse(store, w, to, from, f);
}
