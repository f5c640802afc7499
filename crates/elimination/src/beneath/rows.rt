// One row of a store, which holds rows of w octets, each at a multiple of w, or a row in a buffer of its own.
ghost use Rattle.std.specs.Prelude.{◌≡◌, ℕ, ◌+◌, ◌*◌, ◌≤◌, ◌<◌, length};
ghost use Rattle.field.specs.Runs.{zero_from};
ghost use Rattle.linear.specs.Rows.{RowCopied};
ghost use Rattle.elimination.specs.Steps.{Passed, column};

// Row k of one store goes over row i of another.
pub fn copy_row(source: &[u8], store: &mut [u8], w: usize, i: usize, k: usize)
    requires { (i * w + w ≤ length store.old) × (k * w + w ≤ length source.now) }
    ensures { RowCopied w i k source.now store.old store.new }
{
    let to = i * w;
    let from = k * w;
    // Octet by octet: `copy_from_slice` would be a call of libc's memmove.
    for c in 0..w {
        store[to + c] = source[from + c];
    }
}

// Symbol k of a store goes into a buffer of t octets; the answer is whether it is all 0.
pub fn lay_symbol(source: &[u8], symbol: &mut [u8], t: usize, k: usize) -> bool
    requires { (t ≤ length symbol.old) × (k * t + t ≤ length source.now) }
    ensures row_copied { RowCopied t 0 k source.now symbol.old symbol.new }
    ensures value { result ≡ zero_from symbol.new 0 t }
{
    let from = k * t;
    let mut seen = 0u8;
    for c in 0..t {
        let x = source[from + c];
        symbol[c] = x;
        seen |= x;
    }
    seen == 0
}

// The first pivot from number k on at which the row is not 0, or r. Most are passed over here, and a call for each would take longer than the look.
pub fn next_pivot(row: &[u8], pivots: &[u16], k: usize, r: usize) -> usize
    requires { (k ≤ r) × (r ≤ length pivots.now) × ((j : ℕ) → j < r → column pivots.now j < length row.now) }
    ensures { Passed row.now pivots.now k r result }
{
    for x in k..r {
        if row[usize::from(pivots[x])] != 0 {
            return x;
        }
    }
    r
}
