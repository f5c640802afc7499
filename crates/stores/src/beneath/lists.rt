// Ported from matrix.rs of raptorq 2.0.1 (Apache-2.0) and changed.
// Which places hold a one, listed in lent memory from its front on.
ghost use Rattle.std.specs.Prelude.{◌≡◌, ℕ, ◌+◌, ◌*◌, ◌/◌, ◌≤◌, ◌<◌, length};
ghost use Rattle.field.specs.Runs.{Written};
ghost use Rattle.stores.specs.Bits.{bit_at};
ghost use Rattle.stores.specs.Counting.{Listed};

use crate::beneath::words;

// x is listed at m if the bit is 1; the place of the next.
fn push(out: &mut [u32], m: usize, x: u32, bit: u64) -> usize
    requires { (m < length out.old) × (bit < 2) }
    ensures { (result ≡ m + bit) × Written (λ k. x) out.old out.new m bit }
{
    if bit == 0 {
        return m;
    }
    out[m] = x;
    m + 1
}

// Which of `many` places from `start` on hold a one, listed at the front of `out`; answers how many. `bit` says what stands at a place.
fn listed<F: Fn(usize) -> u64>(start: usize, many: usize, out: &mut [u32], bit: F) -> usize
    requires asked { (k : ℕ) → k < many → F.pre bit (start + k) }
    requires bits { (k b : ℕ) → F.post bit k b → b < 2 }
    requires fits { (start + many < 4294967296) × (many ≤ length out.old) }
    ensures { (f : ℕ → ℕ) → ((k b : ℕ) → k < many → F.post bit (start + k) b → b ≡ f (start + k)) → Listed f start many out.old out.new result }
{
    let mut m = 0;
    for k in 0..many {
        let i = start + k;
        m = push(out, m, i as u32, bit(i));
    }
    m
}

// The rows that have a one in column c, of `many` rows from `start` on; a row has n words.
pub fn in_column(
    ws: &[u64],
    n: usize,
    c: usize,
    start: usize,
    many: usize,
    out: &mut [u32],
) -> usize
    requires { (c / 64 < n) × ((start + many) * n ≤ length ws.now) × (start + many < 4294967296) × (many ≤ length out.old) }
    ensures { Listed (λ i. bit_at ws.now (i * n) c) start many out.old out.new result }
{
    listed(start, many, out, |i| words::get(ws, i * n, c))
}

// The columns that have a one in the row at `at`, of `many` columns from `start` on.
pub fn in_row(ws: &[u64], at: usize, start: usize, many: usize, out: &mut [u32]) -> usize
    requires { (start + many ≤ 65535) × (at + (start + many + 63) / 64 ≤ length ws.now) × (many ≤ length out.old) }
    ensures { Listed (bit_at ws.now at) start many out.old out.new result }
{
    listed(start, many, out, |c| words::get(ws, at, c))
}
