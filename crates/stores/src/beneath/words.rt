// Ported from matrix.rs of raptorq 2.0.1 (Apache-2.0) and changed.
// Rows of bits in lent words: column c of the row that begins at word `at` is bit c mod 64 of word at + c / 64.
ghost use Rattle.std.specs.Prelude.{◌≡◌, ◌+◌, ◌*◌, ◌/◌, ◌%◌, ◌≤◌, ◌<◌, length, get_or};
ghost use Rattle.field.specs.Runs.{Apart, Written, added, part};
ghost use Rattle.stores.specs.Bits.{bit, bit_at, crossed_from, crossing, with_bit};
ghost use Rattle.stores.specs.Rows.{Exchanged, packed_to};
ghost use Rattle.stores.specs.Counting.{tally};
ghost use Rattle.stores.specs.Matrix.{row_words};

// The words of a row.
pub fn row_word_width(width: usize) -> usize
    ensures { result ≡ row_words width }
{
    width.div_ceil(64)
}

pub fn get(ws: &[u64], at: usize, c: usize) -> u64
    requires { at + c / 64 < length ws.now }
    ensures { result ≡ bit_at ws.now at c }
{
    (ws[at + c / 64] >> (c % 64)) % 2
}

// Column c becomes v, 0 or 1: its bit is flipped where it differs.
pub fn put(ws: &mut [u64], at: usize, c: usize, v: u64)
    requires { (at + c / 64 < length ws.old) × (v < 2) }
    ensures { Written (λ k. with_bit (get_or ws.old (at + c / 64) 0) (c % 64) v) ws.old ws.new (at + c / 64) 1 }
{
    let j = at + c / 64;
    let b = c % 64;
    let w = ws[j];
    let old = (w >> b) % 2;
    ws[j] = w ^ ((old ^ v) << b);
}

// The first n words become 0.
pub fn clear(ws: &mut [u64], n: usize)
    requires { n ≤ length ws.old }
    ensures { Written (λ k. 0) ws.old ws.new 0 n }
{
    ws[..n].fill(0);
}

// The n words at `to` become their sums with those at `from`.
pub fn add(ws: &mut [u64], n: usize, to: usize, from: usize)
    requires { Apart (length ws.old) n to from }
    ensures { Written (added ws.old to (part ws.old from n)) ws.old ws.new to n }
{
    for k in 0..n {
        ws[to + k] ^= ws[from + k];
    }
}

// The n words at i and the n words at j change places.
pub fn swap(ws: &mut [u64], n: usize, i: usize, j: usize)
    requires { Apart (length ws.old) n i j }
    ensures { Exchanged ws.old ws.new i j n }
{
    // By hand: std's swap looks at each pair which of the two comes first, and so takes up to three times as long.
    for k in 0..n {
        let x = ws[i + k];
        ws[i + k] = ws[j + k];
        ws[j + k] = x;
    }
}

// Columns a and b of the row of n words at `at` change places.
pub fn cross(ws: &mut [u64], at: usize, n: usize, a: usize, b: usize)
    requires { (a / 64 < n) × (b / 64 < n) × (at + n ≤ length ws.old) }
    ensures { Written (crossing ws.old at a b) ws.old ws.new at n }
{
    let x = get(ws, at, a);
    let y = get(ws, at, b);
    put(ws, at, a, y);
    put(ws, at, b, x);
}

// How many of the m bits of a word from bit b on are ones: the bits above are shifted out.
fn count_bits(w: u64, b: usize, m: usize) -> usize
    requires { (0 < m) × (b + m ≤ 64) }
    ensures { result ≡ tally (bit w) b m }
{
    u64::count_ones((w >> b) << (64 - m)) as usize
}

// How many of the n columns from `start` on are ones, a word at a time.
pub fn count(ws: &[u64], at: usize, start: usize, n: usize) -> usize
    requires { (start + n ≤ 65535) × (at + (start + n + 63) / 64 ≤ length ws.now) }
    ensures { result ≡ tally (bit_at ws.now at) start n }
{
    let mut ones: usize = 0;
    let mut k = 0;
    while k < n {
        let c = start + k;
        let b = c % 64;
        let m = (64 - b).min(n - k);
        ones += count_bits(ws[at + c / 64], b, m);
        k += m;
    }
    ones
}

// Columns a and b change places in the rows from `start` on; a row has n words.
pub fn cross_rows(ws: &mut [u64], n: usize, height: usize, a: usize, b: usize, start: usize)
    requires { (a / 64 < n) × (b / 64 < n) × (height * n ≤ length ws.old) }
    ensures { Written (crossed_from ws.old n a b start) ws.old ws.new 0 (height * n) }
{
    for r in start..height {
        cross(ws, r * n, n, a, b);
    }
}

// Rows of `old` words are packed to rows of their first n words, each read before a later one is written.
pub fn pack(ws: &mut [u64], rows: usize, n: usize, old: usize)
    requires { (n ≤ old) × (rows * old ≤ length ws.old) }
    ensures { Written (packed_to ws.old n old) ws.old ws.new 0 (rows * n) }
{
    if n == old {
        return;
    }
    for r in 0..rows {
        let from = r * old;
        ws.copy_within(from..from + n, r * n);
    }
}
