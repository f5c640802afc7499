// A row or a symbol in a buffer of its own, with a row or a symbol of a store.
ghost use Rattle.std.specs.Prelude.{true, ◌≡◌, ℕ, ◌+◌, ◌*◌, ◌≤◌, ◌<◌, length, get_or};
ghost use Rattle.field.specs.Octet as octets;
ghost use Rattle.field.specs.Runs.{zero_from};
ghost use Rattle.elimination.specs.Taking.{Onto, OntoFrom, Times};

use field::beneath::runs;
use field::octet;

// Where a sum of rows begins that are 0 before column c: at c, or so much before it that vector code takes what is left whole.
fn begin(l: usize, c: usize) -> usize
    requires { c < l }
    ensures { result ≤ c }
{
    c.saturating_sub((32 - (l - c) % 32) % 32)
}

// f times row k of the store, from column s on, goes onto dst, straight from the store.
fn add_row(dst: &mut [u8], store: &[u8], l: usize, k: usize, s: usize, f: u8)
    requires { (length dst.old ≡ l) × (k * l + l ≤ length store.now) × (s ≤ l) }
    ensures { OntoFrom l k s f store.now dst.old dst.new }
{
    let first = k * l + s;
    let last = k * l + l;
    runs::fma_row(dst, s, &store[first..last], f);
}

// Row k of the store, which has its pivot in column c, goes off the row. The answer is the factor: what the row had there.
pub fn take_off(rows: &[u8], l: usize, k: usize, c: usize, row: &mut [u8]) -> u8
    requires { (length row.old ≡ l) × (k * l + l ≤ length rows.now) × (c < l) }
    ensures value { result ≡ get_or row.old c 0 }
    ensures row_added { (s : ℕ) × (s ≤ c) × OntoFrom l k s result rows.now row.old row.new }
{
    let f = row[c];
    add_row(row, rows, l, k, begin(l, c), f);
    f
}

// f times symbol k of the store goes onto dst. Where that is asked, the answer is whether dst is all 0 now.
pub fn add_symbol(dst: &mut [u8], store: &[u8], t: usize, k: usize, f: u8, asked: bool) -> bool
    requires { (length dst.old ≡ t) × (k * t + t ≤ length store.now) }
    ensures onto { Onto t k f store.now dst.old dst.new }
    ensures value { asked ≡ true → result ≡ zero_from dst.new 0 t }
{
    let first = k * t;
    let last = first + t;
    if asked {
        return runs::fma_symbol(dst, 0, &store[first..last], f);
    }
    runs::fuse(dst, 0, &store[first..last], f);
    false
}

fn inverse(x: u8) -> u8
    ensures { result ≡ octets.inverse x }
{
    octet::div(1, x).unwrap_or(0)
}

// The equation is multiplied by the inverse of what it has in column c.
pub fn make_one(row: &mut [u8], symbol: &mut [u8], c: usize)
    requires { c < length row.old }
    ensures row_times { Times (octets.inverse (get_or row.old c 0)) row.old row.new }
    ensures symbol_times { Times (octets.inverse (get_or row.old c 0)) symbol.old symbol.new }
{
    let f = row[c];
    if f == 1 {
        return;
    }
    let x = inverse(f);
    runs::scale(row, x);
    runs::scale(symbol, x);
}
