// Ported from constraint_matrix.rs of raptorq 2.0.1 (Apache-2.0) and changed.
// Ones added to a binary matrix. The crate sets them; where no two meet, as the rules of a row see to, that is the same.
ghost use Rattle.std.specs.Prelude.{◌≡◌, ℕ, ◌+◌, ◌-◌, ◌%◌, ◌<◌, ◌≤◌, length, get_or};
ghost use Rattle.field.specs.Octet.{plus};
ghost use Rattle.field.specs.Sum.{sum};
ghost use Rattle.headers.specs.Tuples.{Ready};
ghost use Rattle.builders.specs.Adding.{Added, Lies, enc_rows, only};
ghost use Rattle.constraints.specs.Encoding.{enc};
ghost use Rattle.constraints.specs.Ldpc.{Crosses, adds, ldpc, turn};
ghost use Rattle.constraints.specs.Walk.{Walks};

use constraints::beneath::walk;
use headers::beneath::tuple;
use headers::ids;
use headers::ids::Isi;
use stores::beneath::words;
use stores::beneath::words::row_word_width;
use stores::matrix::DenseBinaryMatrix;

pub fn add_one(ws: &mut [u64], m: DenseBinaryMatrix, i: usize, j: usize)
    requires { Lies m ws.old × (i < m.height) × (j < m.width) }
    ensures { Added (λ r c. adds r c i j) ws.old ws.new m }
{
    let at = i * row_word_width(m.width);
    let v = words::get(ws, at, j);
    words::put(ws, at, j, 1 - v);
}

// C[k] to three rows, for each of the first b columns.
fn crossings(ws: &mut [u64], m: DenseBinaryMatrix, s: usize, w: usize, b: usize, p: usize)
    requires { Lies m ws.old × Crosses s w p × (b ≡ w - s) × (s ≤ m.height) × (w ≤ m.width) }
    ensures { Added (λ r c. sum (w - s) (turn s r c)) ws.old ws.new m }
{
    for k in 0..b {
        let a = 1 + k / s;
        let x = k % s;
        let y = (x + a) % s;
        let z = (y + a) % s;
        add_one(ws, m, x, k);
        add_one(ws, m, y, k);
        add_one(ws, m, z, k);
    }
}

// I_S
fn identity(ws: &mut [u64], m: DenseBinaryMatrix, s: usize, b: usize)
    requires { Lies m ws.old × (s ≤ m.height) × (b + s ≤ m.width) }
    ensures { Added (λ r c. sum s (λ k. adds r c k (b + k))) ws.old ws.new m }
{
    for k in 0..s {
        add_one(ws, m, k, b + k);
    }
}

// Two of the last P columns to each row.
fn endings(ws: &mut [u64], m: DenseBinaryMatrix, s: usize, w: usize, p: usize)
    requires { Lies m ws.old × (0 < p) × (s ≤ 65535) × (s ≤ m.height) × (w + p ≤ m.width) }
    ensures { Added (λ r c. sum s (λ k. plus (adds r c k (w + k % p)) (adds r c k (w + (k + 1) % p)))) ws.old ws.new m }
{
    for k in 0..s {
        add_one(ws, m, k, w + k % p);
        add_one(ws, m, k, w + (k + 1) % p);
    }
}

// The LDPC rows.
pub fn ldpc_rows(ws: &mut [u64], m: DenseBinaryMatrix, s: usize, w: usize, b: usize, p: usize)
    requires { Lies m ws.old × Crosses s w p × (b ≡ w - s) × (s ≤ m.height) × (w + p ≤ m.width) }
    ensures { Added (ldpc s w p) ws.old ws.new m }
{
    crossings(ws, m, s, w, b, p);
    identity(ws, m, s, b);
    endings(ws, m, s, w, p);
}

// The row of a walk, n places of a list, to row i.
fn add_places(ws: &mut [u64], m: DenseBinaryMatrix, i: usize, list: &[u32], n: usize)
    requires { Lies m ws.old × (i < m.height) × (n ≤ length list.now) × ((k : ℕ) → k < n → get_or list.now k 0 < m.width) }
    ensures { Added (λ r c. sum n (λ k. adds r c i (get_or list.now k 0))) ws.old ws.new m }
{
    for j in &list[..n] {
        add_one(ws, m, i, *j as usize);
    }
}

// The row of an ISI, to row i.
pub fn enc_row(
    ws: &mut [u64],
    m: DenseBinaryMatrix,
    i: usize,
    tables: &[u32],
    x: Isi,
    j: u32,
    w: u32,
    p: u32,
    p1: u32,
)
    requires { Lies m ws.old × (i < m.height) × Walks w p p1 × Ready tables.now j w p1 × (w + p ≤ m.width) }
    ensures { Added (only i (enc tables.now j w p p1 x.0)) ws.old ws.new m }
{
    let t = tuple::intermediate_tuple(tables, x, w, j, p1);
    let mut list = [0u32; 33];
    walk::enc_indices(t, w, p, p1, &mut list);
    let n = (t.d + t.d1) as usize;
    add_places(ws, m, i, &list, n);
}

// The rows of all ISIs, from row `from` on.
pub fn enc_rows(
    ws: &mut [u64],
    m: DenseBinaryMatrix,
    from: usize,
    tables: &[u32],
    isis: &[u32],
    j: u32,
    w: u32,
    p: u32,
    p1: u32,
)
    requires { Lies m ws.old × (from + length isis.now ≤ m.height) × Walks w p p1 × Ready tables.now j w p1 × (w + p ≤ m.width) }
    ensures { Added (enc_rows tables.now isis.now j w p p1 from) ws.old ws.new m }
{
    for (k, isi) in isis.iter().enumerate() {
        let x = ids::beneath::row_number(*isi);
        enc_row(ws, m, from + k, tables, x, j, w, p, p1);
    }
}
