// The rows that row, tables and K fix: LDPC, HDPC and padding. They are taken at the first question of a stretch and not at begin: with the packets in
// front of them half as many sums are made, and less than a tenth of the products. Each is made alone, in the frame of the call: the stores have no place
// for those that depend on what is held.
ghost use Rattle.std.specs.Prelude.{◌≡◌, ℕ, ◌≤◌, ◌<◌, length, get_or};
ghost use Rattle.headers.specs.Row.{Obeys, l_of};
ghost use Rattle.elimination.specs.Steps.{StoresRoom};
ghost use Rattle.elimination.specs.Taking.{Wide};
ghost use Rattle.solver.specs.System.{fixed};
ghost use Rattle.intake.specs.Night.{Completes};
ghost use Rattle.intake.specs.State.{Begun, l_in, mark_in, t_in};
ghost use Rattle.intake.specs.Taking.{Adds, Fixing, Takable, first_fixed, fixed_row, in_turn, single};

use crate::beneath::{stepping, words};
use constraints::beneath::{encoding, hdpc, ldpc};
use elimination::beneath::solving::Progress;
use field::beneath::runs;
use headers::beneath::tuple;
use headers::ids;
use headers::row::Row;
use solver::beneath::sizes;

// Which of them is the i-th that is taken.
fn in_turn(r: Row, k: u32, i: usize) -> usize
    requires { Obeys r × (k ≤ r.kp) × (i < fixed r k) }
    ensures { result ≡ in_turn r k i }
{
    let padding = (r.kp - k) as usize;
    if i < padding {
        return (r.s + r.h) as usize + i;
    }
    i - padding
}

// Row j of them goes into the buffer.
fn lay_row(tables: &[u32], r: Row, k: u32, j: usize, row: &mut [u8])
    requires { Fixing r tables.now k × (j < fixed r k) × (length row.old ≡ l_of r) }
    ensures row_len_unchanged { length row.new ≡ length row.old }
    ensures row_laid { (c : ℕ) → c < l_of r → get_or row.new c 0 ≡ fixed_row tables.now r k j c }
{
    let s = r.s as usize;
    let h = r.h as usize;
    let l = r.l as usize;
    if j < s {
        ldpc::row(row, 0, s, r.w as usize, r.b as usize, r.p as usize, j);
        return;
    }
    if j < s + h {
        hdpc::row(tables, row, 0, l, h, j - s);
        return;
    }
    let isi = ids::beneath::row_number(k + (j - s - h) as u32);
    let x = tuple::intermediate_tuple(tables, isi, r.w, r.j, r.p1);
    encoding::tuple_row(row, 0, l, r.w, r.p, r.p1, x);
}

// Takes row j of them, whose symbol is 0.
fn take_row(
    rows: &mut [u8],
    values: &mut [u8],
    pivots: &mut [u16],
    tables: &[u32],
    r: Row,
    k: u32,
    t: usize,
    j: usize,
    p: Progress,
    row: &mut [u8],
    symbol: &mut [u8],
) -> Progress
    requires { Fixing r tables.now k × (j < fixed r k) × Takable (l_of r) t pivots.old rows.old values.old p
        × Wide (l_of r) t row.old symbol.old }
    ensures wide { Wide (l_of r) t row.new symbol.new }
    ensures adds { Adds (l_of r) t (single (fixed_row tables.now r k j) (λ _. 0)) pivots.old rows.old values.old
        pivots.new rows.new values.new p result }
{
    lay_row(tables, r, k, j, row);
    runs::clear(symbol, 0, t);
    stepping::take_next(rows, values, pivots, r.l as usize, t, p, row, symbol, true)
}

// Takes all of them, in buffers as wide as a row and a symbol.
fn take_fixed(
    rows: &mut [u8],
    values: &mut [u8],
    pivots: &mut [u16],
    tables: &[u32],
    r: Row,
    k: u32,
    t: usize,
    from: Progress,
    row: &mut [u8],
    symbol: &mut [u8],
) -> Progress
    requires { Fixing r tables.now k × Takable (l_of r) t pivots.old rows.old values.old from × Wide (l_of r) t row.old symbol.old }
    ensures { Adds (l_of r) t (first_fixed tables.now r k (fixed r k)) pivots.old rows.old values.old
        pivots.new rows.new values.new from result }
{
    let n = sizes::fixed(r, k);
    let mut p = from;
    for i in 0..n {
        let j = in_turn(r, k, i);
        p = take_row(rows, values, pivots, tables, r, k, t, j, p, row, symbol);
    }
    p
}

// The same in buffers of the frame, 128 KiB for every block: a smaller frame for small ones was tried, and the compiler made both one.
fn take_framed(
    rows: &mut [u8],
    values: &mut [u8],
    pivots: &mut [u16],
    tables: &[u32],
    r: Row,
    k: u32,
    t: usize,
    from: Progress,
) -> Progress
    requires { Fixing r tables.now k × Takable (l_of r) t pivots.old rows.old values.old from × (t ≤ 65535) }
    ensures { Adds (l_of r) t (first_fixed tables.now r k (fixed r k)) pivots.old rows.old values.old
        pivots.new rows.new values.new from result }
{
    let mut octets = [0u8; 65535];
    let mut more = [0u8; 65535];
    let row = &mut octets[..r.l as usize];
    let symbol = &mut more[..t];
    take_fixed(rows, values, pivots, tables, r, k, t, from, row, symbol)
}

// Where no question was asked since begin.
fn fix(state: &mut [u32], pivots: &mut [u16], rows: &mut [u8], values: &mut [u8]) -> Progress
    requires begun { Begun state.old pivots.old × (mark_in state.old ≡ 1) }
    requires stores_room { StoresRoom (l_in state.old) (l_in state.old) (t_in state.old) rows.old values.old }
    ensures { Completes state.old pivots.old rows.old values.old
        state.new pivots.new rows.new values.new result }
{
    let r = words::row_in(state);
    let k = words::k_in(state);
    let t = words::t_in(state);
    let p = words::progress_in(state);
    let q = take_framed(rows, values, pivots, words::tables_in(state), r, k, t, p);
    words::note(state, q, words::FIXED);
    q
}

// How far the elimination has come with all rows of the stretch.
pub fn complete(
    state: &mut [u32],
    pivots: &mut [u16],
    rows: &mut [u8],
    values: &mut [u8],
) -> Progress
    requires { Begun state.old pivots.old × StoresRoom (l_in state.old) (l_in state.old) (t_in state.old) rows.old values.old }
    ensures { Completes state.old pivots.old rows.old values.old
        state.new pivots.new rows.new values.new result }
{
    let whole = words::mark_in(state) != words::BEGUN;
    if whole {
        return words::progress_in(state);
    }
    fix(state, pivots, rows, values)
}
