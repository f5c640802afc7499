// One packet: its row and its symbol are taken in as they come.
ghost use Rattle.std.specs.Prelude.{◌≡◌, ℕ, ◌+◌, ◌≤◌, ◌<◌, length, get_or};
ghost use Rattle.field.specs.Runs.{zero_from};
ghost use Rattle.headers.specs.Row.{Obeys, l_of};
ghost use Rattle.elimination.specs.Steps.{StoresRoom};
ghost use Rattle.elimination.specs.Taking.{Wide};
ghost use Rattle.solver.specs.System.{sent_row};
ghost use Rattle.intake.specs.Night.{HoldsMore, Packet, Within};
ghost use Rattle.intake.specs.State.{l_in, t_in};

use crate::beneath::{stepping, words};
use constraints::beneath::encoding;
use elimination::beneath::rows;
use headers::beneath::tuple;
use headers::ids;
use headers::ids::Esi;
use headers::row::Row;

// Its equation goes into the buffers; the answer is whether its symbol is all 0.
fn lay_packet(
    tables: &[u32],
    r: Row,
    k: u32,
    esi: u32,
    symbol: &[u8],
    row: &mut [u8],
    buffer: &mut [u8],
) -> bool
    requires { Obeys r × (length tables.now ≡ 1024) × (1 ≤ k) × (k ≤ r.kp) × (esi < 16777216)
        × Wide (l_of r) (length symbol.now) row.old buffer.old }
    ensures wide { Wide (l_of r) (length symbol.now) row.new buffer.new }
    ensures row_laid { (c : ℕ) → c < l_of r → get_or row.new c 0 ≡ sent_row tables.now r k esi c }
    ensures symbol_laid { (b : ℕ) → b < length symbol.now → get_or buffer.new b 0 ≡ get_or symbol.now b 0 }
    ensures value { result ≡ zero_from buffer.new 0 (length symbol.now) }
{
    let x = tuple::intermediate_tuple(
        tables,
        ids::beneath::isi_of(r.kp, k, Esi(esi)),
        r.w,
        r.j,
        r.p1,
    );
    encoding::tuple_row(row, 0, r.l as usize, r.w, r.p, r.p1, x);
    rows::lay_symbol(symbol, buffer, symbol.len(), 0)
}

// It is taken in, in a frame for at most N columns and symbols of at most N octets. The steps stand here and not in a function of their own: what is short
// becomes a part of its caller, and its frame with it.
fn framed<const N: usize>(
    esi: u32,
    symbol: &[u8],
    state: &mut [u32],
    pivots: &mut [u16],
    rows: &mut [u8],
    values: &mut [u8],
    l: usize,
    t: usize,
)
    requires packet { Packet esi symbol.now state.old pivots.old rows.old values.old }
    requires frame { (l ≡ l_in state.old) × (t ≡ t_in state.old) × (l ≤ N) × (t ≤ N) × (N ≤ 65535) }
    ensures within { Within state.old pivots.old rows.old values.old
        state.new pivots.new rows.new values.new }
    ensures holds_more { HoldsMore esi symbol.now state.old pivots.old rows.old values.old
        state.new pivots.new rows.new values.new }
{
    let mut row = [0u8; N];
    let mut buffer = [0u8; N];
    let row = &mut row[..l];
    let buffer = &mut buffer[..t];
    let r = words::row_in(state);
    let mark = words::mark_in(state);
    let laid = lay_packet(
        words::tables_in(state),
        r,
        words::k_in(state),
        esi,
        symbol,
        row,
        buffer,
    );
    let p = words::progress_in(state);
    let q = stepping::take_next(rows, values, pivots, l, t, p, row, buffer, laid);
    words::note(state, q, mark);
}

// A packet that nothing refuses.
pub fn keep(
    esi: u32,
    symbol: &[u8],
    state: &mut [u32],
    pivots: &mut [u16],
    rows: &mut [u8],
    values: &mut [u8],
)
    requires { Packet esi symbol.now state.old pivots.old rows.old values.old }
    ensures within { Within state.old pivots.old rows.old values.old
        state.new pivots.new rows.new values.new }
    ensures holds_more { HoldsMore esi symbol.now state.old pivots.old rows.old values.old
        state.new pivots.new rows.new values.new }
{
    let l = words::l_in(state);
    let t = words::t_in(state);
    // The large frame, of 128 KiB, is called at two places: what is called once becomes a part of its caller, and its frame with it, and then a small
    // packet would take as much.
    if l > 2048 {
        return framed::<65535>(esi, symbol, state, pivots, rows, values, l, t);
    }
    if t > 2048 {
        return framed::<65535>(esi, symbol, state, pivots, rows, values, l, t);
    }
    framed::<2048>(esi, symbol, state, pivots, rows, values, l, t)
}
