// The intake of a block, packet by packet, any number of them (document 02, E1 and E14). The caller keeps state, pivots and stores between the calls.
ghost use Rattle.intake.specs.Night.{Begins};
ghost use Rattle.exports.specs.Call.{Reports};
ghost use Rattle.exports.specs.Intakes.{Packeted, Questioned};
ghost use Rattle.exports.specs.Numbers.{row};

use crate::values::{handed_row, tell, told};
use intake::intake::{begin, packet, question};

// Begins anew with a row, tables, `count` source symbols of t octets. Of pivots and stores only the lengths matter.
#[unsafe(no_mangle)]
pub extern "C" fn spoonripple_intake_begin(
    k: u32,
    j: u32,
    s: u32,
    h: u32,
    w: u32,
    l: u32,
    p: u32,
    b: u32,
    p1: u32,
    tables: &[u32],
    count: u32,
    t: u16,
    state: &mut [u32],
    pivots: &[u16],
    rows: &[u8],
    values: &[u8],
) -> u32
    ensures { Reports
        (λ a ys. Begins (row k j s h w l p b p1) tables.now count t state.old pivots.now rows.now
        values.now ys a) result state.new }
{
    let r = handed_row(k, j, s, h, w, l, p, b, p1);
    told(begin(r, tables, count, t, state, pivots, rows, values))
}

// Takes the packet of an ESI with its symbol.
#[unsafe(no_mangle)]
pub extern "C" fn spoonripple_intake_packet(
    esi: u32,
    symbol: &[u8],
    state: &mut [u32],
    pivots: &mut [u16],
    rows: &mut [u8],
    values: &mut [u8],
) -> u32
    ensures { Packeted esi symbol.now state.old pivots.old rows.old values.old
        state.new pivots.new rows.new values.new result }
{
    told(packet(esi, symbol, state, pivots, rows, values))
}

// Of all packets since the last accepted begin: 0 solved, with the symbols in `out`, 100 contradiction, 101 open.
#[unsafe(no_mangle)]
pub extern "C" fn spoonripple_intake_question(
    state: &mut [u32],
    pivots: &mut [u16],
    rows: &mut [u8],
    values: &mut [u8],
    out: &mut [u8],
    shortfall: &mut [u64],
) -> u32
    ensures { Questioned state.old pivots.old rows.old values.old out.old shortfall.old
        state.new pivots.new rows.new values.new out.new shortfall.new result }
{
    if shortfall.is_empty() {
        // With no room for symbols `question` refuses, by 8 at the latest, and so does a question that was lent no room for the shortfall.
        let none = &mut out[..0];
        return told(question(state, pivots, rows, values, none));
    }
    let answer = question(state, pivots, rows, values, out);
    tell(answer, shortfall)
}
