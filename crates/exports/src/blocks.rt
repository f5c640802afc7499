// A block's symbols: solving, the encoding of one, and where a source symbol is displayed from (document 01, 'Solver and symbols').
ghost use Rattle.std.specs.Prelude.{◌≡◌, length, ltb};
ghost use Rattle.field.specs.Choice.{pick};
ghost use Rattle.encoding.specs.Encoded.{Encodes};
ghost use Rattle.exports.specs.Call.{Called, Reports};
ghost use Rattle.exports.specs.Numbers.{row};
ghost use Rattle.exports.specs.Solving.{Solving, displayed, place_numbers};

use crate::values::{Numbers, hand, handed_row, tell, told};
use encoding::encoder;
use solver::display::{Place, locate};
use solver::solver::solve;

// 0 for the arrivals, 1 for the rebuilt store, and where the bytes begin there.
impl Numbers<2> for Place {
    ghost numbers = { place_numbers };

    fn numbers(self) -> [u64; 2] {
        match self {
            Place::Arrived(from) => [0, from as u64],
            Place::Rebuilt(from) => [1, from as u64],
        }
    }
}

// The symbol of an ESI of a block of `count` source symbols of t octets, from its L intermediate symbols, at the front of `out`.
#[unsafe(no_mangle)]
pub extern "C" fn spoonripple_encode(
    k: u32,
    j: u32,
    s: u32,
    h: u32,
    w: u32,
    l: u32,
    p: u32,
    b: u32,
    p1: u32,
    tables: &[u32],
    count: u32,
    t: u16,
    esi: u32,
    intermediates: &[u8],
    out: &mut [u8],
) -> u32
    ensures { Reports
        (λ a ys. Encodes tables.now (row k j s h w l p b p1) count t esi intermediates.now out.old ys a)
        result out.new }
{
    let r = handed_row(k, j, s, h, w, l, p, b, p1);
    told(encoder::encode(r, tables, count, t, esi, intermediates, out))
}

// The intermediate symbols of a block of `count` source symbols of t octets, out of the arrivals: 0 solved, 100 contradiction, 101 open.
#[unsafe(no_mangle)]
pub extern "C" fn spoonripple_solve(
    k: u32,
    j: u32,
    s: u32,
    h: u32,
    w: u32,
    l: u32,
    p: u32,
    b: u32,
    p1: u32,
    tables: &[u32],
    count: u32,
    t: u16,
    esis: &[u32],
    symbols: &[u8],
    rows: &mut [u8],
    values: &mut [u8],
    out: &mut [u8],
    shortfall: &mut [u64],
) -> u32
    ensures { Solving (row k j s h w l p b p1) tables.now count t esis.now symbols.now
        rows.old values.old out.old shortfall.old
        rows.new values.new out.new shortfall.new result }
{
    let r = handed_row(k, j, s, h, w, l, p, b, p1);
    if shortfall.is_empty() {
        // With no room for rows `solve` refuses, by 8 at the latest, and so does a call that was lent no room for the shortfall.
        let none = &mut rows[..0];
        return told(solve(r, tables, count, t, esis, symbols, none, values, out));
    }
    let answer = solve(r, tables, count, t, esis, symbols, rows, values, out);
    tell(answer, shortfall)
}

// A slice without room is refused as a rebuilt store without room is: before a symbol outside (6).
fn measured(built: usize, room: usize) -> usize
    ensures { result ≡ pick (ltb room 2) 0 built }
{
    if room < 2 { 0 } else { built }
}

// Where the t bytes of source symbol i of a block of `count` stand.
#[unsafe(no_mangle)]
pub extern "C" fn spoonripple_display(
    count: u32,
    t: u16,
    esis: &[u32],
    arrivals: &[u8],
    rebuilt: &[u8],
    i: u32,
    out: &mut [u64],
) -> u32
    ensures { Called (displayed count t esis.now (length arrivals.now) (length rebuilt.now) i out.old)
        out.old out.new result }
{
    let built = measured(rebuilt.len(), out.len());
    told(hand(locate(count, t, esis, arrivals.len(), built, i), out))
}
