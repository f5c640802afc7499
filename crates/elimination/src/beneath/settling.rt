// The symbols from as many held rows as there are columns: from the last held row back, over the symbols alone. The stores stay as they are.
ghost use Rattle.std.specs.Prelude.{◌+◌, ◌*◌, ◌≤◌, ◌<◌, length};
ghost use Rattle.linear.specs.Back.{Brought};
ghost use Rattle.linear.specs.Rows.{OnlyBelow};
ghost use Rattle.elimination.specs.Settling.{Settles};
ghost use Rattle.elimination.specs.Taking.{Lent};

use crate::beneath::{rows, within};
use field::beneath::runs;

// Symbol q goes to symbol p of the out store, and what row q has past column p goes onto it, times the symbols there. A held row is 0 before its
// pivot, p, and what it has past it stands at pivots of later rows, so that these symbols are settled already.
fn bring(rows: &[u8], values: &[u8], l: usize, t: usize, q: usize, p: usize, out: &mut [u8])
    requires { (q * l + l ≤ length rows.now) × (q * t + t ≤ length values.now) × (p < l) × (l * t ≤ length out.old) }
    ensures only_below { OnlyBelow (l * t) out.old out.new }
    ensures brought { Brought l t l q p rows.now values.now out.old out.new }
{
    let start = q * l;
    let end = start + l;
    rows::copy_row(values, out, t, p, q);
    let mut x = runs::first_other(rows, start + (p + 1), end);
    while x < end {
        within::add(out, t, p, x - start, rows[x]);
        x = runs::first_other(rows, x + 1, end);
    }
}

// The l symbols of t octets that r held equations settle, if they are as many.
pub fn settle(
    rows: &[u8],
    values: &[u8],
    pivots: &[u16],
    l: usize,
    t: usize,
    r: usize,
    out: &mut [u8],
)
    requires { Lent l t r pivots.now rows.now values.now × (l * t ≤ length out.old) }
    ensures { Settles l t r pivots.now rows.now values.now out.old out.new }
{
    if r < l {
        return;
    }
    for q in (0..r).rev() {
        bring(rows, values, l, t, q, usize::from(pivots[q]), out);
    }
}
