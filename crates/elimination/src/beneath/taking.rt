// One equation against the r held ones. Each held row is 1 at its pivot, 0 before it, and 0 at the pivots of those before it.
ghost use Rattle.std.specs.Prelude.{◌≡◌, ◌+◌, ◌≤◌, ◌<◌, length};
ghost use Rattle.field.specs.Runs.{zero_from};
ghost use Rattle.linear.specs.Elimination.{Stepped};
ghost use Rattle.elimination.specs.Steps.{column};
ghost use Rattle.elimination.specs.Taking.{Lent, Wide, RoomForOne, Swept, Sought, PutIn, Lodged, Became};

use crate::beneath::{onto, rows};
use field::beneath::runs;

// What became of the equation.
#[derive(Clone, Copy, Debug, PartialEq, Eq)]
pub enum Taken {
    Held,
    Dependent,
    Clash,
}

// The held rows go off the equation, so that it is 0 at their pivots. Whether its symbol was all 0 is known, and whether it is then is what the last sum
// told, which alone is asked: the symbol is not looked at again.
fn sift(
    rows: &[u8],
    values: &[u8],
    pivots: &[u16],
    l: usize,
    t: usize,
    r: usize,
    row: &mut [u8],
    symbol: &mut [u8],
    laid: bool,
) -> bool
    requires { Lent l t r pivots.now rows.now values.now × Wide l t row.old symbol.old × (laid ≡ zero_from symbol.old 0 t) }
    ensures wide { Wide l t row.new symbol.new }
    ensures value { result ≡ zero_from symbol.new 0 t }
    ensures swept { Stepped l r (column pivots.now) rows.now values.now
        → Swept l t r r pivots.now rows.now values.now
        row.old symbol.old row.new symbol.new }
{
    let mut zero = laid;
    let mut k = rows::next_pivot(row, pivots, 0, r);
    while k < r {
        let f = onto::take_off(rows, l, k, usize::from(pivots[k]), row);
        let next = rows::next_pivot(row, pivots, k + 1, r);
        zero = onto::add_symbol(symbol, values, t, k, f, next >= r);
        k = next;
    }
    zero
}

// The first column in which the row is not 0, or l. There is none once l rows are held.
fn seek(row: &[u8], l: usize, r: usize) -> usize
    requires { length row.now ≡ l }
    ensures { Sought l r row.now result }
{
    if l <= r {
        return l;
    }
    runs::first_other(row, 0, l)
}

// The equation, which is not 0 in column c, gets place r and that pivot.
fn hold(
    rows: &mut [u8],
    values: &mut [u8],
    pivots: &mut [u16],
    l: usize,
    t: usize,
    r: usize,
    row: &mut [u8],
    symbol: &mut [u8],
    c: usize,
)
    requires { RoomForOne l t r pivots.old rows.old values.old × Wide l t row.old symbol.old × (c < l) × (l ≤ 65535) }
    ensures put_in { PutIn l t r c pivots.old rows.old values.old pivots.new rows.new values.new }
    ensures lodged { Lodged l t r c pivots.old rows.old values.old row.old symbol.old
        pivots.new rows.new values.new }
{
    onto::make_one(row, symbol, c);
    pivots[r] = c as u16;
    rows::copy_row(row, rows, l, r, 0);
    rows::copy_row(symbol, values, t, r, 0);
}

// Takes the equation that stands in `row` and `symbol`, which are scratch afterwards: it is held in place r, or it says what the held ones say,
// or they contradict it. `laid` is whether its symbol is all 0, which what laid it there has told.
pub fn take(
    rows: &mut [u8],
    values: &mut [u8],
    pivots: &mut [u16],
    l: usize,
    t: usize,
    r: usize,
    row: &mut [u8],
    symbol: &mut [u8],
    laid: bool,
) -> Taken
    requires lent { Lent l t r pivots.old rows.old values.old × Wide l t row.old symbol.old × (laid ≡ zero_from symbol.old 0 t) }
    requires room { (r ≤ l) × (l ≤ 65535) × (r < l → RoomForOne l t r pivots.old rows.old values.old) }
    ensures { Became l t r pivots.old rows.old values.old row.old symbol.old
        pivots.new rows.new values.new result }
{
    let zero = sift(rows, values, pivots, l, t, r, row, symbol, laid);
    let c = seek(row, l, r);
    if c < l {
        hold(rows, values, pivots, l, t, r, row, symbol, c);
        return Taken::Held;
    }
    // The row depends on those that are held: the symbol has to be what they make of it.
    if zero {
        return Taken::Dependent;
    }
    Taken::Clash
}
