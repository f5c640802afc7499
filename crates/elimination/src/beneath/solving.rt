// All equations of two stores, one after the other, and the symbols where they settle them. The order in which they stand decides the speed, and not
// the answer.
ghost use Rattle.std.specs.Prelude.{List, ◌≡◌, ℕ, ◌+◌, ◌*◌, ◌≤◌, ◌<◌, length};
ghost use Rattle.field.specs.Runs.{Written};
ghost use Rattle.linear.specs.Rows.{OnlyBelow};
ghost use Rattle.linear.specs.Elimination.{Stepped};
ghost use Rattle.elimination.specs.Steps.{Pivots, StoresRoom, column};
ghost use Rattle.elimination.specs.Taking.{Wide};
ghost use Rattle.elimination.specs.Solving.{Gone, HeldVerdict, Reached, Under, progressed};
ghost use Rattle.elimination.specs.Verdict.{Answered};

use crate::beneath::taking::Taken;
use crate::beneath::{rows, settling, taking};
use crate::verdict::Verdict;
use field::beneath::runs;

// How many equations are held so far; None: one of them cannot be met.
pub type Progress = Option<usize>;

// How many are held, with r before.
pub fn held_now(r: usize, x: Taken) -> Progress
    requires { r ≤ 65535 }
    ensures { result ≡ progressed r x }
{
    match x {
        Taken::Held => Some(r + 1),
        Taken::Dependent => Some(r),
        Taken::Clash => None,
    }
}

// Takes equation i, with r of those before it held in front of it.
fn advance(
    rows: &mut [u8],
    values: &mut [u8],
    pivots: &mut [u16],
    l: usize,
    t: usize,
    i: usize,
    r: usize,
    row: &mut [u8],
    symbol: &mut [u8],
) -> Progress
    requires stores_room { StoresRoom (i + 1) l t rows.old values.old × Pivots l pivots.old × Wide l t row.old symbol.old × (r ≤ i) }
    requires stepped { Stepped l r (column pivots.old) rows.old values.old }
    ensures only_below { OnlyBelow ((i + 1) * l) rows.old rows.new × OnlyBelow ((i + 1) * t) values.old values.new }
    ensures one_more { (a₀ d₀ : List ℕ) → Under l t i r pivots.old a₀ d₀ rows.old values.old
        → Gone l t (i + 1) pivots.new a₀ d₀ rows.new values.new result }
{
    rows::copy_row(rows, row, l, 0, i);
    let laid = rows::lay_symbol(values, symbol, t, i);
    held_now(
        r,
        taking::take(rows, values, pivots, l, t, r, row, symbol, laid),
    )
}

// Takes all m equations.
fn forward(
    rows: &mut [u8],
    values: &mut [u8],
    pivots: &mut [u16],
    m: usize,
    l: usize,
    t: usize,
    row: &mut [u8],
    symbol: &mut [u8],
) -> Progress
    requires { StoresRoom m l t rows.old values.old × Pivots l pivots.old × Wide l t row.old symbol.old }
    ensures only_below { OnlyBelow (m * l) rows.old rows.new × OnlyBelow (m * t) values.old values.new }
    ensures gone { Gone l t m pivots.new rows.old values.old rows.new values.new result }
{
    let mut r = 0;
    for i in 0..m {
        r = advance(rows, values, pivots, l, t, i, r, row, symbol)?;
    }
    Some(r)
}

// The same in buffers that may be longer than a row and a symbol.
fn forward_in(
    rows: &mut [u8],
    values: &mut [u8],
    pivots: &mut [u16],
    m: usize,
    l: usize,
    t: usize,
    row: &mut [u8],
    symbol: &mut [u8],
) -> Progress
    requires { StoresRoom m l t rows.old values.old × Pivots l pivots.old × (l ≤ length row.old) × (t ≤ length symbol.old) }
    ensures only_below { OnlyBelow (m * l) rows.old rows.new × OnlyBelow (m * t) values.old values.new }
    ensures stores_room { StoresRoom m l t rows.new values.new × Reached l t pivots.new rows.new values.new result }
    ensures gone { Gone l t m pivots.new rows.old values.old rows.new values.new result }
{
    forward(
        rows,
        values,
        pivots,
        m,
        l,
        t,
        &mut row[..l],
        &mut symbol[..t],
    )
}

// What r held equations in l symbols come to.
pub fn counted(l: usize, r: usize) -> Verdict
    requires { l ≤ 65535 }
    ensures { HeldVerdict l r result }
{
    if l <= r {
        return Verdict::Solved;
    }
    Verdict::Open((l - r) as u32)
}

// The used parts of both stores are made 0, and the verdict is handed on.
fn emptied(rows: &mut [u8], values: &mut [u8], m: usize, l: usize, t: usize, v: Verdict) -> Verdict
    requires { StoresRoom m l t rows.old values.old }
    ensures rows_cleared { Written (λ _. 0) rows.old rows.new 0 (m * l) }
    ensures values_cleared { Written (λ _. 0) values.old values.new 0 (m * t) }
    ensures value { result ≡ v }
{
    runs::clear(rows, 0, m * l);
    runs::clear(values, 0, m * t);
    v
}

// All of it, in a frame for at most N symbols of at most N octets: a pivot for each, a row and a symbol.
fn framed<const N: usize>(
    rows: &mut [u8],
    values: &mut [u8],
    out: &mut [u8],
    m: usize,
    l: usize,
    t: usize,
) -> Verdict
    requires room { StoresRoom m l t rows.old values.old × (l * t ≤ length out.old) }
    requires frame { (0 < t) × (l ≤ N) × (t ≤ N) × (N ≤ 65535) }
    ensures { Answered m l t rows.old values.old out.old rows.new values.new out.new result }
{
    let mut pivots = [0u16; N];
    let mut row = [0u8; N];
    let mut symbol = [0u8; N];
    let Some(r) = forward_in(rows, values, &mut pivots, m, l, t, &mut row, &mut symbol) else {
        return emptied(rows, values, m, l, t, Verdict::Contradiction);
    };
    settling::settle(rows, values, &pivots, l, t, r, out);
    emptied(rows, values, m, l, t, counted(l, r))
}

// Solves the m equations in l symbols of t octets that the two stores hold. Their used parts are 0 afterwards.
pub fn solve_stored(
    rows: &mut [u8],
    values: &mut [u8],
    out: &mut [u8],
    m: usize,
    l: usize,
    t: usize,
) -> Verdict
    requires { StoresRoom m l t rows.old values.old × (l * t ≤ length out.old) × (0 < t) × (l ≤ 65535) × (t ≤ 65535) }
    ensures { Answered m l t rows.old values.old out.old rows.new values.new out.new result }
{
    // The large frame, of 256 KiB, is called at two places: what is called once becomes a part of its caller, and its frame with it, and then a small
    // block would take as much.
    if l > 2048 {
        return framed::<65535>(rows, values, out, m, l, t);
    }
    if t > 2048 {
        return framed::<65535>(rows, values, out, m, l, t);
    }
    framed::<2048>(rows, values, out, m, l, t)
}
