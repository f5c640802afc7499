// The intermediate symbols of a block, out of the packets that arrived.
ghost use Rattle.std.specs.Prelude.{◌≡◌, ◌≤◌};
ghost use Rattle.field.specs.Answer.{outcome};
ghost use Rattle.headers.specs.Row.{Obeys};
ghost use Rattle.solver.specs.System.{Solves, room_to_solve, solvable};

use crate::beneath::{call, esis, sizes};
use elimination::verdict::Verdict;
use field::refusal::Refusal;
use headers::beneath::row;
use headers::row::Row;

// Refusal 8: a store is too short for M rows of L octets, for M symbols, or for L symbols.
fn room(
    r: Row,
    k: u32,
    t: u16,
    n: usize,
    rows: usize,
    values: usize,
    out: usize,
) -> Result<(), Refusal>
    requires { Obeys r × (k ≤ r.kp) × (n ≤ 65535) }
    ensures { outcome result ≡ room_to_solve r k t n rows values out }
{
    let m = sizes::m(r, k, n);
    let l = r.l as usize;
    if rows < m * l {
        return Err(Refusal::WrongLength);
    }
    if values < m * t as usize {
        return Err(Refusal::WrongLength);
    }
    if out < l * t as usize {
        return Err(Refusal::WrongLength);
    }
    Ok(())
}

// The refusals, on numbers alone.
fn may(
    r: Row,
    tables: usize,
    k: u32,
    t: u16,
    n: usize,
    large: bool,
    came: usize,
    rows: usize,
    values: usize,
    out: usize,
) -> Result<(), Refusal>
    ensures { outcome result ≡ solvable r tables k t n large came rows values out }
{
    row::verify(r)?;
    if tables != 1024 {
        return Err(Refusal::BadTables);
    }
    if large {
        return Err(Refusal::BadCount);
    }
    if k < 1 {
        return Err(Refusal::BadCount);
    }
    if k > r.kp {
        return Err(Refusal::BadCount);
    }
    if n > 65535 {
        return Err(Refusal::BadCount);
    }
    if t == 0 {
        return Err(Refusal::BadSize);
    }
    if came != n * t as usize {
        return Err(Refusal::BadSize);
    }
    room(r, k, t, n, rows, values, out)
}

// Solved, contradiction or open; the used parts of both scratch stores are 0 afterwards.
pub fn solve(
    r: Row,
    tables: &[u32],
    k: u32,
    t: u16,
    esis: &[u32],
    symbols: &[u8],
    rows: &mut [u8],
    values: &mut [u8],
    out: &mut [u8],
) -> Result<Verdict, Refusal>
    ensures { Solves r tables.now k t esis.now symbols.now rows.old values.old out.old
        rows.new values.new out.new result }
{
    may(
        r,
        tables.len(),
        k,
        t,
        esis.len(),
        esis::any_large(esis),
        symbols.len(),
        rows.len(),
        values.len(),
        out.len(),
    )?;
    Ok(call::run(r, tables, k, t, esis, symbols, rows, values, out))
}
