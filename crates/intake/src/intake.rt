// The intake of a block, packet by packet (document 02, E1), any number of them in stores for L rows and L symbols (E14). State, pivots and stores are
// lent to each call as the last one left them; with other content in them every call still returns, and refuses or answers.
ghost use Rattle.std.specs.Prelude.{◌≡◌, ◌≤◌, length};
ghost use Rattle.field.specs.Answer.{given, outcome};
ghost use Rattle.headers.specs.Row.{Obeys, l_of};
ghost use Rattle.intake.specs.Night.{Asks, Begins, Takes, askable, beginnable, room_to_begin, stores_room, takable};
ghost use Rattle.intake.specs.State.{Numbers};

use crate::beneath::{asking, keeping, looking, words};
use elimination::verdict::Verdict;
use field::refusal::Refusal;
use headers::beneath::row;
use headers::row::Row;

// Refusal 8: a store is too short for L rows of L octets, or for L symbols.
fn room(l: usize, t: usize, rows: usize, values: usize) -> Result<(), Refusal>
    requires { (l ≤ 65535) × (t ≤ 65535) }
    ensures { outcome result ≡ stores_room l t rows values (given tt) }
{
    if rows < l * l {
        return Err(Refusal::WrongLength);
    }
    if values < l * t {
        return Err(Refusal::WrongLength);
    }
    Ok(())
}

// Refusal 8 of a begin: a store is too short, or the state, or there are too few places for pivots.
fn room_to_begin(
    r: Row,
    t: u16,
    state: usize,
    pivots: usize,
    rows: usize,
    values: usize,
) -> Result<(), Refusal>
    requires { Obeys r }
    ensures { outcome result ≡ room_to_begin r t state pivots rows values }
{
    let l = r.l as usize;
    room(l, t as usize, rows, values)?;
    if state < words::SIZE {
        return Err(Refusal::WrongLength);
    }
    if pivots < l {
        return Err(Refusal::WrongLength);
    }
    Ok(())
}

// The refusals of a begin, on numbers alone.
fn may_begin(
    r: Row,
    tables: usize,
    k: u32,
    t: u16,
    state: usize,
    pivots: usize,
    rows: usize,
    values: usize,
) -> Result<(), Refusal>
    ensures { outcome result ≡ beginnable r tables k t state pivots rows values }
{
    row::verify(r)?;
    if tables != 1024 {
        return Err(Refusal::BadTables);
    }
    if k < 1 {
        return Err(Refusal::BadCount);
    }
    if k > r.kp {
        return Err(Refusal::BadCount);
    }
    if t == 0 {
        return Err(Refusal::BadSize);
    }
    room_to_begin(r, t, state, pivots, rows, values)
}

// Begins anew with a row, tables, K and T. All that came before is forgotten, a contradiction too; the stores may hold anything.
pub fn begin(
    r: Row,
    tables: &[u32],
    k: u32,
    t: u16,
    state: &mut [u32],
    pivots: &[u16],
    rows: &[u8],
    values: &[u8],
) -> Result<(), Refusal>
    ensures { Begins r tables.now k t state.old pivots.now rows.now values.now
        state.new result }
{
    may_begin(
        r,
        tables.len(),
        k,
        t,
        state.len(),
        pivots.len(),
        rows.len(),
        values.len(),
    )?;
    words::open(state, r, k, t as u32, tables);
    Ok(())
}

// The refusals of a packet of an intake that was begun.
fn may_take(
    state: &[u32],
    esi: u32,
    symbol: usize,
    rows: usize,
    values: usize,
) -> Result<(), Refusal>
    requires { Numbers state.now }
    ensures { outcome result ≡ takable state.now esi symbol rows values }
{
    if esi >= 16777216 {
        return Err(Refusal::BadCount);
    }
    let t = words::t_in(state);
    if symbol != t {
        return Err(Refusal::BadSize);
    }
    room(words::l_in(state), t, rows, values)
}

// Takes the packet of an ESI with its symbol. One whose row depends on what is held takes no place: its symbol is compared, and that is all.
pub fn packet(
    esi: u32,
    symbol: &[u8],
    state: &mut [u32],
    pivots: &mut [u16],
    rows: &mut [u8],
    values: &mut [u8],
) -> Result<(), Refusal>
    ensures { Takes esi symbol.now state.old pivots.old rows.old values.old
        state.new pivots.new rows.new values.new result }
{
    if !looking::begun(state, pivots) {
        return Err(Refusal::NotBegun);
    }
    may_take(state, esi, symbol.len(), rows.len(), values.len())?;
    keeping::keep(esi, symbol, state, pivots, rows, values);
    Ok(())
}

// The refusals of a question of an intake that was begun.
fn may_ask(state: &[u32], rows: usize, values: usize, out: usize) -> Result<(), Refusal>
    requires { Numbers state.now }
    ensures { outcome result ≡ askable state.now rows values out }
{
    let l = words::l_in(state);
    let t = words::t_in(state);
    room(l, t, rows, values)?;
    if out < l * t {
        return Err(Refusal::WrongLength);
    }
    Ok(())
}

// Solved, contradiction or open, of all packets since the last accepted begin. Packets may go on after it.
pub fn question(
    state: &mut [u32],
    pivots: &mut [u16],
    rows: &mut [u8],
    values: &mut [u8],
    out: &mut [u8],
) -> Result<Verdict, Refusal>
    ensures { Asks state.old pivots.old rows.old values.old out.old
        state.new pivots.new rows.new values.new out.new result }
{
    if !looking::begun(state, pivots) {
        return Err(Refusal::NotBegun);
    }
    may_ask(state, rows.len(), values.len(), out.len())?;
    Ok(asking::answer(state, pivots, rows, values, out))
}
