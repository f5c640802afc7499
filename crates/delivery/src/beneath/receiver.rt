// A delivery from its bytes to its source block, or to the reason why not: opened, heard packet by packet over the lent memory of an intake, and concluded.
ghost use Rattle.std.specs.Prelude.{◌≡◌, ◌+◌, ◌*◌, ◌≤◌, ◌<◌, length, take};
ghost use Rattle.field.specs.Answer.{given};
ghost use Rattle.intake.specs.State.{k_in, l_in, row_in, t_in, tables_in};
ghost use Rattle.delivery.specs.Layout.{is_own, passed_of, t_of};
ghost use Rattle.delivery.specs.Screen.{screen as Screen·screen};
ghost use Rattle.delivery.specs.Received.{Comes, InRoom, Leaves, Rebuildable};
ghost use Rattle.delivery.specs.Hearing.{ConcludesHeld, HearsMore, Held, OpenedSmall, Opens, Restorable, Roomy, RoomyMemory, StaysLent, stretch_at, stretch_of};

use crate::beneath::packets::Passed;
use crate::beneath::screen::Stop;
use crate::beneath::{block, layout, packets, screen};
use elimination::verdict::Verdict;
use headers::beneath::{front, util};
use headers::row::Row;
use intake::beneath::words;
use intake::intake::{begin, packet, question};

// The lent memory of an intake.
#[derive(Drop)]
pub struct Memory<'a> {
    pub state: &'a mut [u32],
    pub pivots: &'a mut [u16],
    pub rows: &'a mut [u8],
    pub values: &'a mut [u8],
}

// Of a delivery that was opened: the bytes of a symbol, and those of the object.
#[derive(Clone, Copy, Debug, PartialEq, Eq)]
pub struct Ready {
    pub symbol_size: usize,
    pub object_size: usize,
}

// Of a delivery that was taken: the verdict on its system, the bytes of its object, so many, which stand at the front of the lent store where it is solved,
// and what was passed over.
#[derive(Clone, Copy, Debug, PartialEq, Eq)]
pub struct Concluded {
    pub verdict: Verdict,
    pub size: usize,
    pub passed: Passed,
}

// Of a delivery that may be taken.
fn start(
    bytes: &[u8],
    state: &mut [u32],
    pivots: &[u16],
    rows: &[u8],
    values: &[u8],
) -> Result<Ready, Stop>
    requires passes { Screen·screen bytes.now ≡ given tt }
    requires roomy { Roomy (length state.old) (length pivots.now) (length rows.now) (length values.now) }
    ensures opens { Opens bytes.now state.old pivots.now rows.now values.now state.new result }
    ensures opened_small { OpenedSmall result }
{
    let o = layout::info(bytes);
    // Neither call refuses: the screen has asked what they ask.
    let r = layout::row(bytes)?;
    let t = o.symbol_size;
    let k = util::int_div_ceil(o.transfer_length, u64::from(t)) as u32;
    let mut tables = [0u32; 1024];
    layout::read_tables(bytes, &mut tables);
    begin(r, &tables, k, t, state, pivots, rows, values)?;
    Ok(Ready {
        symbol_size: usize::from(t),
        object_size: o.transfer_length as usize,
    })
}

// The head of a delivery, its first 4,128 bytes: what comes behind them is not looked at. Of the lent memory of an intake the state alone is written, so
// pivots, rows and values are asked for reading.
pub fn open(
    bytes: &[u8],
    state: &mut [u32],
    pivots: &[u16],
    rows: &[u8],
    values: &[u8],
) -> Result<Ready, Stop>
    requires { Roomy (length state.old) (length pivots.now) (length rows.now) (length values.now) }
    ensures opens { Opens bytes.now state.old pivots.now rows.now values.now state.new result }
    ensures opened_small { OpenedSmall result }
{
    screen::screen(bytes)?;
    start(bytes, state, pivots, rows, values)
}

// One packet, of T + 4 bytes: whether it is of the block. One of another block is passed over.
pub fn hear(bytes: &[u8], memory: &mut Memory<'_>) -> bool
    requires { 4 ≤ length bytes.now }
    ensures value { result ≡ is_own bytes.now }
    ensures hears_more { HearsMore bytes.now memory.old memory.new }
    ensures stays_lent { StaysLent memory.old memory.new }
{
    let id = front::get(bytes);
    if id.source_block_number != 0 {
        return false;
    }
    // A packet that cannot be taken changes nothing: so it is for whoever holds nothing, of whom nothing is said.
    let _ = packet(
        id.encoding_symbol_id,
        &bytes[4..],
        memory.state,
        memory.pivots,
        memory.rows,
        memory.values,
    );
    true
}

// All whole packets of a delivery that was opened.
fn hear_all(bytes: &[u8], t: usize, memory: &mut Memory<'_>) -> Passed
    requires in_bounds { (4128 ≤ length bytes.now) × (t ≡ t_of bytes.now) × (t < 65536) }
    requires opened { Held (stretch_at bytes.now 0) memory.old }
    ensures value { result ≡ passed_of bytes.now }
    ensures heard { Held (stretch_of bytes.now) memory.new }
    ensures stays_lent { StaysLent memory.old memory.new }
{
    let n = packets::count(bytes.len(), t);
    let size = t + 4;
    let cut = (bytes.len() - 4128) % size != 0;
    let mut others: u64 = 0;
    for i in 0..n {
        let at = 4128 + i * size;
        let own = hear(&bytes[at..at + size], memory);
        others = packets::tally(others, own);
    }
    Passed { others, cut }
}

// The block, where it is solved.
fn leave(v: Verdict, r: Row, tables: &[u32], k: u32, t: u16, intermediates: &[u8], out: &mut [u8])
    requires { Rebuildable r tables.now k t intermediates.now out.old }
    ensures { Leaves tables.now r k t intermediates.now out.old out.new v }
{
    match v {
        Verdict::Solved => block::rebuild(r, tables, k, t, intermediates, out),
        Verdict::Contradiction | Verdict::Open(_) => {}
    }
}

// By the row, the tables, K and T that the state has.
fn restore(v: Verdict, state: &[u32], set: &[u8], out: &mut [u8])
    requires { Restorable state.now (length set.now) (length out.old) }
    ensures { Leaves (tables_in state.now) (row_in state.now) (k_in state.now) (t_in state.now)
        (take (l_in state.now * t_in state.now) set.now) out.old out.new v }
{
    let r = words::row_in(state);
    let k = state[9];
    let t = state[10] as u16;
    let l = r.l as usize * usize::from(t);
    leave(v, r, &state[13..1037], k, t, &set[..l], out);
}

// What comes of what was heard: f bytes of an object, where it is solved.
pub fn conclude(
    f: usize,
    passed: Passed,
    memory: &mut Memory<'_>,
    set: &mut [u8],
    out: &mut [u8],
) -> Result<Concluded, Stop>
    requires { (length memory.old.values.now ≤ length set.old) × (length set.old ≤ length out.old) × (f ≤ length out.old) }
    ensures concludes_held { ConcludesHeld memory.old f passed out.old out.new result }
    ensures in_room { InRoom (length out.new) result }
    ensures stays_lent { StaysLent memory.old memory.new }
{
    let verdict = question(memory.state, memory.pivots, memory.rows, memory.values, set)?;
    restore(verdict, memory.state, set, out);
    Ok(Concluded {
        verdict,
        size: f,
        passed,
    })
}

fn attempt(
    bytes: &[u8],
    memory: &mut Memory<'_>,
    set: &mut [u8],
    out: &mut [u8],
) -> Result<Concluded, Stop>
    requires roomy { RoomyMemory memory.old }
    requires values_in_bounds { (length memory.old.values.now ≤ length set.old) × (length set.old ≤ length out.old) }
    ensures comes { Comes bytes.now out.old out.new result }
    ensures in_room { InRoom (length out.new) result }
{
    // Before the state is lent: there is no rule yet for doing it in the call.
    let (pivots, rows, values) = (&mut *memory.pivots, &mut *memory.rows, &mut *memory.values);
    let ready = open(bytes, memory.state, pivots, rows, values)?;
    let passed = hear_all(bytes, ready.symbol_size, memory);
    conclude(ready.object_size, passed, memory, set, out)
}

// A delivery that is in memory as a whole.
pub fn receive(bytes: &[u8], out: &mut [u8]) -> Result<Concluded, Stop>
    requires { 307200 ≤ length out.old }
    ensures comes { Comes bytes.now out.old out.new result }
    ensures in_room { InRoom (length out.new) result }
{
    let mut state = [0u32; 1037];
    let mut pivots = [0u16; 300];
    let mut rows = [0u8; 90000];
    let mut values = [0u8; 307200];
    let mut set = [0u8; 307200];
    let mut memory = Memory {
        state: &mut state,
        pivots: &mut pivots,
        rows: &mut rows,
        values: &mut values,
    };
    attempt(bytes, &mut memory, &mut set, out)
}
