// Reads a delivery on standard input, packet by packet, and writes its object to standard output, or to the file OUT that its one argument names. Notes,
// and what it has to say instead, go to standard error (docs/DELIVERY.md).
#![tactic(auto)]

mod input;
mod listening;
mod output;

ghost use Rattle.std.specs.Prelude.{◌≤◌, length};
ghost use Rattle.delivery.specs.Hearing.{RoomyMemory};

use delivery::beneath::receiver;
use delivery::beneath::receiver::Memory;
use reply::beneath::arguments::Target;
use reply::beneath::rows::Typed;
use reply::beneath::words::Failure;
use reply::beneath::{arguments, replying, rows as row_words};
use std::env::FillError;
use std::io;
use std::rt::Env;

// Of a delivery that was opened, whose object has f bytes: to the end of the input, and then what comes of it.
fn follow(
    rt: &HostRuntime,
    f: usize,
    typed: Typed,
    packet: &mut [u8],
    memory: &mut Memory<'_>,
    set: &mut [u8],
    store: &mut [u8],
    out: &[u8],
) -> io::Result<()>
    requires in_bounds { (4 ≤ length packet.old) × (length out.now ≤ 4000) }
    requires values_in_bounds { (length memory.old.values.now ≤ length set.old) × (length set.old ≤ length store.old) × (f ≤ length store.old) × (200 ≤ length store.old) }
{
    let passed = listening::listen(rt, packet, memory, set)?;
    output::note(rt, passed);
    let what = receiver::conclude(f, passed, memory, set, store);
    let reply = replying::say(store, what, typed);
    output::write(rt, reply, store, out);
    Ok(())
}

// The head is read; the rest of the input is read only where it is taken.
fn take(
    rt: &HostRuntime,
    head: &[u8],
    packet: &mut [u8],
    memory: &mut Memory<'_>,
    set: &mut [u8],
    store: &mut [u8],
    out: &[u8],
) -> io::Result<()>
    requires roomy { RoomyMemory memory.old }
    requires in_bounds { (1028 ≤ length packet.old) × (length out.now ≤ 4000) }
    requires values_in_bounds { (length memory.old.values.now ≤ length set.old) × (length set.old ≤ length store.old) }
{
    let typed = row_words::typed_in(head);
    // Before the state is lent: there is no rule yet for doing it in the call.
    let (pivots, rows, values) = (&mut *memory.pivots, &mut *memory.rows, &mut *memory.values);
    match receiver::open(head, memory.state, pivots, rows, values) {
        Ok(ready) => {
            let packet = &mut packet[..ready.symbol_size + 4];
            follow(
                rt,
                ready.object_size,
                typed,
                packet,
                memory,
                set,
                store,
                out,
            )
        }
        Err(why) => {
            output::stopped(rt, why, typed);
            Ok(())
        }
    }
}

// `out` is the name of OUT, or empty for standard output.
fn run(rt: &HostRuntime, out: &[u8]) -> io::Result<()>
    requires { length out.now ≤ 4000 }
{
    let mut head = [0u8; 4128];
    let n = input::read_all(&mut rt.stdin(), &mut head)?;
    let mut packet = [0u8; 1028];
    let mut state = [0u32; 1037];
    let mut pivots = [0u16; 300];
    let mut rows = [0u8; 90000];
    let mut values = [0u8; 307200];
    let mut memory = Memory {
        state: &mut state,
        pivots: &mut pivots,
        rows: &mut rows,
        values: &mut values,
    };
    let mut set = [0u8; 307200];
    let mut store = [0u8; 307200];
    take(
        rt,
        &head[..n],
        &mut packet,
        &mut memory,
        &mut set,
        &mut store,
        out,
    )
}

// What came before a read that failed is not taken for a delivery.
fn receive(rt: &HostRuntime, out: &[u8])
    requires { length out.now ≤ 4000 }
{
    if let Err(why) = run(rt, out) {
        output::fail(rt, Failure::Reading, why);
    }
}

// How many arguments there are, the program's own name among them; of more than two it is enough that there are three.
fn count_arguments(rt: &HostRuntime) -> usize {
    let mut byte = [0u8; 1];
    for i in 0..3 {
        if let Err(FillError::NotPresent) = rt.arg(i, &mut byte) {
            return i;
        }
    }
    3
}

fn main(rt: HostRuntime) {
    let mut name = [0u8; 4000];
    let count = count_arguments(&rt);
    let length = rt.arg(1, &mut name).ok();
    match arguments::from_arguments(count, length) {
        Ok(Target::Output) => receive(&rt, b""),
        Ok(Target::File) => receive(&rt, &name[..length.unwrap_or(0)]),
        Err(why) => output::misused(&rt, why),
    }
}
