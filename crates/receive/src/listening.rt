// The packets, one after the other as they come, and how it stands at every hundredth.
ghost use Rattle.std.specs.Prelude.{◌≤◌, length};
ghost use Rattle.delivery.specs.Hearing.{StaysLent};

use crate::{input, output};
use delivery::beneath::packets::Passed;
use delivery::beneath::receiver::Memory;
use delivery::beneath::{packets, receiver};
use intake::intake::question;
use std::io;

// At every hundredth packet of the block.
fn tell(rt: &HostRuntime, own: bool, n: u64, memory: &mut Memory<'_>, set: &mut [u8])
    ensures { StaysLent memory.old memory.new }
{
    if !own || n % 100 != 0 {
        return;
    }
    // Nothing refuses a question of what was opened.
    if let Ok(v) = question(memory.state, memory.pivots, memory.rows, memory.values, set) {
        output::progress(rt, n, v);
    }
}

// To the end of the input: what was passed over, or why a read failed. Each packet is read into the store, which has its T + 4 bytes. No input has as many
// packets as the count goes to.
pub fn listen(
    rt: &HostRuntime,
    packet: &mut [u8],
    memory: &mut Memory<'_>,
    set: &mut [u8],
) -> io::Result<Passed>
    requires { 4 ≤ length packet.old }
    ensures { StaysLent memory.old memory.new }
{
    let mut others: u64 = 0;
    for count in 0..u64::MAX {
        let n = input::read_all(&mut rt.stdin(), packet)?;
        if n < packet.len() {
            return Ok(Passed { others, cut: n > 0 });
        }
        let own = receiver::hear(packet, memory);
        others = packets::tally(others, own);
        tell(rt, own, count + 1 - others, memory, set);
    }
    Ok(Passed { others, cut: false })
}
