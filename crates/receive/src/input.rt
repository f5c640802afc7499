// Reading to the end of the input.
ghost use Rattle.std.specs.Prelude.{IfOk};
ghost use Rattle.header_text.specs.Counts.{IsPrefixLen};

use std::io;
use std::io::Read;

// So many bytes, at the front of the store: the input ends there, or the store is full. A read that fails is told from the end of the input, also one that
// a signal broke off, which std's read_exact would try again.
pub fn read_all<R: Read>(from: &mut R, store: &mut [u8]) -> io::Result<usize>
    ensures { IfOk result (λ n. IsPrefixLen n store.new) }
{
    let mut n = 0;
    while n < store.len() {
        match from.read(&mut store[n..])? {
            0 => return Ok(n),
            more => n += more,
        }
    }
    Ok(n)
}
