// Bytes of a reader in a lent store.
ghost use Rattle.std.specs.Prelude.{take};
ghost use Rattle.std.specs.Io.KnownBytes.{Consumes};
ghost use Rattle.header_text.specs.Counts.{IsPrefixLen};

use std::io::Read;

// Until the store is full, the input ends or a read fails: so many bytes, at the front of the store. std's read_exact does not tell how many.
pub fn read_full<R: Read>(from: &mut R, store: &mut [u8]) -> usize
    ensures prefix_len { IsPrefixLen result store.new }
    ensures read { Consumes (R.remaining from.old) (R.remaining from.new) (take result store.new) }
{
    let mut n = 0;
    while n < store.len() {
        match from.read(&mut store[n..]) {
            Ok(0) | Err(_) => break,
            Ok(more) => n += more,
        }
    }
    n
}
