// Numbers of any width in bytes, high byte first, and runs of bytes, at a place of a lent slice.
ghost use Rattle.std.specs.Prelude.{◌≡◌, ◌+◌, ◌*◌, ◌^◌, ◌<◌, ◌≤◌, length};
ghost use Rattle.headers.specs.Bytes.{Laid, in_bytes, number};

// the number that the n bytes from `at` on make
pub fn get(bytes: &[u8], at: usize, n: usize) -> u64
    requires { (at + n ≤ length bytes.now) × (n ≤ 8) }
    ensures { (result ≡ number bytes.now at n) × (result < 2 ^ (8 * n)) }
{
    let mut word = [0u8; 8];
    copy(&mut word, 8 - n, &bytes[at..at + n]);
    u64::from_be_bytes(word)
}

// the n low bytes of x, from `at` on
pub fn put(store: &mut [u8], at: usize, n: usize, x: u64)
    requires { (at + n ≤ length store.old) × (n ≤ 8) }
    ensures { Laid (in_bytes n x) store.old store.new at }
{
    let word = x.to_be_bytes();
    copy(store, at, &word[8 - n..]);
}

pub fn copy(store: &mut [u8], at: usize, bytes: &[u8])
    requires { at + length bytes.now ≤ length store.old }
    ensures { Laid bytes.now store.old store.new at }
{
    // Byte by byte: `copy_from_slice` would be a call of libc's memmove.
    for i in 0..bytes.len() {
        store[at + i] = bytes[i];
    }
}
