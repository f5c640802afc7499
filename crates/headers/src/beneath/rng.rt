// Rand over tables that are known to be 1,024 numbers long.
ghost use Rattle.std.specs.Prelude.{◌≡◌, ◌<◌, length};
ghost use Rattle.headers.specs.Rand.{entry_of, random};

// Each table index is a one-byte sum that wraps at 256.
fn entry(tables: &[u32], part: usize, byte: u8, i: u8) -> u32
    requires { (length tables.now ≡ 1024) × (part < 4) }
    ensures { result ≡ entry_of tables.now part byte i }
{
    tables[part * 256 + usize::from(byte.wrapping_add(i))]
}

pub fn rand(tables: &[u32], y: u32, i: u8, m: u32) -> u32
    requires { (length tables.now ≡ 1024) × (0 < m) }
    ensures { (result ≡ random tables.now y i m) × (result < m) }
{
    let [b0, b1, b2, b3] = y.to_le_bytes();
    let low = entry(tables, 0, b0, i) ^ entry(tables, 1, b1, i);
    (low ^ entry(tables, 2, b2, i) ^ entry(tables, 3, b3, i)) % m
}
