// Ported from symbol_slab.rs of raptorq 2.0.1 (Apache-2.0) and changed.
// Symbols of t bytes at given places of one lent slab. Each call tells whether the whole symbol at `to` is 0 now.
ghost use Rattle.std.specs.Prelude.{◌≡◌, ◌+◌, ◌≤◌, length};
ghost use Rattle.field.specs.Runs.{Apart, Written, fused, part, scaled, zero_from};

use field::beneath::runs;

// The symbol at `to` becomes c times itself.
pub fn scale(slab: &mut [u8], t: usize, to: usize, c: u8) -> bool
    requires { to + t ≤ length slab.old }
    ensures written { Written (scaled c (part slab.old to t)) slab.old slab.new to t }
    ensures value { result ≡ zero_from slab.new to t }
{
    runs::scale(&mut slab[to..to + t], c)
}

// The one symbol's part, and no more, becomes its sum with c times the other's.
fn fuse(part: &mut [u8], other: &[u8], c: u8) -> bool
    requires { length part.old ≡ length other.now }
    ensures written { Written (fused part.old 0 c other.now) part.old part.new 0 (length other.now) }
    ensures value { result ≡ zero_from part.new 0 (length other.now) }
{
    runs::fma_symbol(part, 0, other, c)
}

// The symbol at `to` becomes its sum with c times the symbol at `from`. The slab is split at the later of the two, so that the one symbol's part is lent on
// for writing and the other's for reading.
pub fn fma(slab: &mut [u8], t: usize, to: usize, from: usize, c: u8) -> bool
    requires { Apart (length slab.old) t to from }
    ensures written { Written (fused slab.old to c (part slab.old from t)) slab.old slab.new to t }
    ensures value { result ≡ zero_from slab.new to t }
{
    if to < from {
        let (low, high) = slab.split_at_mut(from);
        fuse(&mut low[to..to + t], &high[..t], c)
    } else {
        let (low, high) = slab.split_at_mut(to);
        fuse(&mut high[..t], &low[from..from + t], c)
    }
}
