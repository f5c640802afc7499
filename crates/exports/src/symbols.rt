// Symbols in lent bytes (document 01, 'Matrices and slab'): `count` symbols of t bytes, an order of length 0 or the count.
ghost use Rattle.std.specs.Prelude.{◌≡◌, length, ltb};
ghost use Rattle.field.specs.Answer.{outcome, unless};
ghost use Rattle.slabs.specs.Slab.{SymbolScaled, SymbolsAdded, SymbolsFused, Zeroed, range_of};
ghost use Rattle.exports.specs.Call.{Called, Reports, and_room, listed, roomed};
ghost use Rattle.exports.specs.Numbers.{bounds, slab};
ghost use Rattle.exports.specs.Stores.{TellsZero, countable};

use crate::values::{Numbers, hand, room, told};
use field::refusal::Refusal;
use slabs::symbol_slab;
use slabs::symbol_slab::{Range, SymbolSlab};

// Where it begins and ends.
impl Numbers<2> for Range {
    ghost numbers = { λ r. bounds (r.start, r.end) };

    fn numbers(self) -> [u64; 2] {
        [self.start as u64, self.end as u64]
    }
}

#[unsafe(no_mangle)]
pub extern "C" fn spoonripple_slab_with_zeros(store: &mut [u8], count: usize, t: u16) -> u32
    ensures { Reports (Zeroed store.old count t) result store.new }
{
    told(symbol_slab::with_zeros(store, count, t))
}

// A count out of range (2) comes before an `out` without room for n values (8), and that before what lies outside (6).
fn fits(count: usize, out: &[u64], n: usize) -> Result<(), Refusal>
    ensures { outcome result ≡ and_room (countable count) (length out.now) n }
{
    if count > 131070 {
        return Err(Refusal::OutOfRange);
    }
    room(out, n)
}

// Values: where symbol i begins and ends among `len` bytes.
#[unsafe(no_mangle)]
pub extern "C" fn spoonripple_slab_locate(
    len: usize,
    count: usize,
    t: u16,
    order: &[u32],
    i: usize,
    out: &mut [u64],
) -> u32
    ensures { Called (unless (ltb 131070 count) 2 (roomed out.old 2 (listed bounds (range_of len count t order.now i))))
        out.old out.new result }
{
    if let Err(why) = fits(count, out, 2) {
        return why.code();
    }
    let slab = SymbolSlab { count, size: t };
    told(hand(symbol_slab::get(len, slab, order, i), out))
}

// The bytes of `src` are added to those of `dest`. Value of this and the next two: 1 where all of `dest` is 0 now, else 0 (document 02, E5).
#[unsafe(no_mangle)]
pub extern "C" fn spoonripple_slab_add_assign(
    store: &mut [u8],
    count: usize,
    t: u16,
    order: &[u32],
    dest: usize,
    src: usize,
    out: &mut [u64],
) -> u32
    ensures { TellsZero (countable count) (SymbolsAdded store.old (slab count t) order.now dest src)
        store.old store.new out.old out.new result }
{
    if let Err(why) = fits(count, out, 1) {
        return why.code();
    }
    let slab = SymbolSlab { count, size: t };
    told(hand(symbol_slab::add_assign(store, slab, order, dest, src), out))
}

// Each byte of `dest` is multiplied by `scalar`.
#[unsafe(no_mangle)]
pub extern "C" fn spoonripple_slab_mulassign_scalar(
    store: &mut [u8],
    count: usize,
    t: u16,
    order: &[u32],
    dest: usize,
    scalar: u8,
    out: &mut [u64],
) -> u32
    ensures { TellsZero (countable count) (SymbolScaled store.old (slab count t) order.now dest scalar)
        store.old store.new out.old out.new result }
{
    if let Err(why) = fits(count, out, 1) {
        return why.code();
    }
    let slab = SymbolSlab { count, size: t };
    told(hand(
        symbol_slab::mulassign_scalar(store, slab, order, dest, scalar),
        out,
    ))
}

// The bytes of `src`, multiplied by `scalar`, are added to those of `dest`.
#[unsafe(no_mangle)]
pub extern "C" fn spoonripple_slab_fma(
    store: &mut [u8],
    count: usize,
    t: u16,
    order: &[u32],
    dest: usize,
    src: usize,
    scalar: u8,
    out: &mut [u64],
) -> u32
    ensures { TellsZero (countable count) (SymbolsFused store.old (slab count t) order.now dest src scalar)
        store.old store.new out.old out.new result }
{
    if let Err(why) = fits(count, out, 1) {
        return why.code();
    }
    let slab = SymbolSlab { count, size: t };
    told(hand(symbol_slab::fma(store, slab, order, dest, src, scalar), out))
}
