// Ported from symbol_slab.rs of raptorq 2.0.1 (Apache-2.0) and changed.
// Symbols in lent bytes. A logical symbol i is the T bytes from place p · T on, where p is what
// the order says of i, and i itself if the order is empty. Each call is given the slab's numbers, its bytes and its order; one that writes a symbol
// tells whether that is all 0 now.
ghost use Rattle.std.specs.Prelude.{◌≡◌, length};
ghost use Rattle.field.specs.Answer.{outcome};
ghost use Rattle.slabs.specs.Slab.{Reached, SymbolScaled, SymbolsAdded, SymbolsFused, Zeroed};
ghost use Rattle.slabs.specs.Slab.{addressable, addressable_pair, physical, range_of, range_outcome, strange};

use crate::beneath::symbols;
use field::beneath::runs;
use field::refusal::Refusal;

// How many symbols there are, and how many bytes each has.
#[derive(Clone, Copy, Debug, PartialEq, Eq)]
pub struct SymbolSlab {
    pub count: usize,
    pub size: u16,
}

// Where the bytes of a symbol begin and where they end. Unlike std's range it is Copy.
#[derive(Clone, Copy, Debug, PartialEq, Eq)]
pub struct Range {
    pub start: usize,
    pub end: usize,
}

// An order is as long as the count, or there is none.
fn strange_order(n: usize, count: usize) -> bool
    ensures { result ≡ strange n count }
{
    n != 0 && n != count
}

// The order's entry is looked up only where there is one.
fn physical_index(order: &[u32], i: usize) -> usize
    requires { Reached (length order.now) i }
    ensures { result ≡ physical order.now i }
{
    if order.is_empty() {
        return i;
    }
    order[i] as usize
}

// The refusals of a call on symbol i.
fn place(len: usize, count: usize, t: u16, order: &[u32], i: usize) -> Result<(), Refusal>
    ensures { outcome result ≡ addressable len count t order.now i }
{
    if count > 131070 {
        return Err(Refusal::OutOfRange);
    }
    if len < count * usize::from(t) {
        return Err(Refusal::WrongLength);
    }
    if strange_order(order.len(), count) {
        return Err(Refusal::WrongLength);
    }
    if i >= count {
        return Err(Refusal::Outside);
    }
    if physical_index(order, i) >= count {
        return Err(Refusal::Outside);
    }
    Ok(())
}

// The refusals of a call on two symbols.
fn pair(
    len: usize,
    count: usize,
    t: u16,
    order: &[u32],
    dest: usize,
    src: usize,
) -> Result<(), Refusal>
    ensures { outcome result ≡ addressable_pair len count t order.now dest src }
{
    place(len, count, t, order, dest)?;
    place(len, count, t, order, src)?;
    if physical_index(order, dest) == physical_index(order, src) {
        return Err(Refusal::SamePlace);
    }
    Ok(())
}

// A slab of `count` symbols, all zero.
pub fn with_zeros(store: &mut [u8], count: usize, size: u16) -> Result<SymbolSlab, Refusal>
    ensures { Zeroed store.old count size result store.new }
{
    if count > 131070 {
        return Err(Refusal::OutOfRange);
    }
    let n = count * usize::from(size);
    if store.len() < n {
        return Err(Refusal::WrongLength);
    }
    runs::clear(store, 0, n);
    Ok(SymbolSlab { count, size })
}

pub fn len(slab: SymbolSlab) -> usize
    ensures { result ≡ slab.count }
{
    slab.count
}

pub fn symbol_size(slab: SymbolSlab) -> u16
    ensures { result ≡ slab.size }
{
    slab.size
}

// Where symbol i lies among `len` bytes. The bytes themselves are the caller's to take from there: a part that is handed out has no number for a refusal.
pub fn get(len: usize, slab: SymbolSlab, order: &[u32], i: usize) -> Result<Range, Refusal>
    ensures { range_outcome result ≡ range_of len slab.count slab.size order.now i }
{
    place(len, slab.count, slab.size, order, i)?;
    let t = usize::from(slab.size);
    let start = physical_index(order, i) * t;
    Ok(Range {
        start,
        end: start + t,
    })
}

// The bytes of `src` are added to those of `dest`.
pub fn add_assign(
    store: &mut [u8],
    slab: SymbolSlab,
    order: &[u32],
    dest: usize,
    src: usize,
) -> Result<bool, Refusal>
    ensures { SymbolsAdded store.old slab order.now dest src result store.new }
{
    fma(store, slab, order, dest, src, 1)
}

// Each byte of `dest` is multiplied by `scalar`.
pub fn mulassign_scalar(
    store: &mut [u8],
    slab: SymbolSlab,
    order: &[u32],
    dest: usize,
    scalar: u8,
) -> Result<bool, Refusal>
    ensures { SymbolScaled store.old slab order.now dest scalar result store.new }
{
    place(store.len(), slab.count, slab.size, order, dest)?;
    let t = usize::from(slab.size);
    Ok(symbols::scale(store, t, physical_index(order, dest) * t, scalar))
}

// The bytes of `src`, multiplied by `scalar`, are added to those of `dest`.
pub fn fma(
    store: &mut [u8],
    slab: SymbolSlab,
    order: &[u32],
    dest: usize,
    src: usize,
    scalar: u8,
) -> Result<bool, Refusal>
    ensures { SymbolsFused store.old slab order.now dest src scalar result store.new }
{
    pair(store.len(), slab.count, slab.size, order, dest, src)?;
    let t = usize::from(slab.size);
    Ok(symbols::fma(
        store,
        t,
        physical_index(order, dest) * t,
        physical_index(order, src) * t,
        scalar,
    ))
}
