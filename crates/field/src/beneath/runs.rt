// The octets' arithmetic on runs of bytes, place by place: the sums and products of symbols are made here, and `add`, `scale` and `fma` tell whether the
// places that they wrote are all 0 now. And the search for an octet that is not 0, in a row of coefficients.
// Products are by doubling, which compiles to vector code, as the gathering of what was written does, by `|` into one octet; a table would be built anew in
// the frame of each call.
ghost use Rattle.std.specs.Prelude.{◌≡◌, ◌+◌, ◌<◌, ◌≤◌, length};
ghost use Rattle.field.specs.Octet.{times};
ghost use Rattle.field.specs.Runs.{AtMost, Blank, FirstOther, Written, added, fused, scaled, zero_from};

use crate::doubling;

// 0 at n places, from place `at` of dst on
pub fn clear(dst: &mut [u8], at: usize, n: usize)
    requires { at + n ≤ length dst.old }
    ensures { Written (λ k. 0) dst.old dst.new at n }
{
    dst[at..at + n].fill(0);
}

// dst + src, from place `at` of dst on
pub fn add(dst: &mut [u8], at: usize, src: &[u8]) -> bool
    requires { at + length src.now ≤ length dst.old }
    ensures written { Written (added dst.old at src.now) dst.old dst.new at (length src.now) }
    ensures value { result ≡ zero_from dst.new at (length src.now) }
{
    let mut seen = 0u8;
    for i in 0..src.len() {
        let x = dst[at + i] ^ src[i];
        dst[at + i] = x;
        seen |= x;
    }
    seen == 0
}

// c · dst
pub fn scale(dst: &mut [u8], c: u8) -> bool
    ensures written { Written (scaled c dst.old) dst.old dst.new 0 (length dst.old) }
    ensures value { result ≡ zero_from dst.new 0 (length dst.old) }
{
    let mut seen = 0u8;
    for x in dst.iter_mut() {
        *x = doubling::mul(*x, c);
        seen |= *x;
    }
    seen == 0
}

// dst + c · src, from place `at` of dst on
pub fn fma(dst: &mut [u8], at: usize, src: &[u8], c: u8) -> bool
    requires { at + length src.now ≤ length dst.old }
    ensures written { Written (fused dst.old at c src.now) dst.old dst.new at (length src.now) }
    ensures value { result ≡ zero_from dst.new at (length src.now) }
{
    let mut seen = 0u8;
    for i in 0..src.len() {
        let x = dst[at + i] ^ doubling::mul(src[i], c);
        dst[at + i] = x;
        seen |= x;
    }
    seen == 0
}

// No octet of src is larger than the answer.
fn most(src: &[u8]) -> u8
    ensures { AtMost result src.now }
{
    let mut largest = 0u8;
    for x in src {
        largest = largest.max(*x);
    }
    largest
}

// A place from `from` on, at most `to`, before which all is 0: blocks are looked at whole, which is faster than octet by octet.
fn blank(src: &[u8], from: usize, to: usize) -> usize
    requires { (from ≤ to) × (to ≤ length src.now) }
    ensures { (from ≤ result) × (result ≤ to) × Blank src.now from result }
{
    let mut x = from;
    while 64 <= to - x {
        let end = x + 64;
        if most(&src[x..end]) > 0 {
            return x;
        }
        x = end;
    }
    x
}

// The first place from `from` on that is not 0, or `to`.
pub fn first_other(src: &[u8], from: usize, to: usize) -> usize
    requires { (from ≤ to) × (to ≤ length src.now) }
    ensures { FirstOther src.now from to result }
{
    (blank(src, from, to)..to)
        .find(|i| src[*i] != 0)
        .unwrap_or(to)
}

// c times 0 or 1
fn multiple(x: u8, c: u8) -> u8
    requires { x < 2 }
    ensures { result ≡ times c x }
{
    if x == 0 { 0 } else { c }
}

// dst + c · src, from place `at` of dst on, where src is of 0 and 1
fn fma_bits(dst: &mut [u8], at: usize, src: &[u8], c: u8)
    requires { (at + length src.now ≤ length dst.old) × AtMost 1 src.now }
    ensures { Written (fused dst.old at c src.now) dst.old dst.new at (length src.now) }
{
    for i in 0..src.len() {
        dst[at + i] ^= multiple(src[i], c);
    }
}

// The same as `fma`, where c is mostly 1: a sum is some ten times as fast as a sum with products.
pub fn fma_symbol(dst: &mut [u8], at: usize, src: &[u8], c: u8) -> bool
    requires { at + length src.now ≤ length dst.old }
    ensures written { Written (fused dst.old at c src.now) dst.old dst.new at (length src.now) }
    ensures value { result ≡ zero_from dst.new at (length src.now) }
{
    if c == 1 {
        return add(dst, at, src);
    }
    fma(dst, at, src, c)
}

// The same where nobody asks whether dst is 0 now: the gathering is one of some thirty vector operations in the loop of a product.
pub fn fuse(dst: &mut [u8], at: usize, src: &[u8], c: u8)
    requires { at + length src.now ≤ length dst.old }
    ensures { Written (fused dst.old at c src.now) dst.old dst.new at (length src.now) }
{
    if c == 1 {
        add(dst, at, src);
        return;
    }
    for i in 0..src.len() {
        dst[at + i] ^= doubling::mul(src[i], c);
    }
}

// The same for a row of coefficients, which is mostly of 0 and 1: a look at all of it takes less than the products.
pub fn fma_row(dst: &mut [u8], at: usize, src: &[u8], c: u8)
    requires { at + length src.now ≤ length dst.old }
    ensures { Written (fused dst.old at c src.now) dst.old dst.new at (length src.now) }
{
    if c != 1 {
        if most(src) < 2 {
            fma_bits(dst, at, src, c);
            return;
        }
    }
    fuse(dst, at, src, c);
}
