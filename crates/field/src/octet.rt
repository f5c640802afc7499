// Ported from octet.rs of raptorq 2.0.1 (Apache-2.0) and changed.
// Arithmetic of single octets, by value and with no table: products and powers by doubling and exclusive or, quotients from products (document 02, E10).
// Through the crate's tables, under the same contracts: crates/octet_tables, outside what a reader loads.
ghost use Rattle.std.specs.Prelude.{◌≡◌, ◌%◌, eqb};
ghost use Rattle.field.specs.Choice.{pick};
ghost use Rattle.field.specs.Octet.{over, plus, times};
ghost use Rattle.field.specs.Answer.{divided, outcome, raised};

use crate::doubling;
use crate::refusal::Refusal;

pub fn add(a: u8, b: u8) -> u8
    ensures { result ≡ plus a b }
{
    a ^ b
}

// the same as the sum
pub fn sub(a: u8, b: u8) -> u8
    ensures { result ≡ plus a b }
{
    add(a, b)
}

pub fn mul(a: u8, b: u8) -> u8
    ensures { result ≡ times a b }
{
    doubling::mul(a, b)
}

// a, and times b if n is odd
fn mul_if_odd(n: u8, a: u8, b: u8) -> u8
    ensures { result ≡ pick (eqb (n % 2) 1) (times a b) a }
{
    if n % 2 == 1 {
        return mul(a, b);
    }
    a
}

// a times `by` to the power 254. That is the inverse of `by`, since each octet but 0 has 1 as its power 255. By the bits of 254, in a loop: the
// shortest chain, twelve products written out, takes over four times the room (DECISIONS 145).
fn quotient(a: u8, by: u8) -> u8
    ensures { result ≡ over a by }
{
    let mut product = a;
    let mut square = by;
    let mut exponent: u8 = 254;
    while exponent > 0 {
        product = mul_if_odd(exponent, product, square);
        square = mul(square, square);
        exponent = exponent / 2;
    }
    product
}

pub fn div(a: u8, by: u8) -> Result<u8, Refusal>
    ensures { outcome result ≡ divided a by }
{
    if by == 0 {
        return Err(Refusal::DivisorZero);
    }
    Ok(quotient(a, by))
}

// alpha to the power i
pub fn alpha(i: usize) -> Result<u8, Refusal>
    ensures { outcome result ≡ raised i }
{
    if i < 256 {
        Ok(doubling::power(i))
    } else {
        Err(Refusal::OutOfRange)
    }
}

// a + b · c
pub fn fma(a: u8, b: u8, c: u8) -> u8
    ensures { result ≡ plus a (times b c) }
{
    a ^ mul(b, c)
}
