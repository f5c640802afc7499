// Ported from octet.rs of raptorq 2.0.1 (Apache-2.0) and changed.
// Products, quotients, powers and multiply-adds of single octets, through the tables. The contracts are those of `field::octet`, to the letter.
ghost use Rattle.std.specs.Prelude.{◌≡◌};
ghost use Rattle.field.specs.Octet.{plus, times};
ghost use Rattle.field.specs.Answer.{divided, outcome, raised};

use crate::beneath::tables;
use field::refusal::Refusal;

pub fn mul(a: u8, b: u8) -> u8
    ensures { result ≡ times a b }
{
    // OCT_LOG[0] is a placeholder: a factor of 0 never reaches the table.
    if a == 0 {
        return 0;
    }
    if b == 0 {
        return 0;
    }
    tables::oct_exp(usize::from(tables::oct_log(a)) + usize::from(tables::oct_log(b)))
}

pub fn div(a: u8, by: u8) -> Result<u8, Refusal>
    ensures { outcome result ≡ divided a by }
{
    if by == 0 {
        return Err(Refusal::DivisorZero);
    }
    if a == 0 {
        return Ok(0);
    }
    Ok(tables::oct_exp(255 + usize::from(tables::oct_log(a)) - usize::from(tables::oct_log(by))))
}

// alpha to the power i
pub fn alpha(i: usize) -> Result<u8, Refusal>
    ensures { outcome result ≡ raised i }
{
    if i < 256 {
        Ok(tables::oct_exp(i))
    } else {
        Err(Refusal::OutOfRange)
    }
}

// a + b · c
pub fn fma(a: u8, b: u8, c: u8) -> u8
    ensures { result ≡ plus a (times b c) }
{
    a ^ mul(b, c)
}
