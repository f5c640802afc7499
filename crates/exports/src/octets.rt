// Octets by value (RFC 6330, section 5.7.2).
ghost use Rattle.std.specs.Prelude.{[], ◌∷◌};
ghost use Rattle.field.specs.Octet.{plus, times};
ghost use Rattle.field.specs.Answer.{divided, given, raised};
ghost use Rattle.exports.specs.Call.{Called, listed, roomed, single, then_roomed};

use crate::values::{Numbers, hand, room, told};
use field::octet;

impl Numbers<1> for u8 {
    ghost numbers = { single };

    fn numbers(self) -> [u64; 1] {
        [u64::from(self)]
    }
}

#[unsafe(no_mangle)]
pub extern "C" fn spoonripple_octet_add(a: u8, b: u8, out: &mut [u64]) -> u32
    ensures { Called (roomed out.old 1 (given (plus a b ∷ []))) out.old out.new result }
{
    told(hand(Ok(octet::add(a, b)), out))
}

#[unsafe(no_mangle)]
pub extern "C" fn spoonripple_octet_sub(a: u8, b: u8, out: &mut [u64]) -> u32
    ensures { Called (roomed out.old 1 (given (plus a b ∷ []))) out.old out.new result }
{
    told(hand(Ok(octet::sub(a, b)), out))
}

#[unsafe(no_mangle)]
pub extern "C" fn spoonripple_octet_mul(a: u8, b: u8, out: &mut [u64]) -> u32
    ensures { Called (roomed out.old 1 (given (times a b ∷ []))) out.old out.new result }
{
    told(hand(Ok(octet::mul(a, b)), out))
}

// a + b · c
#[unsafe(no_mangle)]
pub extern "C" fn spoonripple_octet_fma(a: u8, b: u8, c: u8, out: &mut [u64]) -> u32
    ensures { Called (roomed out.old 1 (given (plus a (times b c) ∷ []))) out.old out.new result }
{
    told(hand(Ok(octet::fma(a, b, c)), out))
}

// A store without room (8) comes before a divisor of 0 (1).
#[unsafe(no_mangle)]
pub extern "C" fn spoonripple_octet_div(a: u8, by: u8, out: &mut [u64]) -> u32
    ensures { Called (roomed out.old 1 (listed single (divided a by))) out.old out.new result }
{
    if let Err(why) = room(out, 1) {
        return why.code();
    }
    told(hand(octet::div(a, by), out))
}

// alpha to the power i; an exponent out of range (2) comes before a store without room (8).
#[unsafe(no_mangle)]
pub extern "C" fn spoonripple_octet_alpha(i: usize, out: &mut [u64]) -> u32
    ensures { Called (then_roomed out.old (listed single (raised i))) out.old out.new result }
{
    told(hand(octet::alpha(i), out))
}
