// Runs of octets (RFC 6330, section 5.7.5). Value: 1 where all of dst is 0 now, else 0 (document 02, E5). Two runs that differ in length are refused (8).
ghost use Rattle.std.specs.Prelude.{◌≡◌};
ghost use Rattle.field.specs.Answer.{given, outcome};
ghost use Rattle.exports.specs.Stores.{RunAdded, RunFused, RunScaled, TellsZero, flag, same_length};

use crate::values::{Numbers, hand, room, told};
use field::beneath::runs;
use field::refusal::Refusal;

impl Numbers<1> for bool {
    ghost numbers = { flag };

    fn numbers(self) -> [u64; 1] {
        [u64::from(self)]
    }
}

fn alike(dst: &[u8], src: &[u8]) -> Result<(), Refusal>
    ensures { outcome result ≡ same_length dst.now src.now }
{
    if dst.len() != src.len() {
        return Err(Refusal::WrongLength);
    }
    Ok(())
}

fn add(dst: &mut [u8], src: &[u8]) -> Result<bool, Refusal>
    ensures { RunAdded dst.old src.now result dst.new }
{
    alike(dst, src)?;
    Ok(runs::add(dst, 0, src))
}

fn fma(dst: &mut [u8], src: &[u8], c: u8) -> Result<bool, Refusal>
    ensures { RunFused dst.old src.now c result dst.new }
{
    alike(dst, src)?;
    Ok(runs::fma(dst, 0, src, c))
}

// dst + src
#[unsafe(no_mangle)]
pub extern "C" fn spoonripple_run_add(dst: &mut [u8], src: &[u8], out: &mut [u64]) -> u32
    ensures { TellsZero (given tt) (RunAdded dst.old src.now)
        dst.old dst.new out.old out.new result }
{
    if let Err(why) = room(out, 1) {
        return why.code();
    }
    told(hand(add(dst, src), out))
}

// c · dst
#[unsafe(no_mangle)]
pub extern "C" fn spoonripple_run_scale(dst: &mut [u8], c: u8, out: &mut [u64]) -> u32
    ensures { TellsZero (given tt) (RunScaled dst.old c)
        dst.old dst.new out.old out.new result }
{
    if let Err(why) = room(out, 1) {
        return why.code();
    }
    told(hand(Ok(runs::scale(dst, c)), out))
}

// dst + c · src
#[unsafe(no_mangle)]
pub extern "C" fn spoonripple_run_fma(dst: &mut [u8], src: &[u8], c: u8, out: &mut [u64]) -> u32
    ensures { TellsZero (given tt) (RunFused dst.old src.now c)
        dst.old dst.new out.old out.new result }
{
    if let Err(why) = room(out, 1) {
        return why.code();
    }
    told(hand(fma(dst, src, c), out))
}
