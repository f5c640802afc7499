// Rand, written from RFC 6330 section 5.3.5.1 and not from the crate. The tables are lent: V0, V1, V2, V3 in order.
ghost use Rattle.std.specs.Prelude.{◌≡◌};
ghost use Rattle.field.specs.Answer.{outcome};
ghost use Rattle.headers.specs.Rand.{rand_answer};

use crate::beneath;
use field::refusal::Refusal;

pub fn rand(tables: &[u32], y: u32, i: u8, m: u32) -> Result<u32, Refusal>
    ensures { outcome result ≡ rand_answer tables.now y i m }
{
    if tables.len() != 1024 {
        return Err(Refusal::BadTables);
    }
    if m == 0 {
        return Err(Refusal::OutOfRange);
    }
    Ok(beneath::rng::rand(tables, y, i, m))
}
