// Ported from base.rs of raptorq 2.0.1 (Apache-2.0) and changed.
// Deg[v] of RFC 6330 section 5.3.5.2, for w LT symbols.
ghost use Rattle.std.specs.Prelude.{◌≡◌};
ghost use Rattle.field.specs.Answer.{outcome};
ghost use Rattle.headers.specs.Degree.{deg_answer};

use crate::beneath;
use field::refusal::Refusal;

pub fn deg(v: u32, w: u32) -> Result<u32, Refusal>
    ensures { outcome result ≡ deg_answer v w }
{
    if v >= 1048576 {
        return Err(Refusal::OutOfRange);
    }
    if w < 2 {
        return Err(Refusal::OutOfRange);
    }
    Ok(beneath::deg::deg(v, w))
}
