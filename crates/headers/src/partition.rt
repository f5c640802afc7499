// Ported from base.rs of raptorq 2.0.1 (Apache-2.0) and changed.
// Partition[I, J] (RFC 6330, 4.4.1.2).
ghost use Rattle.std.specs.Prelude.{◌≡◌};
ghost use Rattle.headers.specs.Partition.{partition_outcome, partitioned};

use crate::beneath::util;
use field::refusal::Refusal;

// jl parts of il, and js of is
#[derive(Clone, Copy, Debug, PartialEq, Eq)]
pub struct Parts {
    pub il: u32,
    pub is: u32,
    pub jl: u32,
    pub js: u32,
}

// i into j parts: jl of il, and js of is
pub fn partition(i: u32, j: u32) -> Result<Parts, Refusal>
    ensures { partition_outcome result ≡ partitioned i j }
{
    if j == 0 {
        return Err(Refusal::OutOfRange);
    }
    let il = util::int_div_ceil(i as u64, j as u64) as u32;
    let is = i / j;
    let jl = i - is * j;
    let js = j - jl;
    Ok(Parts { il, is, jl, js })
}
