// Ported from util.rs of raptorq 2.0.1 (Apache-2.0) and changed.
// Exact quotients: the crate cuts them to 32 bits.
ghost use Rattle.std.specs.Prelude.{◌≡◌, ◌<◌};
ghost use Rattle.headers.specs.Quotient.{ceil};

pub fn int_div_ceil(num: u64, denom: u64) -> u64
    requires { 0 < denom }
    ensures { result ≡ ceil num denom }
{
    num.div_ceil(denom)
}
