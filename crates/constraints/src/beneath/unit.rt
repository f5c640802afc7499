// The unit matrix, by octets and by rows.
ghost use Rattle.std.specs.Prelude.{◌≡◌, ◌+◌, ◌≤◌, length};
ghost use Rattle.field.specs.Runs.{Written};
ghost use Rattle.field.specs.Sum.{unit};

#[tactic(auto, unfolding(field::specs::Sum::unit))]
pub fn unit(i: usize, j: usize) -> u8
    ensures { result ≡ unit i j }
{
    u8::from(i == j)
}

// n octets, with a one at x.
pub fn one_of(out: &mut [u8], at: usize, n: usize, x: usize)
    requires { at + n ≤ length out.old }
    ensures { Written (λ k. unit k x) out.old out.new at n }
{
    for k in 0..n {
        out[at + k] = unit(k, x);
    }
}
