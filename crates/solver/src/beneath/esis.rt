// The ids of the packets that arrived, as a test.
ghost use Rattle.std.specs.Prelude.{◌≡◌};
ghost use Rattle.solver.specs.Display.{any_large};

// Whether an id is too large to have been sent.
pub fn any_large(esis: &[u32]) -> bool
    ensures { result ≡ any_large esis.now }
{
    esis.iter().any(|&e| e >= 16777216)
}
