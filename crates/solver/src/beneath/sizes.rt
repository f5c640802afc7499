// How many equations a call has.
ghost use Rattle.std.specs.Prelude.{◌≡◌, ◌≤◌};
ghost use Rattle.headers.specs.Row.{Obeys};
ghost use Rattle.solver.specs.System.{equations, fixed as System·fixed};

use headers::row::Row;

// Beside the arrivals: S + H + K' - K, which is L - K.
pub fn fixed(r: Row, k: u32) -> usize
    requires { Obeys r × (k ≤ r.kp) }
    ensures { result ≡ System·fixed r k }
{
    (r.l - k) as usize
}

// M, with n arrivals.
pub fn m(r: Row, k: u32, n: usize) -> usize
    requires { Obeys r × (k ≤ r.kp) × (n ≤ 65535) }
    ensures { result ≡ equations r k n }
{
    fixed(r, k) + n
}
