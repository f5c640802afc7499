// Primes of sixteen bits, by trial division.
ghost use Rattle.std.specs.Prelude.{◌≡◌, ◌<◌, ◌≤◌};
ghost use Rattle.headers.specs.Told.{Told};
ghost use Rattle.headers.specs.Prime.{Prime, first_prime};

// The smallest prime not below p. The search ends because 65,537 is prime.
pub fn first_prime(p: u32) -> u32
    requires { (2 ≤ p) × (p < 65536) }
    ensures { result ≡ first_prime p }
{
    let mut n = p;
    let p1 = 'search: loop {
        let mut d: u32 = 2;
        'divisors: loop {
            if n < d * d {
                break 'search n;
            }
            if n % d == 0 {
                break 'divisors;
            }
            d += 1 + d % 2; // 2, 3, 5, 7, ..: an even number divides only what 2 divides
        }
        n += 1;
    };
    p1
}

pub fn is_prime(n: u32) -> bool
    requires { n < 65536 }
    ensures { Told result (Prime n) }
{
    if n < 2 {
        return false;
    }
    first_prime(n) == n
}
