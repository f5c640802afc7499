// Runs the octet examples of document 01, the refusals among them, and takes a digest of every product and every
// quotient. The digests in `stdout` are those of the published crate: differential/src/field.rs compares them.
#![tactic(auto)]

ghost use Rattle.std.specs.Prelude.{◌<◌};

use field::octet;
use field::refusal::Refusal;

// What cannot be written is left out.
fn told(rt: &impl Print, text: &str, answer: Result<u8, Refusal>) {
    let _ = match answer {
        Ok(x) => println!(rt; "{text} = {x}"),
        Err(why) => println!(rt; "{text}: refused {}", why.number()),
    };
}

// A digest with one number more.
fn folded(h: u64, x: u8) -> u64
    requires { h < 4294967291 }
    ensures { result < 4294967291 }
{
    (h * 257 + u64::from(x)) % 4294967291
}

// Of what f makes of all pairs of octets.
fn digest<F: Fn(u8, u8) -> u8>(f: F) -> u64
    requires { F.IsAlwaysCallable f }
{
    let mut h = 0;
    for a in 0..=255 {
        for b in 0..=255 {
            h = folded(h, f(a, b));
        }
    }
    h
}

fn main(rt: HostRuntime) {
    told(&rt, "128 * 2", Ok(octet::mul(128, 2)));
    told(&rt, "142 * 2", Ok(octet::mul(142, 2)));
    told(&rt, "3 * 7", Ok(octet::mul(3, 7)));
    told(&rt, "0 * 255", Ok(octet::mul(0, 255)));
    told(&rt, "9 / 7", octet::div(9, 7));
    told(&rt, "5 / 0", octet::div(5, 0));
    told(&rt, "0 / 0", octet::div(0, 0));
    told(&rt, "alpha ^ 0", octet::alpha(0));
    told(&rt, "alpha ^ 8", octet::alpha(8));
    told(&rt, "alpha ^ 255", octet::alpha(255));
    told(&rt, "alpha ^ 256", octet::alpha(256));
    told(&rt, "5 + 3", Ok(octet::add(5, 3)));
    told(&rt, "5 - 3", Ok(octet::sub(5, 3)));
    told(&rt, "1 + 128 * 2", Ok(octet::fma(1, 128, 2)));
    let products = digest(octet::mul);
    let _ = println!(rt; "all products: {products}");
    // There is no quotient by 0: the digest takes 0.
    let quotients = digest(|a, b| octet::div(a, b).unwrap_or(0));
    let _ = println!(rt; "all quotients: {quotients}");
}
