// Ported from base.rs of raptorq 2.0.1 (Apache-2.0) and changed.
// The degree of a number that is known to lie below the last threshold.
ghost use Rattle.std.specs.Prelude.{◌≡◌, ◌<◌, ◌≤◌};
ghost use Rattle.headers.specs.Degree.{degree};

const F: [u32; 31] = [
    0, 5243, 529531, 704294, 791675, 844104, 879057, 904023, 922747, 937311, 948962, 958494,
    966438, 973160, 978921, 983914, 988283, 992138, 995565, 998631, 1001391, 1003887, 1006157,
    1008229, 1010129, 1011876, 1013490, 1014983, 1016370, 1017662, 1048576,
];

pub fn deg(v: u32, w: u32) -> u32
    requires { (v < 1048576) × (2 ≤ w) }
    ensures { result ≡ degree v w }
{
    let d = F.iter().position(|f| v < *f).unwrap_or(F.len()) as u32;
    d.min(w - 2)
}
