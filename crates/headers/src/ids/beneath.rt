// How an ISI is made: by the shift, or of a number that counts matrix rows already.
ghost use Rattle.std.specs.Prelude.{◌≡◌, ◌<◌, ◌≤◌};
ghost use Rattle.headers.specs.Shift.{shifted};

use crate::ids::{Esi, Isi};

// Below k the two agree; from k on the ISI is k' - k more.
pub fn isi_of(kp: u32, k: u32, e: Esi) -> Isi
    requires { (e.0 < 16777216) × (k ≤ kp) × (kp < 65536) }
    ensures { result.0 ≡ shifted e.0 k kp }
{
    if e.0 < k {
        Isi(e.0)
    } else {
        Isi(e.0 + (kp - k))
    }
}

// For a builder's own ids and for padding rows. An id that was sent is an ESI, and goes through `isi_of`.
pub fn row_number(x: u32) -> Isi
    ensures { result.0 ≡ x }
{
    Isi(x)
}
