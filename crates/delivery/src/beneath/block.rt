// The source symbols of a block from its intermediate symbols.
ghost use Rattle.std.specs.Prelude.{◌*◌};
ghost use Rattle.field.specs.Runs.{Written};
ghost use Rattle.delivery.specs.Received.{Rebuildable, source_octet};

use encoding::encoder;
use headers::row::Row;

// Symbol i at i * T.
pub fn rebuild(r: Row, tables: &[u32], k: u32, t: u16, intermediates: &[u8], out: &mut [u8])
    requires { Rebuildable r tables.now k t intermediates.now out.old }
    ensures { Written (source_octet tables.now r t intermediates.now) out.old out.new 0 (k * t) }
{
    let n = t as usize;
    for i in 0..k {
        let from = i as usize * n;
        let end = from + n;
        // Nothing is refused: what `Rebuildable` asks is what an encoding asks.
        let _ = encoder::encode(r, tables, k, t, i, intermediates, &mut out[from..end]);
    }
}
