// One equation more, in stores for L rows and L symbols, whatever number came before it.
ghost use Rattle.std.specs.Prelude.{◌≡◌, ◌<◌, Some, get_or};
ghost use Rattle.field.specs.Runs.{zero_from};
ghost use Rattle.elimination.specs.Taking.{Wide};
ghost use Rattle.intake.specs.Taking.{Adds, Takable, single};

use elimination::beneath::solving::Progress;
use elimination::beneath::taking::Taken;
use elimination::beneath::{reducing, taking};

// With r rows held. When the last place is taken the rows become unit rows, once: a later equation then costs the sums of its walk.
fn take_held(
    rows: &mut [u8],
    values: &mut [u8],
    pivots: &mut [u16],
    l: usize,
    t: usize,
    r: usize,
    row: &mut [u8],
    symbol: &mut [u8],
    laid: bool,
) -> Progress
    requires takable { Takable l t pivots.old rows.old values.old (Some r) }
    requires wide { Wide l t row.old symbol.old × (laid ≡ zero_from symbol.old 0 t) }
    ensures { Adds l t (single (λ c. get_or row.old c 0) (λ b. get_or symbol.old b 0))
        pivots.old rows.old values.old pivots.new rows.new values.new (Some r) result }
{
    let more = r + 1;
    match taking::take(rows, values, pivots, l, t, r, row, symbol, laid) {
        Taken::Held => {
            if more == l {
                reducing::reduce(rows, values, pivots, l, t);
                return Some(l);
            }
            Some(more)
        }
        Taken::Dependent => Some(r),
        Taken::Clash => None,
    }
}

// Takes the equation that stands in the buffers, unless one before it was denied: then nothing is left to learn.
pub fn take_next(
    rows: &mut [u8],
    values: &mut [u8],
    pivots: &mut [u16],
    l: usize,
    t: usize,
    p: Progress,
    row: &mut [u8],
    symbol: &mut [u8],
    laid: bool,
) -> Progress
    requires takable { Takable l t pivots.old rows.old values.old p }
    requires wide { Wide l t row.old symbol.old × (laid ≡ zero_from symbol.old 0 t) }
    ensures { Adds l t (single (λ c. get_or row.old c 0) (λ b. get_or symbol.old b 0))
        pivots.old rows.old values.old pivots.new rows.new values.new p result }
{
    match p {
        Some(r) => take_held(rows, values, pivots, l, t, r, row, symbol, laid),
        None => None,
    }
}
