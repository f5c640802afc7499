// Whether a state is one that an accepted begin, and what followed, can have left: the one look that makes every later step safe.
ghost use Rattle.std.specs.Prelude.{◌≡◌, ℕ, ◌≤◌, ◌<◌, length};
ghost use Rattle.headers.specs.Told.{Told};
ghost use Rattle.elimination.specs.Steps.{column};
ghost use Rattle.intake.specs.State.{Begun, Counts};
ghost use Rattle.intake.specs.Taking.{Placed};

use crate::beneath::words;
use elimination::beneath::solving::Progress;
use headers::beneath::row;

// The numbers beside the row.
fn counts(kp: u32, k: u32, t: usize, mark: u32) -> bool
    ensures { Told result (Counts kp k t mark) }
{
    1 <= k && k <= kp && 1 <= t && t <= 65535 && 1 <= mark && mark <= 3
}

// The r held rows are no more than there are columns, and each has a column for its pivot.
fn held(pivots: &[u16], l: usize, r: usize) -> bool
    requires { l ≤ length pivots.now }
    ensures { Told result ((r ≤ l) × ((k : ℕ) → k < r → column pivots.now k < l)) }
{
    r <= l && pivots[..r].iter().all(|&c| usize::from(c) < l)
}

fn placed(pivots: &[u16], l: usize, p: Progress) -> bool
    requires { l ≤ length pivots.now }
    ensures { Told result (Placed l pivots.now p) }
{
    match p {
        Some(r) => held(pivots, l, r),
        None => true,
    }
}

pub fn begun(state: &[u32], pivots: &[u16]) -> bool
    ensures { Told result (Begun state.now pivots.now) }
{
    if state.len() < words::SIZE {
        return false;
    }
    let r = words::row_in(state);
    let Ok(()) = row::verify(r) else {
        return false;
    };
    let l = r.l as usize;
    l <= pivots.len()
        && counts(
            r.kp,
            words::k_in(state),
            words::t_in(state),
            words::mark_in(state),
        )
        && placed(pivots, l, words::progress_in(state))
}
