// A question that nothing refuses.
ghost use Rattle.std.specs.Prelude.{◌≡◌, ◌*◌, ◌≤◌, length};
ghost use Rattle.linear.specs.Rows.{OnlyBelow};
ghost use Rattle.elimination.specs.Steps.{StoresRoom};
ghost use Rattle.intake.specs.Night.{AnswersHeld, Within};
ghost use Rattle.intake.specs.State.{Begun, l_in, t_in};

use crate::beneath::{fixing, words};
use elimination::beneath::{settling, solving};
use elimination::verdict::Verdict;

// The verdict comes from the rows that are held now: nothing of an earlier question is kept.
pub fn answer(
    state: &mut [u32],
    pivots: &mut [u16],
    rows: &mut [u8],
    values: &mut [u8],
    out: &mut [u8],
) -> Verdict
    requires begun { Begun state.old pivots.old × (l_in state.old * t_in state.old ≤ length out.old) }
    requires stores_room { StoresRoom (l_in state.old) (l_in state.old) (t_in state.old) rows.old values.old }
    ensures within { Within state.old pivots.old rows.old values.old
        state.new pivots.new rows.new values.new }
    ensures only_below { OnlyBelow (l_in state.old * t_in state.old) out.old out.new }
    ensures answers_held { AnswersHeld state.old pivots.old rows.old values.old out.old
        state.new pivots.new rows.new values.new out.new result }
{
    let l = words::l_in(state);
    let t = words::t_in(state);
    let Some(r) = fixing::complete(state, pivots, rows, values) else {
        return Verdict::Contradiction;
    };
    settling::settle(rows, values, pivots, l, t, r, out);
    solving::counted(l, r)
}
