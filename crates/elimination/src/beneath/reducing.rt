// As many held rows as there are columns, made unit rows in place: from the last one back, each goes off the rows before it. An equation that comes
// later meets unit rows, and costs the sums of its walk.
ghost use Rattle.std.specs.Prelude.{◌+◌, ◌*◌, ◌<◌};
ghost use Rattle.field.specs.Runs.{Written};
ghost use Rattle.linear.specs.Bytes.{cell};
ghost use Rattle.linear.specs.Rows.{RowAdded};
ghost use Rattle.elimination.specs.Reducing.{ColumnCleared, Reduces};
ghost use Rattle.elimination.specs.Steps.{StoresRoom};
ghost use Rattle.elimination.specs.Taking.{Lent};

use crate::beneath::within;

// Row q, a unit row by now, goes off row j: of its row the one octet in column c.
fn clear_entry(rows: &mut [u8], values: &mut [u8], l: usize, t: usize, q: usize, c: usize, j: usize)
    requires { StoresRoom (q + 1) l t rows.old values.old × (c < l) × (j < q) }
    ensures written { Written (λ _. 0) rows.old rows.new (j * l + c) 1 }
    ensures row_added { RowAdded t j q (cell l rows.old j c) values.old values.new }
{
    let x = j * l + c;
    let f = rows[x];
    if f == 0 {
        return;
    }
    within::add(values, t, j, q, f);
    rows[x] = 0;
}

// And off all rows before it.
fn clear_column(rows: &mut [u8], values: &mut [u8], l: usize, t: usize, q: usize, c: usize)
    requires { StoresRoom (q + 1) l t rows.old values.old × (c < l) }
    ensures { ColumnCleared l t q q c rows.old values.old rows.new values.new }
{
    for j in 0..q {
        clear_entry(rows, values, l, t, q, c, j);
    }
}

// Once l rows are held. When its turn comes a row is a unit row: it is 0 at the pivots before its own, the later ones are off it, and the l pivots
// are all columns.
pub fn reduce(rows: &mut [u8], values: &mut [u8], pivots: &[u16], l: usize, t: usize)
    requires { Lent l t l pivots.now rows.old values.old }
    ensures { Reduces l t pivots.now rows.old values.old rows.new values.new }
{
    for q in (0..l).rev() {
        clear_column(rows, values, l, t, q, usize::from(pivots[q]));
    }
}
