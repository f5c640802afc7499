// A call that nothing refuses: the stores are filled with its system, and solved.
ghost use Rattle.std.specs.Prelude.{◌*◌, length};
ghost use Rattle.field.specs.Runs.{Written};
ghost use Rattle.headers.specs.Row.{l_of};
ghost use Rattle.elimination.specs.Verdict.{Means};
ghost use Rattle.solver.specs.System.{Admits, equations, system_of};

use crate::beneath::{filling, sizes};
use elimination::beneath::solving;
use elimination::verdict::Verdict;
use headers::row::Row;

pub fn run(
    r: Row,
    tables: &[u32],
    k: u32,
    t: u16,
    esis: &[u32],
    symbols: &[u8],
    rows: &mut [u8],
    values: &mut [u8],
    out: &mut [u8],
) -> Verdict
    requires { Admits r tables.now k t esis.now symbols.now rows.old values.old out.old }
    ensures means { Means (l_of r) t (system_of r tables.now k t esis.now symbols.now) out.old out.new result }
    ensures rows_cleared { Written (λ _. 0) rows.old rows.new 0 (equations r k (length esis.now) * l_of r) }
    ensures values_cleared { Written (λ _. 0) values.old values.new 0 (equations r k (length esis.now) * t) }
{
    let n = t as usize;
    let m = sizes::m(r, k, esis.len());
    let l = r.l as usize;
    filling::fill(rows, values, tables, esis, symbols, k, n, r);
    solving::solve_stored(rows, values, out, m, l, n)
}
