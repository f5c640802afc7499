// Ported from constraint_matrix.rs of raptorq 2.0.1 (Apache-2.0) and changed.
// What a caller asks of the constraint rows.
ghost use Rattle.std.specs.Prelude.{◌<◌};
ghost use Rattle.headers.specs.Told.{Told};
ghost use Rattle.headers.specs.Tuples.{Bounds};
ghost use Rattle.constraints.specs.Answers.{HdpcRows, Walked};

use crate::beneath::{hdpc, walk};
use field::refusal::Refusal;
use headers::beneath::row;
use headers::row::Row;
use headers::tuple::Tuple;

// The bounds of a tuple, in document 01's order.
fn bounded(w: u32, p1: u32, t: Tuple) -> bool
    requires { w < 65536 }
    ensures { Told result (Bounds w p1 t) }
{
    1 <= t.d
        && t.d <= 30
        && t.d + 2 <= w
        && (1..w).contains(&t.a)
        && t.b < w
        && 2 <= t.d1
        && t.d1 <= 3
        && (1..p1).contains(&t.a1)
        && t.b1 < p1
}

// The places of a tuple of any origin, in walk order; the answer is how many were written.
pub fn enc_indices(r: Row, t: Tuple, list: &mut [u32]) -> Result<u32, Refusal>
    ensures { Walked r t list.old list.new result }
{
    row::verify(r)?;
    if !bounded(r.w, r.p1, t) {
        return Err(Refusal::OutOfRange);
    }
    let n = t.d + t.d1;
    if list.len() < n as usize {
        return Err(Refusal::WrongLength);
    }
    walk::enc_indices(t, r.w, r.p, r.p1, list);
    Ok(n)
}

// H rows of L octets, row after row.
pub fn generate_hdpc_rows(r: Row, tables: &[u32], out: &mut [u8]) -> Result<(), Refusal>
    ensures { HdpcRows tables.now r out.old out.new result }
{
    row::verify(r)?;
    if tables.len() != 1024 {
        return Err(Refusal::BadTables);
    }
    let h = r.h as usize;
    let l = r.l as usize;
    if out.len() < h * l {
        return Err(Refusal::WrongLength);
    }
    hdpc::generate_hdpc_rows(tables, out, 0, l, h);
    Ok(())
}
