// Ported from constraint_matrix.rs of raptorq 2.0.1 (Apache-2.0) and changed.
// The two builders. The ids are ISIs of any 32 bits. The HDPC rows, which logically replace the
// rows S to S + H, come by a call of their own.
ghost use Rattle.std.specs.Prelude.{◌≡◌, ◌+◌, ◌≤◌, length};
ghost use Rattle.headers.specs.Row.{Obeys};
ghost use Rattle.builders.specs.Adding.{Lies};
ghost use Rattle.builders.specs.Built.{Builds, Built, shaped};

use crate::beneath::adding;
use field::refusal::Refusal;
use headers::beneath::row;
use headers::row::Row;
use stores::beneath::words;
use stores::beneath::words::row_word_width;
use stores::matrix::DenseBinaryMatrix;

fn fill(r: Row, tables: &[u32], isis: &[u32], ws: &mut [u64], zeros: u32)
    requires { Obeys r × (length tables.now ≡ 1024) × (zeros ≤ r.h) × (length isis.now ≤ 65535) × Lies (shaped r zeros (length isis.now)) ws.old }
    ensures { Built tables.now isis.now r zeros ws.old ws.new }
{
    let s = r.s as usize;
    let from = s + zeros as usize;
    let height = from + isis.len();
    let width = r.l as usize;
    let m = DenseBinaryMatrix { height, width };
    words::clear(ws, height * row_word_width(width));
    adding::ldpc_rows(ws, m, s, r.w as usize, r.b as usize, r.p as usize);
    adding::enc_rows(ws, m, from, tables, isis, r.j, r.w, r.p, r.p1);
}

// With `zeros` rows of 0 after the LDPC rows, of at least `least` ids.
fn build(
    r: Row,
    tables: &[u32],
    isis: &[u32],
    ws: &mut [u64],
    zeros: u32,
    least: u32,
) -> Result<DenseBinaryMatrix, Refusal>
    requires { Obeys r × (zeros ≤ r.h) }
    ensures { Builds tables.now isis.now r zeros least ws.old ws.new result }
{
    if tables.len() != 1024 {
        return Err(Refusal::BadTables);
    }
    let count = isis.len();
    if count < least as usize {
        return Err(Refusal::BadCount);
    }
    if count > 65535 {
        return Err(Refusal::BadCount);
    }
    let height = (r.s + zeros) as usize + count;
    let width = r.l as usize;
    if ws.len() < height * row_word_width(width) {
        return Err(Refusal::WrongLength);
    }
    fill(r, tables, isis, ws, zeros);
    Ok(DenseBinaryMatrix { height, width })
}

pub fn generate_constraint_matrix(
    r: Row,
    tables: &[u32],
    isis: &[u32],
    ws: &mut [u64],
) -> Result<DenseBinaryMatrix, Refusal>
    ensures { Builds tables.now isis.now r r.h r.kp ws.old ws.new result }
{
    row::verify(r)?;
    build(r, tables, isis, ws, r.h, r.kp)
}

// Without HDPC rows more ids are asked.
pub fn generate_constraint_matrix_no_hdpc(
    r: Row,
    tables: &[u32],
    isis: &[u32],
    ws: &mut [u64],
) -> Result<DenseBinaryMatrix, Refusal>
    ensures { Builds tables.now isis.now r 0 (r.kp + r.h) ws.old ws.new result }
{
    row::verify(r)?;
    build(r, tables, isis, ws, 0, r.kp + r.h)
}
