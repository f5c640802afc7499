// Ported from matrix.rs of raptorq 2.0.1 (Apache-2.0) and changed.
// The binary matrix over lent words: a row takes ceil(width / 64) of them, column c is bit c mod 64 of
// its word c / 64. Row operations work on whole words; `get`, the counts and the lists never read a bit past the width.
ghost use Rattle.std.specs.Prelude.{◌≡◌};
ghost use Rattle.field.specs.Answer.{outcome};
ghost use Rattle.stores.specs.Matrix.{Cleared, ColumnsListed, ColumnsSwapped, EntrySet, Resized, RowsAdded, RowsListed, RowsSwapped};
ghost use Rattle.stores.specs.Matrix.{got, limited, listable, ones_of, paired, ranged, shape, shrinkable, spanned, stored};

use crate::beneath::words::row_word_width;
use crate::beneath::{lists, words};
use field::refusal::Refusal;

// How many rows and columns there are.
#[derive(Clone, Copy, Debug, PartialEq, Eq)]
pub struct DenseBinaryMatrix {
    pub height: usize,
    pub width: usize,
}

// The refusals of a height and a width.
pub fn limits(height: usize, width: usize) -> Result<(), Refusal>
    ensures { outcome result ≡ limited height width }
{
    if height > 131070 {
        return Err(Refusal::OutOfRange);
    }
    if width > 65535 {
        return Err(Refusal::OutOfRange);
    }
    Ok(())
}

// The refusals of every call on a matrix in `len` words: its numbers, then its store.
fn store(len: usize, m: DenseBinaryMatrix) -> Result<(), Refusal>
    ensures { outcome result ≡ stored len m }
{
    limits(m.height, m.width)?;
    if len < m.height * row_word_width(m.width) {
        return Err(Refusal::WrongLength);
    }
    Ok(())
}

// The refusals of a call on place i of n and place j of k.
fn pair(
    len: usize,
    m: DenseBinaryMatrix,
    n: usize,
    i: usize,
    k: usize,
    j: usize,
) -> Result<(), Refusal>
    ensures { outcome result ≡ paired len m n i k j }
{
    store(len, m)?;
    if i >= n {
        return Err(Refusal::Outside);
    }
    if j >= k {
        return Err(Refusal::Outside);
    }
    Ok(())
}

// The refusals of a range of rows or columns.
fn range(n: usize, start: usize, end: usize) -> Result<(), Refusal>
    ensures { outcome result ≡ ranged n start end }
{
    if start > end {
        return Err(Refusal::Outside);
    }
    if end > n {
        return Err(Refusal::Outside);
    }
    Ok(())
}

// The refusals of a count in row i.
fn span(len: usize, m: DenseBinaryMatrix, i: usize, start: usize, end: usize) -> Result<(), Refusal>
    ensures { outcome result ≡ spanned len m i start end }
{
    store(len, m)?;
    if i >= m.height {
        return Err(Refusal::Outside);
    }
    range(m.width, start, end)
}

// The refusals of a list over the range from `start` to `end` of k, at place i of n.
fn list(
    len: usize,
    m: DenseBinaryMatrix,
    room: usize,
    n: usize,
    i: usize,
    k: usize,
    start: usize,
    end: usize,
) -> Result<(), Refusal>
    ensures { outcome result ≡ listable len m room n i k start end }
{
    store(len, m)?;
    if room < end.saturating_sub(start) {
        return Err(Refusal::WrongLength);
    }
    if i >= n {
        return Err(Refusal::Outside);
    }
    range(k, start, end)
}

// The refusals of a new shape.
fn shrink(len: usize, m: DenseBinaryMatrix, height: usize, width: usize) -> Result<(), Refusal>
    ensures { outcome result ≡ shrinkable len m (shape height width) }
{
    limits(height, width)?;
    store(len, m)?;
    if height > m.height {
        return Err(Refusal::Outside);
    }
    if width > m.width {
        return Err(Refusal::Outside);
    }
    Ok(())
}

// A matrix of zeros; the bits past the width are zeros too.
pub fn new(ws: &mut [u64], height: usize, width: usize) -> Result<DenseBinaryMatrix, Refusal>
    ensures { Cleared ws.old height width result ws.new }
{
    let m = DenseBinaryMatrix { height, width };
    store(ws.len(), m)?;
    words::clear(ws, height * row_word_width(width));
    Ok(m)
}

pub fn height(m: DenseBinaryMatrix) -> usize
    ensures { result ≡ m.height }
{
    m.height
}

pub fn width(m: DenseBinaryMatrix) -> usize
    ensures { result ≡ m.width }
{
    m.width
}

pub fn get(ws: &[u64], m: DenseBinaryMatrix, i: usize, j: usize) -> Result<u8, Refusal>
    ensures { outcome result ≡ got ws.now m i j }
{
    pair(ws.len(), m, m.height, i, m.width, j)?;
    Ok(words::get(ws, i * row_word_width(m.width), j) as u8)
}

// 0 clears the entry, any other octet sets it.
pub fn set(
    ws: &mut [u64],
    m: DenseBinaryMatrix,
    i: usize,
    j: usize,
    value: u8,
) -> Result<(), Refusal>
    ensures { EntrySet ws.old m i j value result ws.new }
{
    pair(ws.len(), m, m.height, i, m.width, j)?;
    words::put(ws, i * row_word_width(m.width), j, u64::from(value != 0));
    Ok(())
}

// How many of the columns from `start` to `end` of row i are ones.
pub fn count_ones(
    ws: &[u64],
    m: DenseBinaryMatrix,
    i: usize,
    start: usize,
    end: usize,
) -> Result<usize, Refusal>
    ensures { outcome result ≡ ones_of ws.now m i start end }
{
    span(ws.len(), m, i, start, end)?;
    Ok(words::count(ws, i * row_word_width(m.width), start, end - start))
}

// The rows from `start` to `end` that have a one in column j, at the front of `out`; answers how many.
pub fn get_ones_in_column(
    ws: &[u64],
    m: DenseBinaryMatrix,
    j: usize,
    start: usize,
    end: usize,
    out: &mut [u32],
) -> Result<usize, Refusal>
    ensures { RowsListed ws.now m j start end out.old result out.new }
{
    list(ws.len(), m, out.len(), m.width, j, m.height, start, end)?;
    Ok(lists::in_column(ws, row_word_width(m.width), j, start, end - start, out))
}

// The columns from `start` on that have a one in row i, at the front of `out`; answers how many.
pub fn query_non_zero_columns(
    ws: &[u64],
    m: DenseBinaryMatrix,
    i: usize,
    start: usize,
    out: &mut [u32],
) -> Result<usize, Refusal>
    ensures { ColumnsListed ws.now m i start out.old result out.new }
{
    list(ws.len(), m, out.len(), m.height, i, m.width, start, m.width)?;
    Ok(lists::in_row(ws, i * row_word_width(m.width), start, m.width - start, out))
}

// Rows i and j change places, whole words.
pub fn swap_rows(ws: &mut [u64], m: DenseBinaryMatrix, i: usize, j: usize) -> Result<(), Refusal>
    ensures { RowsSwapped ws.old m i j result ws.new }
{
    pair(ws.len(), m, m.height, i, m.height, j)?;
    if i == j {
        return Ok(());
    }
    let n = row_word_width(m.width);
    words::swap(ws, n, i * n, j * n);
    Ok(())
}

// Row `src` is added to row `dest`, whole words.
pub fn add_assign_rows(
    ws: &mut [u64],
    m: DenseBinaryMatrix,
    dest: usize,
    src: usize,
) -> Result<(), Refusal>
    ensures { RowsAdded ws.old m dest src result ws.new }
{
    pair(ws.len(), m, m.height, dest, m.height, src)?;
    if dest == src {
        return Err(Refusal::SamePlace);
    }
    let n = row_word_width(m.width);
    words::add(ws, n, dest * n, src * n);
    Ok(())
}

// Columns i and j change places in the rows from `start` on. The rows before stay: the crate's caller knows that the two agree there.
pub fn swap_columns(
    ws: &mut [u64],
    m: DenseBinaryMatrix,
    i: usize,
    j: usize,
    start: usize,
) -> Result<(), Refusal>
    ensures { ColumnsSwapped ws.old m i j start result ws.new }
{
    pair(ws.len(), m, m.width, i, m.width, j)?;
    words::cross_rows(ws, row_word_width(m.width), m.height, i, j, start);
    Ok(())
}

// The first rows and columns alone: the rows are packed to the front, and the words past the new end stay.
pub fn resize(
    ws: &mut [u64],
    m: DenseBinaryMatrix,
    height: usize,
    width: usize,
) -> Result<DenseBinaryMatrix, Refusal>
    ensures { Resized ws.old m height width result ws.new }
{
    shrink(ws.len(), m, height, width)?;
    words::pack(ws, height, row_word_width(width), row_word_width(m.width));
    Ok(DenseBinaryMatrix { height, width })
}
