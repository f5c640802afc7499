// The binary matrix in lent words (document 01, 'Matrices and slab'): `height` rows of ceil(width / 64) words.
ghost use Rattle.std.specs.Prelude.{◌≡◌, length};
ghost use Rattle.field.specs.Answer.{before, outcome};
ghost use Rattle.stores.specs.Matrix.{Cleared, ColumnsSwapped, EntrySet, Resized, RowsAdded, RowsSwapped};
ghost use Rattle.stores.specs.Matrix.{got, ones_of, shape};
ghost use Rattle.exports.specs.Call.{Called, Listing, Reports, listed, single};
ghost use Rattle.exports.specs.Stores.{ones_along, ones_down, sized};

use crate::values::{Numbers, hand, room, told};
use field::refusal::Refusal;
use stores::matrix;
use stores::matrix::DenseBinaryMatrix;

impl Numbers<1> for usize {
    ghost numbers = { single };

    fn numbers(self) -> [u64; 1] {
        [self as u64]
    }
}

// A height or width out of range (2) comes before a store without room for one value (8), and that before what lies outside (6).
fn fits(height: usize, width: usize, out: &[u64]) -> Result<(), Refusal>
    ensures { outcome result ≡ sized height width out.now }
{
    matrix::limits(height, width)?;
    room(out, 1)
}

#[unsafe(no_mangle)]
pub extern "C" fn spoonripple_matrix_new(words: &mut [u64], height: usize, width: usize) -> u32
    ensures { Reports (Cleared words.old height width) result words.new }
{
    told(matrix::new(words, height, width))
}

// 0 clears the entry, any other octet sets it.
#[unsafe(no_mangle)]
pub extern "C" fn spoonripple_matrix_set(
    words: &mut [u64],
    height: usize,
    width: usize,
    i: usize,
    j: usize,
    value: u8,
) -> u32
    ensures { Reports (EntrySet words.old (shape height width) i j value) result words.new }
{
    let m = DenseBinaryMatrix { height, width };
    told(matrix::set(words, m, i, j, value))
}

#[unsafe(no_mangle)]
pub extern "C" fn spoonripple_matrix_get(
    words: &[u64],
    height: usize,
    width: usize,
    i: usize,
    j: usize,
    out: &mut [u64],
) -> u32
    ensures { Called (before (sized height width out.old) (listed single (got words.now (shape height width) i j)))
        out.old out.new result }
{
    if let Err(why) = fits(height, width, out) {
        return why.code();
    }
    let m = DenseBinaryMatrix { height, width };
    told(hand(matrix::get(words, m, i, j), out))
}

// Value: how many of the columns from `start` to `end` of row i are ones.
#[unsafe(no_mangle)]
pub extern "C" fn spoonripple_matrix_count_ones(
    words: &[u64],
    height: usize,
    width: usize,
    i: usize,
    start: usize,
    end: usize,
    out: &mut [u64],
) -> u32
    ensures { Called (before (sized height width out.old) (listed single (ones_of words.now (shape height width) i start end)))
        out.old out.new result }
{
    if let Err(why) = fits(height, width, out) {
        return why.code();
    }
    let m = DenseBinaryMatrix { height, width };
    told(hand(matrix::count_ones(words, m, i, start, end), out))
}

// The rows from `start` to `end` with a one in column j, at the front of `list`. Value: how many.
#[unsafe(no_mangle)]
pub extern "C" fn spoonripple_matrix_get_ones_in_column(
    words: &[u64],
    height: usize,
    width: usize,
    j: usize,
    start: usize,
    end: usize,
    list: &mut [u32],
    out: &mut [u64],
) -> u32
    ensures { Listing (before (sized height width out.old)
        (ones_down words.now (shape height width) j start end (length list.old)))
        list.old list.new out.old out.new result }
{
    if let Err(why) = fits(height, width, out) {
        return why.code();
    }
    let m = DenseBinaryMatrix { height, width };
    let rows = matrix::get_ones_in_column(words, m, j, start, end, list);
    told(hand(rows, out))
}

// The columns from `start` on with a one in row i, at the front of `list`. Value: how many.
#[unsafe(no_mangle)]
pub extern "C" fn spoonripple_matrix_query_non_zero_columns(
    words: &[u64],
    height: usize,
    width: usize,
    i: usize,
    start: usize,
    list: &mut [u32],
    out: &mut [u64],
) -> u32
    ensures { Listing (before (sized height width out.old)
        (ones_along words.now (shape height width) i start (length list.old)))
        list.old list.new out.old out.new result }
{
    if let Err(why) = fits(height, width, out) {
        return why.code();
    }
    let m = DenseBinaryMatrix { height, width };
    let columns = matrix::query_non_zero_columns(words, m, i, start, list);
    told(hand(columns, out))
}

#[unsafe(no_mangle)]
pub extern "C" fn spoonripple_matrix_swap_rows(
    words: &mut [u64],
    height: usize,
    width: usize,
    i: usize,
    j: usize,
) -> u32
    ensures { Reports (RowsSwapped words.old (shape height width) i j) result words.new }
{
    let m = DenseBinaryMatrix { height, width };
    told(matrix::swap_rows(words, m, i, j))
}

// In the rows from `start` on.
#[unsafe(no_mangle)]
pub extern "C" fn spoonripple_matrix_swap_columns(
    words: &mut [u64],
    height: usize,
    width: usize,
    i: usize,
    j: usize,
    start: usize,
) -> u32
    ensures { Reports (ColumnsSwapped words.old (shape height width) i j start) result words.new }
{
    let m = DenseBinaryMatrix { height, width };
    told(matrix::swap_columns(words, m, i, j, start))
}

// Row `src` is added to row `dest`, whole words.
#[unsafe(no_mangle)]
pub extern "C" fn spoonripple_matrix_add_assign_rows(
    words: &mut [u64],
    height: usize,
    width: usize,
    dest: usize,
    src: usize,
) -> u32
    ensures { Reports (RowsAdded words.old (shape height width) dest src) result words.new }
{
    let m = DenseBinaryMatrix { height, width };
    told(matrix::add_assign_rows(words, m, dest, src))
}

// The rows are packed to the front; the words past the new end stay.
#[unsafe(no_mangle)]
pub extern "C" fn spoonripple_matrix_resize(
    words: &mut [u64],
    height: usize,
    width: usize,
    new_height: usize,
    new_width: usize,
) -> u32
    ensures { Reports (Resized words.old (shape height width) new_height new_width) result words.new }
{
    let m = DenseBinaryMatrix { height, width };
    told(matrix::resize(words, m, new_height, new_width))
}
