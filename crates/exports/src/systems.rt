// The rows of the linear system (RFC 6330, sections 5.3.3.3 and 5.3.5.3). A row of parameters is its record: K', J, S, H, W, L, P, B, P1.
ghost use Rattle.std.specs.Prelude.{◌+◌};
ghost use Rattle.constraints.specs.Answers.{HdpcRows, Walked};
ghost use Rattle.builders.specs.Built.{Builds};
ghost use Rattle.exports.specs.Call.{Reports};
ghost use Rattle.exports.specs.Numbers.{row, tuple};

use crate::values::{handed_row, told};
use builders::constraint_matrix;
use constraints::constraint_matrix as rows;
use headers::tuple::Tuple;

// The d + d1 places of a tuple's walk, in walk order, at the front of `list`.
#[unsafe(no_mangle)]
pub extern "C" fn spoonripple_enc_indices(
    k: u32,
    j: u32,
    s: u32,
    h: u32,
    w: u32,
    l: u32,
    p: u32,
    b: u32,
    p1: u32,
    d: u32,
    a: u32,
    tuple_b: u32,
    d1: u32,
    a1: u32,
    b1: u32,
    list: &mut [u32],
) -> u32
    ensures { Reports (λ n ys. Walked (row k j s h w l p b p1) (tuple d a tuple_b d1 a1 b1) list.old ys n)
        result list.new }
{
    let r = handed_row(k, j, s, h, w, l, p, b, p1);
    let t = Tuple {
        d,
        a,
        b: tuple_b,
        d1,
        a1,
        b1,
    };
    told(rows::enc_indices(r, t, list))
}

// H rows of L octets, row after row, at the front of `store`.
#[unsafe(no_mangle)]
pub extern "C" fn spoonripple_hdpc_rows(
    k: u32,
    j: u32,
    s: u32,
    h: u32,
    w: u32,
    l: u32,
    p: u32,
    b: u32,
    p1: u32,
    tables: &[u32],
    store: &mut [u8],
) -> u32
    ensures { Reports (λ a ys. HdpcRows tables.now (row k j s h w l p b p1) store.old ys a) result store.new }
{
    let r = handed_row(k, j, s, h, w, l, p, b, p1);
    told(rows::generate_hdpc_rows(r, tables, store))
}

// Rows of bits: LDPC, H of 0, one for each ISI.
#[unsafe(no_mangle)]
pub extern "C" fn spoonripple_constraint_matrix(
    k: u32,
    j: u32,
    s: u32,
    h: u32,
    w: u32,
    l: u32,
    p: u32,
    b: u32,
    p1: u32,
    tables: &[u32],
    isis: &[u32],
    words: &mut [u64],
) -> u32
    ensures { Reports (λ m ys. Builds tables.now isis.now (row k j s h w l p b p1) h k words.old ys m)
        result words.new }
{
    let r = handed_row(k, j, s, h, w, l, p, b, p1);
    told(constraint_matrix::generate_constraint_matrix(r, tables, isis, words))
}

// Rows of bits: LDPC, one for each ISI.
#[unsafe(no_mangle)]
pub extern "C" fn spoonripple_constraint_matrix_no_hdpc(
    k: u32,
    j: u32,
    s: u32,
    h: u32,
    w: u32,
    l: u32,
    p: u32,
    b: u32,
    p1: u32,
    tables: &[u32],
    isis: &[u32],
    words: &mut [u64],
) -> u32
    ensures { Reports
        (λ m ys. Builds tables.now isis.now (row k j s h w l p b p1) 0 (k + h) words.old ys m) result words.new }
{
    let r = handed_row(k, j, s, h, w, l, p, b, p1);
    told(constraint_matrix::generate_constraint_matrix_no_hdpc(r, tables, isis, words))
}
