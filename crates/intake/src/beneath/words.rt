// The words of a state: the row's nine numbers, K, T, how many rows are held, a mark, and the tables. They are lent by a caller in C, so that each is a
// number.
ghost use Rattle.std.specs.Prelude.{◌≡◌, ◌+◌, ◌≤◌, length, get_or};
ghost use Rattle.field.specs.Runs.{Written};
ghost use Rattle.intake.specs.State.{Numbers, held_by, k_in, l_in, mark_in, noted, progress_in, row_in, t_in, tables_in, words};

use elimination::beneath::solving::Progress;
use headers::row::Row;

// Where the words stand that are not of the row, and how many there are.
const K: usize = 9;

const T: usize = 10;

const HELD: usize = 11;

const MARK: usize = 12;

const TABLES: usize = 13;

pub const SIZE: usize = 1037;

// The marks: the packets alone are taken; the rows that row, tables and K fix, too; no set of symbols fits.
pub const BEGUN: u32 = 1;

pub const FIXED: u32 = 2;

const CLASH: u32 = 3;

pub fn row_in(state: &[u32]) -> Row
    requires { 1037 ≤ length state.now }
    ensures { result ≡ row_in state.now }
{
    Row {
        kp: state[0],
        j: state[1],
        s: state[2],
        h: state[3],
        w: state[4],
        l: state[5],
        p: state[6],
        b: state[7],
        p1: state[8],
    }
}

// L, which the row carries.
pub fn l_in(state: &[u32]) -> usize
    requires { Numbers state.now }
    ensures { result ≡ l_in state.now }
{
    row_in(state).l as usize
}

pub fn k_in(state: &[u32]) -> u32
    requires { 1037 ≤ length state.now }
    ensures { result ≡ k_in state.now }
{
    state[K]
}

pub fn t_in(state: &[u32]) -> usize
    requires { 1037 ≤ length state.now }
    ensures { result ≡ t_in state.now }
{
    state[T] as usize
}

pub fn mark_in(state: &[u32]) -> u32
    requires { 1037 ≤ length state.now }
    ensures { result ≡ mark_in state.now }
{
    state[MARK]
}

pub fn tables_in(state: &[u32]) -> &[u32]
    requires { 1037 ≤ length state.now }
    ensures { result.now ≡ tables_in state.now }
{
    &state[TABLES..SIZE]
}

// How far the elimination has come.
pub fn progress_in(state: &[u32]) -> Progress
    requires { 1037 ≤ length state.now }
    ensures { result ≡ progress_in state.now }
{
    if state[MARK] == CLASH {
        return None;
    }
    Some(state[HELD] as usize)
}

// The numbers go into the state, from word `at` on.
fn copy(numbers: &[u32], state: &mut [u32], at: usize)
    requires { at + length numbers.now ≤ length state.old }
    ensures { Written (λ i. get_or numbers.now i 0) state.old state.new at (length numbers.now) }
{
    // Word by word: `copy_from_slice` would be a call of libc's memmove.
    for i in 0..numbers.len() {
        state[at + i] = numbers[i];
    }
}

// The words of a begin: nothing is held, and the packets alone are taken.
pub fn open(state: &mut [u32], r: Row, k: u32, t: u32, tables: &[u32])
    requires { (1037 ≤ length state.old) × (length tables.now ≡ 1024) }
    ensures { Written (λ i. get_or (words r k t tables.now) i 0) state.old state.new 0 1037 }
{
    let held = 0;
    let front = [
        r.kp, r.j, r.s, r.h, r.w, r.l, r.p, r.b, r.p1, k, t, held, BEGUN,
    ];
    copy(&front, state, 0);
    copy(tables, state, TABLES);
}

// The elimination stands at q: a clash is marked, and no later packet takes the mark away.
pub fn note(state: &mut [u32], q: Progress, mark: u32)
    requires { (1037 ≤ length state.old) × (held_by q ≤ 65535) }
    ensures { Written (λ i. get_or (noted q mark) i 0) state.old state.new 11 2 }
{
    state[HELD] = q.unwrap_or(0) as u32;
    state[MARK] = if q.is_some() { mark } else { CLASH };
}
