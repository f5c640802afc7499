// What is wrong with a parameter row, in one line: which number, what it was, and what the rule asks (docs/DELIVERY.md).
ghost use Rattle.std.specs.Prelude.{◌≡◌, ◌++◌, ◌+◌, ◌-◌, ◌≤◌, length};
ghost use Rattle.headers.specs.Quotient.{ceil};
ghost use Rattle.header_text.specs.Text.{Lined};
ghost use Rattle.reply.specs.Ascii.{ascii};
ghost use Rattle.reply.specs.Rows.{b_words, fault_words, l_words, ldpc_words, less_words, p_words, row_words, signed_words, stated, sum_words, typed_in, wide_words};
ghost use Rattle.reply.specs.Words.{Line};

use field::refusal::Part;
use header_text::beneath::numbered;
use headers::beneath::{big_endian, util};

// K', J, S, H and W as they stand in a delivery.
#[derive(Clone, Copy, Debug, PartialEq, Eq)]
pub struct Typed {
    pub kp: u32,
    pub j: u32,
    pub s: u32,
    pub h: u32,
    pub w: u32,
}

// A delivery that ends in front of them is refused for that, so no line is made of these zeros.
pub fn typed_in(bytes: &[u8]) -> Typed
    ensures { result ≡ typed_in bytes.now }
{
    if bytes.len() < 32 {
        return Typed {
            kp: 0,
            j: 0,
            s: 0,
            h: 0,
            w: 0,
        };
    }
    Typed {
        kp: big_endian::get(bytes, 12, 4) as u32,
        j: big_endian::get(bytes, 16, 4) as u32,
        s: big_endian::get(bytes, 20, 4) as u32,
        h: big_endian::get(bytes, 24, 4) as u32,
        w: big_endian::get(bytes, 28, 4) as u32,
    }
}

// The line of a part, from the front on.
pub fn broken(out: &mut [u8], part: Part, t: Typed) -> usize
    requires { 200 ≤ length out.old }
    ensures { Line (row_words part t) out.old out.new result }
{
    let after_part = numbered(out, 0, b"refused 4, part ", u64::from(part.place()));
    let at = text(out, after_part, b": ");
    let end = fault(out, at, part, t);
    text(out, end, b"\n")
}

// The sentence of a part.
fn fault(out: &mut [u8], at: usize, part: Part, t: Typed) -> usize
    requires { at + 160 ≤ length out.old }
    ensures { Lined (fault_words part t) 160 out.old out.new at result }
{
    match part {
        Part::Wide => wide_fault(out, at, t),
        Part::Kp => ruled(out, at, b"K' is ", t.kp, b", and must be from 1 to 56,403"),
        Part::S => ruled(out, at, b"S is ", t.s, b", and must be odd and at least 3"),
        Part::H => ruled(out, at, b"H is ", t.h, b", and must be from 2 to 255"),
        Part::W => ruled(out, at, b"W is ", t.w, b", and must be a prime"),
        Part::B => b_fault(out, at, t),
        Part::P => p_fault(out, at, t),
        Part::Ldpc => ldpc_fault(out, at, t),
        Part::L => l_fault(out, at, t),
        Part::Derived => text(
            out,
            at,
            b"L, P, B or P1 is not what follows from K', J, S, H and W",
        ),
    }
}

// The first of K', J, S, H and W that is too large; W where none of the other four is.
fn wide_fault(out: &mut [u8], at: usize, t: Typed) -> usize
    requires { at + 160 ≤ length out.old }
    ensures { Lined (wide_words t) 160 out.old out.new at result }
{
    if t.kp > 65535 {
        return too_large(out, at, b"K' is ", t.kp);
    }
    if t.j > 65535 {
        return too_large(out, at, b"J is ", t.j);
    }
    if t.s > 65535 {
        return too_large(out, at, b"S is ", t.s);
    }
    if t.h > 65535 {
        return too_large(out, at, b"H is ", t.h);
    }
    too_large(out, at, b"W is ", t.w)
}

fn b_fault(out: &mut [u8], at: usize, t: Typed) -> usize
    requires { at + 160 ≤ length out.old }
    ensures { Lined (b_words t) 160 out.old out.new at result }
{
    let terms = difference(out, at, b"B = W - S is ", t);
    let value = signed(out, terms, u64::from(t.w), u64::from(t.s));
    text(out, value, b", and must be at least 1")
}

fn p_fault(out: &mut [u8], at: usize, t: Typed) -> usize
    requires { at + 160 ≤ length out.old }
    ensures { Lined (p_words t) 160 out.old out.new at result }
{
    let terms = sum(out, at, b"P = K' + S + H - W is ", t);
    let less = numbered(out, terms, b" - ", u64::from(t.w));
    let value = signed(out, less, total(t), u64::from(t.w));
    text(out, value, b", and must be at least 3")
}

fn ldpc_fault(out: &mut [u8], at: usize, t: Typed) -> usize
    requires { at + 160 ≤ length out.old }
    ensures { Lined (ldpc_words t) 160 out.old out.new at result }
{
    let terms = difference(out, at, b"ceil(B/S) = ceil((W - S)/S) is ceil((", t);
    let over = numbered(out, terms, b")/", u64::from(t.s));
    let value = numbered(out, over, b") = ", bands(t));
    text(out, value, b", and must be below S")
}

fn l_fault(out: &mut [u8], at: usize, t: Typed) -> usize
    requires { at + 160 ≤ length out.old }
    ensures { Lined (l_words t) 160 out.old out.new at result }
{
    let terms = sum(out, at, b"L = K' + S + H is ", t);
    let value = numbered(out, terms, b" = ", total(t));
    text(out, value, b", and must be at most 65,535")
}

// The label, and K' + S + H in numbers.
fn sum(out: &mut [u8], at: usize, label: &[u8], t: Typed) -> usize
    requires { at + (length label.now + 66) ≤ length out.old }
    ensures { Lined (label.now ++ sum_words t) (length label.now + 66) out.old out.new at result }
{
    let kp = numbered(out, at, label, u64::from(t.kp));
    let s = numbered(out, kp, b" + ", u64::from(t.s));
    numbered(out, s, b" + ", u64::from(t.h))
}

// The label, and W - S in numbers.
fn difference(out: &mut [u8], at: usize, label: &[u8], t: Typed) -> usize
    requires { at + (length label.now + 43) ≤ length out.old }
    ensures { Lined (label.now ++ less_words t) (length label.now + 43) out.old out.new at result }
{
    let w = numbered(out, at, label, u64::from(t.w));
    numbered(out, w, b" - ", u64::from(t.s))
}

// What a - b comes to, which may be negative.
fn signed(out: &mut [u8], at: usize, a: u64, b: u64) -> usize
    requires { at + 24 ≤ length out.old }
    ensures { Lined (ascii " = " ++ signed_words a b) 24 out.old out.new at result }
{
    if a < b {
        return numbered(out, at, b" = -", b - a);
    }
    numbered(out, at, b" = ", a - b)
}

// K' + S + H, which 32 bits may not hold.
fn total(t: Typed) -> u64
    ensures { result ≡ t.kp + t.s + t.h }
{
    u64::from(t.kp) + u64::from(t.s) + u64::from(t.h)
}

// ceil((W - S)/S): 0 where W is below S, and where S is 0.
fn bands(t: Typed) -> u64
    ensures { result ≡ ceil (t.w - t.s) t.s }
{
    if t.s == 0 {
        return 0;
    }
    util::int_div_ceil(u64::from(t.w.saturating_sub(t.s)), u64::from(t.s))
}

fn too_large(out: &mut [u8], at: usize, label: &[u8], x: u32) -> usize
    requires { (at + 60 ≤ length out.old) × (length label.now ≤ 14) }
    ensures { Lined (stated label.now x (ascii ", and must be below 65,536")) 60 out.old out.new at result }
{
    ruled(out, at, label, x, b", and must be below 65,536")
}

// A number between its name and its rule.
fn ruled(out: &mut [u8], at: usize, label: &[u8], x: u32, rule: &[u8]) -> usize
    requires { (at + 60 ≤ length out.old) × (length label.now + length rule.now ≤ 40) }
    ensures { Lined (stated label.now x rule.now) 60 out.old out.new at result }
{
    let next = numbered(out, at, label, u64::from(x));
    text(out, next, rule)
}

pub fn text(out: &mut [u8], at: usize, words: &[u8]) -> usize
    requires { at + length words.now ≤ length out.old }
    ensures { Lined words.now (length words.now) out.old out.new at result }
{
    big_endian::copy(out, at, words);
    at + words.len()
}
