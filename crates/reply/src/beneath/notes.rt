// The notes: lines for standard error that keep the program from nothing. Each begins with `note: `.
ghost use Rattle.std.specs.Prelude.{◌+◌, ◌≤◌, length};
ghost use Rattle.header_text.specs.Text.{Lined};
ghost use Rattle.reply.specs.Words.{Line, cut_words, open_words, others_words, passed_words, progress_words, verdict_words};

use crate::beneath::rows;
use delivery::beneath::packets::Passed;
use elimination::verdict::Verdict;
use header_text::beneath::numbered;

// The x of an open delivery is a floor: fewer packets more do not solve it (the theorem `not-before` of promises).
pub fn shortfall(out: &mut [u8], at: usize, x: u32) -> usize
    requires { at + 61 ≤ length out.old }
    ensures { Lined (open_words x) 61 out.old out.new at result }
{
    let next = numbered(out, at, b"open, ", u64::from(x));
    rows::text(out, next, b" more independent packets at least\n")
}

fn verdict(out: &mut [u8], at: usize, v: Verdict) -> usize
    requires { at + 61 ≤ length out.old }
    ensures { Lined (verdict_words v) 61 out.old out.new at result }
{
    match v {
        Verdict::Solved => rows::text(out, at, b"solved\n"),
        Verdict::Contradiction => rows::text(out, at, b"contradiction\n"),
        Verdict::Open(s) => shortfall(out, at, s),
    }
}

// How it stands after n packets of its block.
pub fn progress(out: &mut [u8], n: u64, v: Verdict) -> usize
    requires { 200 ≤ length out.old }
    ensures { Line (progress_words n v) out.old out.new result }
{
    let number = numbered(out, 0, b"note: after ", n);
    let at = rows::text(out, number, b" packets: ");
    verdict(out, at, v)
}

fn others(out: &mut [u8], n: u64) -> usize
    requires { 66 ≤ length out.old }
    ensures { Lined (others_words n) 66 out.old out.new 0 result }
{
    if n == 0 {
        return 0;
    }
    let at = numbered(out, 0, b"note: packets of another block, passed over: ", n);
    rows::text(out, at, b"\n")
}

fn last(out: &mut [u8], at: usize, cut: bool) -> usize
    requires { at + 55 ≤ length out.old }
    ensures { Lined (cut_words cut) 55 out.old out.new at result }
{
    if cut {
        return rows::text(
            out,
            at,
            b"note: the last packet is not whole, and is passed over\n",
        );
    }
    at
}

// What was passed over: two lines, one, or none.
pub fn passed(out: &mut [u8], p: Passed) -> usize
    requires { 200 ≤ length out.old }
    ensures { Line (passed_words p) out.old out.new result }
{
    let at = others(out, p.others);
    last(out, at, p.cut)
}
