// The words, each a line at the front of a lent store: what comes of a delivery that gives no object, and what else keeps the program from its work.
ghost use Rattle.std.specs.Prelude.{◌≤◌, length};
ghost use Rattle.reply.specs.Words.{Line, failure_words, misuse_words, open_words, refusal_words, stop_words};

use crate::beneath::arguments::Misuse;
use crate::beneath::rows::Typed;
use crate::beneath::{notes, rows};
use delivery::beneath::screen::Stop;
use field::refusal::Refusal;
use headers::beneath::big_endian;

// A call of the system that failed. Its reason, which the system has words for, comes behind these.
#[derive(Clone, Copy, Debug, PartialEq, Eq)]
pub enum Failure {
    Reading,
    Output,
    Making,
    Writing,
    Syncing,
    Closing,
    Renaming,
    Removing,
}

pub fn write_line(out: &mut [u8], words: &[u8]) -> usize
    requires { length words.now ≤ length out.old }
    ensures { Line words.now out.old out.new result }
{
    big_endian::copy(out, 0, words);
    words.len()
}

// t: the numbers of the row, for what is wrong with it.
fn refused(out: &mut [u8], why: Refusal, t: Typed) -> usize
    requires { 200 ≤ length out.old }
    ensures { Line (refusal_words t why) out.old out.new result }
{
    match why {
        Refusal::DivisorZero => write_line(out, b"refused 1: an octet is divided by 0\n"),
        Refusal::OutOfRange => write_line(out, b"refused 2: a number is outside its range\n"),
        Refusal::BadTransmission => write_line(
            out,
            b"refused 3: the transmission information breaks its rules\n",
        ),
        Refusal::BadRow(part) => rows::broken(out, part, t),
        Refusal::BadTables => write_line(
            out,
            b"refused 5: the random tables are not 1,024 numbers\n",
        ),
        Refusal::Outside => write_line(out, b"refused 6: a place is outside\n"),
        Refusal::SamePlace => write_line(out, b"refused 7: destination and source are one\n"),
        Refusal::WrongLength => write_line(
            out,
            b"refused 8: the delivery ends in its first 32 bytes\n",
        ),
        Refusal::BadCount => write_line(
            out,
            b"refused 9: the count of source symbols is not from 1 to K'\n",
        ),
        Refusal::BadSize => write_line(out, b"refused 10: the symbol size is 0\n"),
        Refusal::NotBegun => write_line(out, b"refused 14: nothing was begun\n"),
    }
}

pub fn stopped(out: &mut [u8], why: Stop, t: Typed) -> usize
    requires { 200 ≤ length out.old }
    ensures { Line (stop_words t why) out.old out.new result }
{
    match why {
        Stop::Refused(w) => refused(out, w, t),
        Stop::TooLarge => write_line(
            out,
            b"too large for this program: T is at most 1,024, L at most 300\n",
        ),
        Stop::SeveralBlocks => write_line(
            out,
            b"several blocks: this program takes one source block of one sub-block\n",
        ),
    }
}

// The x of an open delivery is a floor: fewer packets more do not solve it (the theorem `not-before` of promises).
pub fn open(out: &mut [u8], x: u32) -> usize
    requires { 200 ≤ length out.old }
    ensures { Line (open_words x) out.old out.new result }
{
    notes::shortfall(out, 0, x)
}

pub fn misused(out: &mut [u8], why: Misuse) -> usize
    requires { 200 ≤ length out.old }
    ensures { Line (misuse_words why) out.old out.new result }
{
    match why {
        Misuse::Arguments => write_line(
            out,
            b"more than one argument: it is receive, or receive OUT, with the delivery on standard input\n",
        ),
        Misuse::NoName => write_line(out, b"the name of OUT is empty\n"),
        Misuse::LongName => write_line(out, b"the name of OUT has more than 4,000 bytes\n"),
    }
}

pub fn failed(out: &mut [u8], what: Failure) -> usize
    requires { 200 ≤ length out.old }
    ensures { Line (failure_words what) out.old out.new result }
{
    match what {
        Failure::Reading => write_line(out, b"standard input cannot be read"),
        Failure::Output => write_line(out, b"standard output cannot be written"),
        Failure::Making => write_line(out, b"no file can be made beside OUT"),
        Failure::Writing => write_line(out, b"the file beside OUT cannot be written"),
        Failure::Syncing => write_line(out, b"the file beside OUT cannot be synced"),
        Failure::Closing => write_line(out, b"the file beside OUT cannot be closed"),
        Failure::Renaming => write_line(out, b"the file beside OUT cannot be renamed to OUT"),
        Failure::Removing => write_line(out, b"the file beside OUT cannot be removed"),
    }
}
