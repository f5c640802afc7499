// What is written of a delivery, and to which stream.
ghost use Rattle.std.specs.Prelude.{◌≤◌, length};
ghost use Rattle.header_text.specs.Counts.{IsPrefixLen};
ghost use Rattle.delivery.specs.Received.{InRoom};
ghost use Rattle.reply.specs.Replies.{InStore, Replied, Said, SaidOf, notes_of};
ghost use Rattle.reply.specs.Words.{Line};

use crate::beneath::rows::Typed;
use crate::beneath::{notes, rows, words};
use delivery::beneath::receiver;
use delivery::beneath::receiver::Concluded;
use delivery::beneath::screen::Stop;
use elimination::verdict::Verdict;

// So many bytes at the front of the store. Object: to standard output, or to the file OUT; Words: to standard error.
#[derive(Clone, Copy, Debug, PartialEq, Eq)]
pub enum Reply {
    Object(usize),
    Words(usize),
}

// The notes, so many bytes at the front of a store of their own, which come first; and the reply.
#[derive(Clone, Copy, Debug, PartialEq, Eq)]
pub struct Spoken {
    pub notes: usize,
    pub reply: Reply,
}

fn say_verdict(out: &mut [u8], v: Verdict, f: usize) -> Reply
    requires { 200 ≤ length out.old }
    ensures { SaidOf f out.old out.new result v }
{
    match v {
        Verdict::Solved => Reply::Object(f),
        Verdict::Contradiction => Reply::Words(words::write_line(out, b"contradiction\n")),
        Verdict::Open(s) => Reply::Words(words::open(out, s)),
    }
}

// t: the numbers of the row, for what is wrong with it.
pub fn say(out: &mut [u8], what: Result<Concluded, Stop>, t: Typed) -> Reply
    requires { (200 ≤ length out.old) × InRoom (length out.old) what }
    ensures said { Said t out.old out.new result what }
    ensures in_store { InStore result out.new }
{
    match what {
        Ok(c) => say_verdict(out, c.verdict, c.size),
        Err(why) => Reply::Words(words::stopped(out, why, t)),
    }
}

fn note(out: &mut [u8], what: Result<Concluded, Stop>) -> usize
    requires { 200 ≤ length out.old }
    ensures { Line (notes_of what) out.old out.new result }
{
    match what {
        Ok(c) => notes::passed(out, c.passed),
        Err(_) => 0,
    }
}

// Of a delivery that is in memory as a whole: the bytes of the object, or one line of words; and the notes on it.
pub fn reply_to(bytes: &[u8], lines: &mut [u8], out: &mut [u8]) -> Spoken
    requires { (200 ≤ length lines.old) × (307200 ≤ length out.old) }
    ensures replied { Replied bytes.now lines.old lines.new out.old out.new result }
    ensures prefix_len { IsPrefixLen result.notes lines.new × InStore result.reply out.new }
{
    let what = receiver::receive(bytes, out);
    let notes = note(lines, what);
    let t = rows::typed_in(bytes);
    let reply = say(out, what, t);
    Spoken { notes, reply }
}
