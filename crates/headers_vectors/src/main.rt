// Answers the questions on standard input, a line each, as the published crate answered them (`stdout`): both files are
// written by differential/vectors. The first 1,024 lines are the random tables; then a question is a letter and seven
// numbers, those that it does not need 0. What cannot be written is left out.
#![tactic(auto)]

ghost use Rattle.std.specs.Prelude.{◌<◌, ◌≤◌, length};

use field::refusal::Refusal;
use header_text::beneath::input;
use headers::ids::{Esi, Isi};
use headers::row::Row;
use headers::transmission::ObjectTransmissionInformation;
use headers::tuple::Tuple;
use headers::{deg, ids, partition, rng, row, transmission, tuple};

#[derive(Clone, Copy)]
struct Question {
    kind: u8,
    n: [u64; 7],
}

impl Question {
    fn word(&self, i: usize) -> u32
        requires { i < 7 }
    {
        low_word(self.n[i])
    }

    fn row(&self) -> Result<Row, Refusal> {
        row::check(
            self.word(0),
            self.word(1),
            self.word(2),
            self.word(3),
            self.word(4),
        )
    }

    fn isi(&self) -> Result<Isi, Refusal> {
        ids::isi_of(self.row()?, self.word(5), Esi(self.word(6)))
    }

    fn tuple(&self, tables: &[u32]) -> Result<Tuple, Refusal> {
        let x = ids::beneath::row_number(self.word(5));
        tuple::intermediate_tuple(self.row()?, tables, x)
    }

    fn information(&self) -> ObjectTransmissionInformation {
        ObjectTransmissionInformation {
            transfer_length: self.n[0],
            symbol_size: (self.n[1] % 65536) as u16,
            num_source_blocks: (self.n[2] % 256) as u8,
            num_sub_blocks: (self.n[3] % 65536) as u16,
            symbol_alignment: (self.n[4] % 256) as u8,
        }
    }
}

fn low_word(x: u64) -> u32 {
    (x % 4294967296) as u32
}

// The number that the text begins with, of which the first digits are lost past nineteen, and the text after the byte that ends it.
fn number(text: &[u8]) -> (u64, &[u8])
    ensures { length result.1.now ≤ length text.now }
{
    let end = text
        .iter()
        .position(|b| !b.is_ascii_digit())
        .unwrap_or(text.len());
    let (digits, rest) = text.split_at(end);
    let value = digits.iter().fold(0u64, |value, b| {
        value % 1000000000000000000 * 10 + u64::from(b.wrapping_sub(b'0'))
    });
    (value, rest.get(1..).unwrap_or(&[]))
}

fn refuse(rt: &impl Print, why: Refusal) {
    let _ = print!(rt; "refused {} ", why.number());
}

fn say<const N: usize>(rt: &impl Print, numbers: Result<[u32; N], Refusal>) {
    match numbers {
        Ok(numbers) => {
            for x in numbers {
                let _ = print!(rt; "{x} ");
            }
        }
        Err(why) => refuse(rt, why),
    }
}

fn say_verdict(rt: &impl Print, verdict: Result<(), Refusal>) {
    match verdict {
        Ok(()) => {
            let _ = print!(rt; "accepted ");
        }
        Err(why) => refuse(rt, why),
    }
}

fn answer(rt: &impl Print, q: Question, tables: &[u32]) {
    match q.kind {
        b'd' => say(rt, deg::deg(q.word(0), q.word(1)).map(|d| [d])),
        b'p' => say(
            rt,
            partition::partition(q.word(0), q.word(1)).map(|p| [p.il, p.is, p.jl, p.js]),
        ),
        b'r' => say(
            rt,
            rng::rand(tables, q.word(0), (q.n[1] % 256) as u8, q.word(2)).map(|x| [x]),
        ),
        b'w' => say(rt, q.row().map(|r| [r.l, r.p, r.b, r.p1])),
        b'i' => say(rt, q.isi().map(|x| [ids::number(x)])),
        b't' => say(
            rt,
            q.tuple(tables).map(|t| [t.d, t.a, t.b, t.d1, t.a1, t.b1]),
        ),
        b'c' => say_verdict(rt, transmission::check(q.information())),
        _ => {}
    }
    let _ = println!(rt);
}

// The question of that letter, and the text after it.
fn read_question(kind: u8, text: &[u8]) -> (Question, &[u8])
    ensures { length result.1.now ≤ length text.now }
{
    let (_, mut rest) = number(text); // the space
    let mut n = [0u64; 7];
    for x in n.iter_mut() {
        (*x, rest) = number(rest);
    }
    (Question { kind, n }, rest)
}

// The tables at the front of the text, and the text after them.
fn read_tables<'a>(text: &'a [u8], tables: &mut [u32]) -> &'a [u8]
    ensures { length result.now ≤ length text.now }
{
    let mut rest = text;
    for entry in tables.iter_mut() {
        let (x, more) = number(rest);
        *entry = low_word(x);
        rest = more;
    }
    rest
}

fn run(rt: &impl Print, text: &[u8]) {
    let mut tables = [0u32; 1024];
    let mut rest = read_tables(text, &mut tables);
    while let Some((kind, more)) = rest.split_first() {
        let (q, next) = read_question(*kind, more);
        answer(rt, q, &tables);
        rest = next;
    }
}

fn main(rt: HostRuntime) {
    let mut text = [0u8; 262144];
    let n = input::read_full(&mut rt.stdin(), &mut text);
    run(&rt, &text[..n]);
}
