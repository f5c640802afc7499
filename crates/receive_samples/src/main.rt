// The receiving program's work on each delivery of data/, which differential/samples makes. For each its name, what it comes to (the bytes of an object,
// for standard output, or words, for standard error), how many bytes that is, these bytes, and the notes on it.
#![tactic(auto)]

ghost use Rattle.reply.specs.Replies.{InStore};

use header_text::beneath::input::read_full;
use reply::beneath::replying;
use reply::beneath::replying::Reply;
use std::fs::File;

const ANSWERED: [&str; 13] = [
    "whole",
    "repaired",
    "repair-only",
    "twice",
    "many-times",
    "others-between",
    "other-block",
    "cut-packet",
    "one-line",
    "open",
    "no-packets",
    "wrong-symbol",
    "wrong-id",
];

// Refusal 3: a number of the transmission information that is 0, or more sub-blocks than units of a symbol.
const MISANNOUNCED: [&str; 5] = [
    "no-alignment",
    "no-size",
    "no-blocks",
    "no-sub-blocks",
    "crowded-symbol",
];

// One for each part of refusal 4 that a delivery can lead to.
const MISTYPED: [&str; 9] = [
    "typed-j", "typed-k", "even-s", "typed-h", "typed-w", "typed-s", "short-k", "short-s", "long-s",
];

const NOT_TAKEN: [&str; 7] = [
    "cut-tables",
    "cut-head",
    "empty",
    "no-object",
    "large-symbols",
    "two-blocks",
    "two-sub-blocks",
];

// What cannot be written is left out, here and below.
fn part(rt: &HostRuntime, label: &str, bytes: &[u8]) {
    let _ = println!(rt; ": {label}, {} bytes", bytes.len());
    let _ = rt.write_all(bytes);
}

fn show(rt: &HostRuntime, reply: Reply, store: &[u8])
    requires { InStore reply store.now }
{
    match reply {
        Reply::Object(n) => part(rt, "object", &store[..n]),
        Reply::Words(n) => part(rt, "words", &store[..n]),
    }
}

fn sample(rt: &HostRuntime, name: &str) {
    let _ = print!(rt; "{name}");
    let Ok(mut file) = File::open(rt, name) else {
        let _ = println!(rt; ": cannot be opened");
        return;
    };
    let mut bytes = [0u8; 40000];
    let n = read_full(&mut file, &mut bytes);
    let mut lines = [0u8; 200];
    let mut store = [0u8; 307200];
    let spoken = replying::reply_to(&bytes[..n], &mut lines, &mut store);
    show(rt, spoken.reply, &store);
    let _ = rt.write_all(&lines[..spoken.notes]);
}

fn samples(rt: &HostRuntime, names: &[&str]) {
    for name in names {
        sample(rt, name);
    }
}

fn main(rt: HostRuntime) {
    samples(&rt, &ANSWERED);
    samples(&rt, &MISANNOUNCED);
    samples(&rt, &MISTYPED);
    samples(&rt, &NOT_TAKEN);
}
