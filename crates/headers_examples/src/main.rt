// The examples of layer 2 that are run: the header program's work on each file of data/, partitions, degrees, and y of a tuple. What cannot be
// written is left out.
#![tactic(auto)]

ghost use Rattle.header_text.specs.Counts.{IsPrefixLen};

use header_text::beneath;
use header_text::beneath::input;
use headers::beneath::tuple;
use headers::partition::Parts;
use headers::{deg, partition};
use std::fs::File;

const ACCEPTED: [&str; 5] = [
    "example",
    "largest",
    "56403-symbols",
    "128-sub-blocks",
    "reserved-byte-set",
];

const REFUSED_3: [&str; 10] = [
    "one-byte-more",
    "56404-symbols",
    "2-to-the-32-symbols",
    "no-alignment",
    "not-aligned",
    "no-size",
    "no-blocks",
    "no-sub-blocks",
    "129-sub-blocks",
    "all-ones",
];

const REFUSED_8: [&str; 3] = ["empty", "15-bytes", "17-bytes"];

const PARTITIONS: [(u32, u32); 5] = [
    (10, 3),
    (0, 5),
    (5, 0),
    (4294967295, 1),
    (4294967295, 4294967295),
];

const DEGREES: [(u32, u32); 8] = [
    (5242, 100),
    (5243, 100),
    (1017661, 100),
    (1048575, 100),
    (1048575, 17),
    (1048576, 100),
    (0, 2),
    (0, 1),
];

// A file that cannot be opened counts as an empty one.
fn read_file(rt: &HostRuntime, name: &str, store: &mut [u8]) -> usize
    ensures { IsPrefixLen result store.new }
{
    match File::open(rt, name) {
        Ok(mut file) => input::read_full(&mut file, store),
        Err(_) => 0,
    }
}

fn header(rt: &HostRuntime, name: &str) {
    let _ = println!(rt; "{name}");
    let mut bytes = [0u8; 4096];
    let n = read_file(rt, name, &mut bytes);
    let mut out = [0u8; 4096];
    let len = beneath::text(&bytes[..n], &mut out);
    let _ = rt.write_all(&out[..len]);
}

fn parts(rt: &impl Print, i: u32, j: u32) {
    let _ = println!(rt; "partition {i}\ninto {j}");
    let _ = match partition::partition(i, j) {
        Ok(Parts { il, is, jl, js }) => println!(rt; "IL {il}\nIS {is}\nJL {jl}\nJS {js}"),
        Err(why) => println!(rt; "refused {}", why.number()),
    };
}

fn degree(rt: &impl Print, v: u32, w: u32) {
    let _ = println!(rt; "deg {v}\nW {w}");
    let _ = match deg::deg(v, w) {
        Ok(d) => println!(rt; "is {d}"),
        Err(why) => println!(rt; "refused {}", why.number()),
    };
}

fn files(rt: &HostRuntime, names: &[&str]) {
    for name in names {
        header(rt, name);
    }
}

fn partitions(rt: &impl Print) {
    for (i, j) in PARTITIONS {
        parts(rt, i, j);
    }
}

fn degrees(rt: &impl Print) {
    for (v, w) in DEGREES {
        degree(rt, v, w);
    }
}

fn main(rt: HostRuntime) {
    files(&rt, &ACCEPTED);
    files(&rt, &REFUSED_3);
    files(&rt, &REFUSED_8);
    partitions(&rt);
    degrees(&rt);

    // Of the first row of Table 2, whose J is 254, and X = 1.
    let _ = println!(rt; "y {}", tuple::seed(254, 1));
}
