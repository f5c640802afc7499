// Reads 16 bytes on standard input, twelve of transmission information and four of a payload id, and prints what they say.
#![tactic(auto)]

use header_text::beneath;
use header_text::beneath::input;

// What cannot be written is left out.
fn main(rt: HostRuntime) {
    let mut bytes = [0u8; 4096];
    let n = input::read_full(&mut rt.stdin(), &mut bytes);
    let mut out = [0u8; 4096];
    let len = beneath::text(&bytes[..n], &mut out);
    let _ = rt.write_all(&out[..len]);
}
