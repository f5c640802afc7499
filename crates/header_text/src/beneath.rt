// Lines of text in a lent store. Each function answers where its lines end, and asks for the room that the longest take: a line is its
// label, at most 20 digits and a line feed.
ghost use Rattle.std.specs.Prelude.{◌≡◌, ◌++◌, ◌+◌, ◌≤◌, length, IfOk, IfErr};
ghost use Rattle.field.specs.Answer.{code_of, given, number_in, outcome};
ghost use Rattle.header_text.specs.Counts.{IsPrefixLen};
ghost use Rattle.header_text.specs.Text.{Lined, id_lines, info_lines, line, refused_line, spelled, text_of, told, verdict_line};

use field::refusal::Refusal;
use headers::beneath::big_endian;
use headers::payload_id::PayloadId;
use headers::transmission::ObjectTransmissionInformation;
use headers::{payload_id, transmission};
use itoa::Buffer;

pub mod input;

pub fn text(input: &[u8], out: &mut [u8]) -> usize
    requires { 200 ≤ length out.old }
    ensures lined { Lined (text_of input.now) 200 out.old out.new 0 result }
    ensures prefix_len { IsPrefixLen result out.new }
{
    match read(input) {
        Ok((info, id)) => all_lines(out, info, id),
        Err(why) => refusal_line(out, 0, why),
    }
}

// The transmission information is the first twelve bytes, and the payload id is the rest.
fn read(input: &[u8]) -> Result<(ObjectTransmissionInformation, PayloadId), Refusal>
    ensures read { IfOk result (λ x. text_of input.now ≡ told (given x.0) (given x.1)) }
    ensures refused { IfErr result (λ why. text_of input.now ≡ refused_line (number_in (code_of why))) }
{
    let (front, rest) = input.split_at(input.len().min(12));
    let info = transmission::deserialize(front)?;
    let id = payload_id::deserialize(rest)?;
    Ok((info, id))
}

fn all_lines(out: &mut [u8], info: ObjectTransmissionInformation, id: PayloadId) -> usize
    requires { 200 ≤ length out.old }
    ensures { Lined (told (given info) (given id)) 200 out.old out.new 0 result }
{
    let after_info = info_lines(out, info);
    let after_id = id_lines(out, after_info, id);
    verdict_line(out, after_id, transmission::check(info))
}

fn info_lines(out: &mut [u8], info: ObjectTransmissionInformation) -> usize
    requires { 116 ≤ length out.old }
    ensures { Lined (info_lines info) 116 out.old out.new 0 result }
{
    let f = number_line(out, 0, b"F ", info.transfer_length);
    let t = number_line(out, f, b"T ", u64::from(info.symbol_size));
    let z = number_line(out, t, b"Z ", u64::from(info.num_source_blocks));
    let n = number_line(out, z, b"N ", u64::from(info.num_sub_blocks));
    number_line(out, n, b"Al ", u64::from(info.symbol_alignment))
}

fn id_lines(out: &mut [u8], at: usize, id: PayloadId) -> usize
    requires { at + 50 ≤ length out.old }
    ensures { Lined (id_lines id) 50 out.old out.new at result }
{
    let sbn = number_line(out, at, b"SBN ", u64::from(id.source_block_number));
    number_line(out, sbn, b"ESI ", u64::from(id.encoding_symbol_id))
}

fn verdict_line(out: &mut [u8], at: usize, verdict: Result<(), Refusal>) -> usize
    requires { at + 29 ≤ length out.old }
    ensures { Lined (verdict_line (outcome verdict)) 29 out.old out.new at result }
{
    match verdict {
        Ok(()) => {
            big_endian::copy(out, at, b"accepted\n");
            at + 9
        }
        Err(why) => refusal_line(out, at, why),
    }
}

pub fn refusal_line(out: &mut [u8], at: usize, why: Refusal) -> usize
    requires { at + 29 ≤ length out.old }
    ensures { Lined (refused_line (number_in (code_of why))) 29 out.old out.new at result }
{
    number_line(out, at, b"refused ", u64::from(why.number()))
}

// The label, the number in decimal, and a line feed.
pub fn number_line(out: &mut [u8], at: usize, label: &[u8], x: u64) -> usize
    requires { at + (length label.now + 21) ≤ length out.old }
    ensures { Lined (line label.now x) (length label.now + 21) out.old out.new at result }
{
    let end = numbered(out, at, label, x);
    big_endian::copy(out, end, b"\n");
    end + 1
}

// The label and the number in decimal.
pub fn numbered(out: &mut [u8], at: usize, label: &[u8], x: u64) -> usize
    requires { at + (length label.now + 20) ≤ length out.old }
    ensures { Lined (label.now ++ spelled 20 x) (length label.now + 20) out.old out.new at result }
{
    let mut buffer = Buffer::new();
    let digits = buffer.format(x).as_bytes();
    big_endian::copy(out, at, label);
    let middle = at + label.len();
    big_endian::copy(out, middle, digits);
    middle + digits.len()
}
