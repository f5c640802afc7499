// The file beside OUT that the object is written to, until it is whole.
ghost use Rattle.std.specs.Prelude.{◌+◌, ◌≤◌, length};
ghost use Rattle.reply.specs.Names.{Beside, LastPart};

use header_text::beneath::numbered;
use headers::beneath::big_endian;

// Where the last part of a path begins: behind its last '/', so that what stands in front of it is the folder.
pub fn last_part(path: &[u8]) -> usize
    ensures { LastPart path.now result }
{
    path.iter().rposition(|&b| b == b'/').map_or(0, |i| i + 1)
}

// In the same folder: a dot, the last part of the path, '.receive-' and the number i.
pub fn beside(path: &[u8], i: u32, name: &mut [u8]) -> usize
    requires { length path.now + 30 ≤ length name.old }
    ensures { Beside path.now i name.old name.new result }
{
    let k = last_part(path);
    let len = path.len();
    big_endian::copy(name, 0, &path[..k]);
    big_endian::copy(name, k, b".");
    big_endian::copy(name, k + 1, &path[k..]);
    numbered(name, len + 1, b".receive-", u64::from(i))
}
