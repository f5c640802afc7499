// The packets: 4 bytes of payload id and the T bytes of one symbol each, one after the other behind the tables.
ghost use Rattle.std.specs.Prelude.{◌≡◌, ◌+◌, ◌≤◌, ◌<◌};
ghost use Rattle.field.specs.Choice.{pick};
ghost use Rattle.delivery.specs.Layout.{count_of};

// What is passed over: the packets of other blocks, so many; and whether the last packet is not whole.
#[derive(Clone, Copy, Debug, PartialEq, Eq)]
pub struct Passed {
    pub others: u64,
    pub cut: bool,
}

// How many whole packets `len` bytes hold.
pub fn count(len: usize, t: usize) -> usize
    requires { (4128 ≤ len) × (t < 65536) }
    ensures { result ≡ count_of len t }
{
    (len - 4128) / (t + 4)
}

// One packet more, whether of the block or of another.
pub fn tally(others: u64, own: bool) -> u64
    requires { others < 18446744073709551615 }
    ensures { (result ≡ pick own others (others + 1)) × (result ≤ others + 1) }
{
    if own { others } else { others + 1 }
}
