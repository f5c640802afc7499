// The octets of RFC 6330 section 5.7: their arithmetic, the same on runs of bytes, and the refusals that every layer shares.
#![tactic(auto)]

pub mod beneath;
pub mod doubling;
pub mod octet;
pub mod refusal;
