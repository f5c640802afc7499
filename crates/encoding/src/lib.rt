// The encoding of one symbol from the intermediate symbols of its block (RFC 6330 section 5.3.5.3).
#![tactic(auto)]

pub mod beneath;
pub mod encoder;
