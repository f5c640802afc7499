// The arithmetic of crates/field once more, through the tables of RFC 6330, sections 5.7.3 and 5.7.4, as raptorq has it, and proved equal to the same
// definitions. What a reader loads does not rest on it (document 02, E10).
#![tactic(auto)]

pub mod beneath;
pub mod octet;
