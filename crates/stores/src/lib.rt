// Rows of bits over lent words: the binary matrix that every row operation works on.
#![tactic(auto)]

pub mod beneath;
pub mod matrix;
