// The linear system of RFC 6330: walks, LDPC, HDPC and encoding rows, each proved equal to the RFC's sums (constraint_matrix.rs of the crate).
#![tactic(auto)]

pub mod beneath;
pub mod constraint_matrix;
