// Both builders of the constraint matrix over lent words (constraint_matrix.rs of the crate).
#![tactic(auto)]

pub mod beneath;
pub mod constraint_matrix;
