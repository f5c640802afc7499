// Symbols in lent bytes: the store that every operation on symbols works on.
#![tactic(auto)]

pub mod beneath;
pub mod symbol_slab;
