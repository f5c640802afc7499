// The intake: begun with a row, tables, K and T, given one packet at a time, and asked at any moment (document 02, E1). It keeps its rows in lent
// stores, and what it has to remember in lent words.
#![tactic(auto)]

pub mod beneath;
pub mod intake;
