// Solving: the intermediate symbols that the constraints and the packets that arrived settle; and the display of a source symbol.
#![tactic(auto)]

pub mod beneath;
pub mod display;
pub mod solver;
