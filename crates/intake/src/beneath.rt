// What the three calls rest on: the words of the state and the one look at them, the step that takes an equation in, the packet and the rows that row,
// tables and K fix.
pub mod asking;
pub mod fixing;
pub mod keeping;
pub mod looking;
pub mod stepping;
pub mod words;
