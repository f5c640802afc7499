// The C interface over all layers. A number passes as itself, a slice as pointer and length. The result is 0 where the
// call was done, else the code of its refusal, which is its number in document 01 in the low byte and its part above (100 and
// 101 are contradiction and open, of the solver and the intake); values go to the front of a lent slice of u64.
#![tactic(auto)]

pub mod blocks;
pub mod intakes;
pub mod matrices;
pub mod octets;
pub mod packets;
pub mod runs;
pub mod symbols;
pub mod systems;
pub mod tuples;
mod values;
