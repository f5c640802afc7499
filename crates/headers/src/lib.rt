// What a receiver reads before it touches a symbol, each refusal exact, and the tuples of its symbols (base.rs of the crate, rand from the RFC).
#![tactic(auto)]

pub mod beneath;
pub mod deg;
pub mod ids;
pub mod packet;
pub mod partition;
pub mod payload_id;
pub mod rng;
pub mod row;
pub mod transmission;
pub mod tuple;
