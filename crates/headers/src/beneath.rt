// What is called under known conditions: each function here may ask something of its caller.
pub mod big_endian;
pub mod deg;
pub mod front;
pub mod prime;
pub mod rng;
pub mod row;
pub mod transmission;
pub mod tuple;
pub mod util;
