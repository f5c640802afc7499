// What is called under known conditions: each function here may ask something of its caller.
pub mod enc;
