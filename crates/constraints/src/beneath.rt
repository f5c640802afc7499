// What is called under known conditions: each function here may ask something of its caller.
pub mod encoding;
pub mod hdpc;
pub mod ldpc;
pub mod unit;
pub mod walk;
