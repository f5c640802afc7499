// What the layers above call under known conditions: each function here may ask something of its caller.
pub mod runs;
