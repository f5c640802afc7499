// From what comes of a delivery to the bytes that are written. Each function here may ask something of its caller.
pub mod arguments;
pub mod names;
pub mod notes;
pub mod replying;
pub mod rows;
pub mod words;
