// From the bytes of a delivery to its source block. Each function here may ask something of its caller.
pub mod block;
pub mod layout;
pub mod packets;
pub mod receiver;
pub mod screen;
