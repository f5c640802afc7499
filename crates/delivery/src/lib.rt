// The receiving program's work: a delivery of packets, laid out as docs/DELIVERY.md says, to the bytes of its source block.
#![tactic(auto)]

pub mod beneath;
