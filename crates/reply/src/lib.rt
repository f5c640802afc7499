// What the receiving program writes, and where: the object, or words; the words of its own failures; the names of its files (docs/DELIVERY.md).
#![tactic(auto)]

pub mod beneath;
