// What the public calls rest on once they have refused what they must: each function here asks that its places lie inside.
pub mod symbols;
