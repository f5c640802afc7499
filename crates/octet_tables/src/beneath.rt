// What `octet` calls under known conditions: the entries of the two tables.
pub mod tables;
