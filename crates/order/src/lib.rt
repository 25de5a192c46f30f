// Keys in order: what a kind of key is, the two kinds that there are, and lists of keys of any kind.
#![tactic(auto)]

pub mod address;
pub mod key;
pub mod lists;
pub mod number;
pub mod row;
