// The board's memory, which the caller lends, and small functions over its slices.
#![tactic(auto)]

pub mod access;
pub mod call;
pub mod controller;
pub mod links;
pub mod locks;
pub mod node;
pub mod pool;
pub mod refusal;
pub mod reuse;
pub mod setup;
pub mod traverse;
