// Examples of every layer, as tests. They stand in a crate of their own, since a crate with tests is
// proved twice.
#![tactic(auto)]

#[cfg(test)]
mod board_memory;
#[cfg(test)]
mod names_lists;
#[cfg(test)]
mod ordered_keys;
