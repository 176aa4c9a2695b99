//! Tests of files that are made from texts and from record lists, in memory and on a shelf.
#![tactic(auto)]

#[cfg(test)]
mod in_memory;
#[cfg(test)]
mod on_a_shelf;
