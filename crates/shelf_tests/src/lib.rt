//! Tests of a shelf: what fits, bad sectors, entries, roots, and what lookups give before and after publications.
#![tactic(auto)]

#[cfg(test)]
mod calls;
#[cfg(test)]
mod entries;
#[cfg(test)]
mod marking;
#[cfg(test)]
mod publications;
#[cfg(test)]
mod roots;
#[cfg(test)]
mod sizes;
