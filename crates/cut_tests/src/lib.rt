//! Publications that are cut at each number of writes: what is live when the power is back.
#![tactic(auto)]

#[cfg(test)]
mod cutting;
#[cfg(test)]
mod files;
#[cfg(test)]
mod publishing;
