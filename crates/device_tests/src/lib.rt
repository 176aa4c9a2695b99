//! Tests of the devices, and a device that counts what is read from the one below.
#![tactic(auto)]

#[cfg(test)]
mod asks;
#[cfg(test)]
mod counted;
#[cfg(test)]
mod marking;
#[cfg(test)]
mod nothing;
#[cfg(test)]
mod paging;
#[cfg(test)]
mod refusals;
#[cfg(test)]
mod stacking;
#[cfg(test)]
mod tearing;
