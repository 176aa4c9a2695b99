//! Tests of scripts: what lines say, where texts are refused, and how answers are printed.
#![tactic(auto)]

#[cfg(test)]
mod answers;
#[cfg(test)]
mod lines;
#[cfg(test)]
mod texts;
