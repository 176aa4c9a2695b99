//! Tests of the text reader, the text writer, the line of a check and the record reader.
#![tactic(auto)]

#[cfg(test)]
mod lists;
#[cfg(test)]
mod outcomes;
#[cfg(test)]
mod readings;
#[cfg(test)]
mod texts;
