//! Tests of conditions: texts, and what is read of them and valued.
#![tactic(auto)]

#[cfg(test)]
mod device;
#[cfg(test)]
mod rows;
